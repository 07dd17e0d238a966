//! What both programs do at the terminal: read what they are given, and say why there is no answer.
#![tactic(auto)]

mod input;
mod refusal;

pub use input::{NoAnswer, exit_code, fail, page, read_input};
pub use refusal::{explain, point};
