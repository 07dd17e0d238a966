//! Circuits tidied: gates that undo each other go, turns of one qubit become one, and nothing gets worse.
#![tactic(auto)]

mod engine;
mod pass;
mod rules;
mod table;
pub mod theorems;

pub use engine::Outcome;
pub use pass::{settle, tidy};
