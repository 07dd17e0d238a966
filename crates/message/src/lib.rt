//! Circuits, answers and refusals as text, and jobs: from bytes to bytes.
#![tactic(auto)]

mod comparing;
mod compiling;
mod locate;
mod reason;
mod round;
mod rows;
mod show;

pub use comparing::{CompareError, Side, compare_texts};
pub use compiling::{JobError, compile_job, text_of};
pub use locate::{Position, in_word, position_of, show_place, start_stands};
pub use reason::Reason;
pub use round::round_trip_stands;
pub use rows::{Digits, show_row};
pub use show::{show_compiled, show_gate, show_gates, show_layout};
