//! Why a text is refused, and what could stand where it is.
#![tactic(auto)]

mod cause;
mod choice;
mod expect;
mod fault;
mod front;
mod sentence;

pub use cause::diagnose;
pub use choice::{offer, show_choice};
pub use expect::{could_end, could_stand};
pub use fault::Fault;
pub use sentence::explain;
