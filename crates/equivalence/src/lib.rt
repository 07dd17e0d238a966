//! Whether two circuits are the same up to a global phase.
#![tactic(auto)]

mod checks;
mod circuits;
mod comparison;
mod entry;
mod pair;
pub mod theorems;
mod turn;

pub use circuits::compare_circuits;
pub use comparison::Comparison;
pub use entry::compare;
