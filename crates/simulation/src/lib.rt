//! The amplitudes that a circuit gives from a row, exactly, as text.
#![tactic(auto)]

mod check;
mod play;
mod start;

pub use play::show_amplitudes;
