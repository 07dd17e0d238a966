//! Gates, circuits, and exact states of up to eight qubits.
#![tactic(auto)]

mod code;
mod evolve;
mod failure;
mod gate;
mod refusal;
mod register;
mod row;
mod vector;

pub use code::{
    check_gates, check_numbers, count_mixes, decode, decode_in, first_fault, first_misfit, write,
};
pub use evolve::{column, column_reversed};
pub use failure::Failure;
pub use gate::Gate;
pub use refusal::{Refusal, refuse};
pub use register::Register;
pub use vector::StateVector;
