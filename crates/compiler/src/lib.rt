//! Circuits brought onto a device.
#![tactic(auto)]

mod checks;
mod decomposition;
mod pipeline;
mod policy;
mod router;
mod routing;
mod swap;
pub mod theorems;
mod walk;

pub use checks::Request;
pub use decomposition::decompose;
pub use pipeline::{compile, compile_circuit};
pub use routing::route;
