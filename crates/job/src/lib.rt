//! A job: the text of a circuit, and behind it the device and the layout to compile it for.
#![tactic(auto)]

mod builder;
mod error;
mod grid;
mod numbers;
mod plan;
mod split;
mod wiring;

pub use error::PlanError;
pub use grid::Grid;
pub use plan::{Plan, read_plan};
pub use split::text_length;
