//! What a circuit is made of, and what a compiler made of it.
#![tactic(auto)]

mod schedule;
mod table;
mod tally;

pub use schedule::depth_stands;
pub use table::Summary;
pub use tally::{Counts, count};
