//! Circuits undone and with other qubits put in, and the laws that circuits obey.
#![tactic(auto)]

mod backwards;
mod identities;
mod laws;
mod relabel;

pub use backwards::undone;
pub use identities::identities_stand;
pub use laws::{change_places_stands, linearity_stands, sameness_stands, undoing_stands};
pub use relabel::renamed;
