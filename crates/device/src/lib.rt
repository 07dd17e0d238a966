//! Devices: coupling graphs of up to sixteen places.
#![tactic(auto)]

mod between;
mod connect;
mod couple;
mod device;
mod hop;
mod layout;
mod tree;
mod ways;

pub use between::all_ways;
pub use connect::{Fault, connected, cut_off_stands};
pub use couple::device_from;
pub use device::Device;
pub use hop::Hop;
pub use layout::{first_beyond, first_misplaced, layout_stands};
pub use tree::{Tree, grow};
pub use ways::Ways;
