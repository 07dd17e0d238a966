//! Devices made from a table of wires, and asked about their places.
ghost use Rattle.std.specs.Prelude.{◌≡◌, ℕ, ◌*◌, ◌<◌, ◌≤◌, false, length, slice_index_or};
ghost use Rattle.device.specs.Board.{graph_of};
ghost use Rattle.device.specs.Coupling.{graph_in};

use crate::device::Device;
use std::array;

impl Device {
    /// Whether there is a wire from one place to another.
    pub fn joins(&self, a: usize, b: usize) -> bool
        ensures { result ≡ (graph_of self.now).joined a b }
    {
        a < self.size && b < self.size && self.joined[a][b]
    }
}

/// The wires from one place.
fn row(size: usize, joined: &[u8], a: usize) -> [bool; 16]
    requires small { size ≤ 16 }
    requires long { length joined.now ≡ size * size }
    ensures { (b : ℕ) → b < 16 → slice_index_or result b false ≡ (graph_in size joined.now).joined a b }
{
    array::from_fn(|b| a < size && b < size && joined[a * size + b] == 1)
}

/// The device that a table of noughts and ones says, row by row; size and table come apart, as the interface gives them.
pub fn device_from(size: usize, joined: &[u8]) -> Device
    requires small { size ≤ 16 }
    requires long { length joined.now ≡ size * size }
    ensures { graph_of result ≡ graph_in size joined.now }
{
    let mut table = [[false; 16]; 16];
    // With `from_fn` the closure needs three clauses of its own.
    for (a, wires) in table.iter_mut().enumerate() {
        *wires = row(size, joined, a);
    }
    Device {
        size,
        joined: table,
    }
}
