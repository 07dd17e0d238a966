//! What routing goes by.
ghost use Rattle.device.specs.Board.{graph_of};
ghost use Rattle.device.specs.Coupling.{Connected};
ghost use Rattle.device.specs.Distances.{AllGrown};

use device::{Device, Ways};

/// A connected device, its shortest ways, and what proposes swaps on it.
// That the layout is one stands in the contracts: it is lent, and a ghost field beside a `&mut` gets no proof.
#[derive(Drop)]
pub struct Router<'a, P> {
    pub device: &'a Device,
    pub ways: Ways,
    pub policy: P,
    ghost joined: { ∥ Connected (graph_of device.now) ∥₁ },
    ghost grown: { ∥ AllGrown (graph_of device.now) ways ∥₁ },
}
