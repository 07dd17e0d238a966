//! Shortest ways between any two places.
ghost use Rattle.std.specs.Prelude.{◌≡◌, ◌<◌};
ghost use Rattle.device.specs.Board.{graph_of};
ghost use Rattle.device.specs.Coupling.{Graph};
ghost use Rattle.device.specs.Distances.{AllGrown, Nearer, TreeFrom, apart, hop_at, onward};

use crate::device::Device;
use crate::hop::Hop;
use crate::tree::grow;
use crate::ways::Ways;
use std::array;

impl Ways {
    /// The hop from b on the shortest way to a, if one leads there.
    fn hop(&self, a: usize, b: usize) -> Option<Hop>
        ensures { result ≡ hop_at self.now a b }
    {
        *self.hops.get(a)?.get(b)?
    }

    /// How far two places are apart: 255, which is farther than any, where no way leads, so that distances compare without a case.
    pub fn distance(&self, a: usize, b: usize) -> u8
        ensures { result ≡ apart self.now a b }
    {
        self.hop(a, b).map_or(u8::MAX, |hop| hop.distance)
    }

    /// The next place on the way from b to a, one step nearer, or a itself from a. Its contract speaks of it where a way leads, so that no caller takes an Option apart; where none does it is 0.
    pub fn toward(&self, a: usize, b: usize) -> u8
        ensures value { result ≡ onward self.now a b }
        ensures nearer { (d : Graph) → AllGrown d self.now → 0 < apart self.now a b → apart self.now a b < 255 → Nearer d self.now a b result }
    {
        self.hop(a, b).map_or(0, |hop| hop.toward)
    }
}

/// The trees from all places.
pub fn all_ways(device: &Device) -> Ways
    ensures { AllGrown (graph_of device.now) result }
{
    let hops = array::from_fn(
        |root|
            ensures { TreeFrom (graph_of device.exit.now) root result }
        {
            if root < device.size {
                grow(device, root).hops
            } else {
                [None; 16]
            }
        },
    );
    Ways { hops }
}
