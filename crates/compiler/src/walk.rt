//! One qubit brought next to another, by swaps along wires.
ghost use Rattle.std.specs.Prelude.{◌≡◌, ◌+◌, ◌<◌, ◌≤◌, true, [], length, ◌≢◌, slice_index};
ghost use Rattle.device.specs.Board.{graph_of};
ghost use Rattle.device.specs.Distances.{apart};
ghost use Rattle.device.specs.Layout.{Placed, at};
ghost use Rattle.compiler.specs.Emits.{Emitted};
ghost use Rattle.compiler.specs.Swaps.{Affordable};

use crate::policy::{Policy, View};
use crate::router::Router;
use crate::swap::Swap;
use circuit::Gate;

/// How many swaps are made for one controlled NOT at most.
const SWAPS: usize = 14;

impl<P: Policy> Router<'_, P> {
    /// Whether a swap can be made on the way: its places are joined, and what lay at a and b can still be brought together.
    fn affords(&self, swap: Swap, a: u8, b: u8, made: usize) -> bool
        requires { made ≤ 14 }
        ensures { result ≡ true → Affordable (graph_of self.now.device.now) self.now.ways a b made swap.x swap.y }
    {
        let Swap { x, y } = swap;
        let apart = self
            .ways
            .distance(usize::from(swap.moved(a)), usize::from(swap.moved(b)));
        x != y
            && self.device.joins(usize::from(x), usize::from(y))
            && made + usize::from(apart) <= SWAPS
    }

    /// The next swap on the way of two qubits, which lie at a and b, to each other: the one that is proposed if it can be made, else one step of b straight toward a.
    fn next_swap(&self, later: &[Gate], place: &[u8], a: u8, b: u8, made: usize) -> Swap
        requires inside { (a < self.now.device.now.size) × (b < self.now.device.now.size) }
        requires far { 1 < apart self.now.ways a b }
        requires enough { made + apart self.now.ways a b ≤ 15 }
        ensures { Affordable (graph_of self.now.device.now) self.now.ways a b made result.x result.y }
    {
        let ways = &self.ways;
        let view = View { ways, later, place };
        match self.policy.propose(view, a, b) {
            Some(swap) if self.affords(swap, a, b, made) => swap,
            _ => Swap {
                x: self.ways.toward(usize::from(a), usize::from(b)),
                y: b,
            },
        }
    }

    /// Two qubits are brought together, by fourteen swaps at most; `later` are the gates to come. How many numbers are written.
    // The room is lent on from its next free place, so what writes into it says how much.
    pub fn bring(
        &self,
        later: &[Gate],
        control: usize,
        target: usize,
        place: &mut [u8],
        room: &mut [u8],
    ) -> usize
        requires placed { Placed (length place.old) (graph_of self.now.device.now) (at place.old) }
        requires two { (control < length place.old) × (target < length place.old) × (control ≢ target) }
        requires room { 168 ≤ length room.old }
        ensures most { result ≤ 168 }
        ensures done { Emitted (length place.old) (graph_of self.now.device.now) (at place.old) (at place.new) [] room.old room.new result }
        ensures near { (graph_of self.now.device.now).joined (slice_index place.new control) (slice_index place.new target) ≡ true }
    {
        let mut made = 0;
        // Where the qubits lie ends this, and the count says how much room is used.
        while !self
            .device
            .joins(usize::from(place[control]), usize::from(place[target]))
        {
            let swap = self.next_swap(later, place, place[control], place[target], made);
            swap.write(&mut room[12 * made..]);
            swap.apply(place);
            made += 1;
        }
        12 * made
    }
}
