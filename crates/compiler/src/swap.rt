//! Two places of a device changed for one another.
ghost use Rattle.std.specs.Prelude.{◌≡◌, ℕ, ◌<◌, ◌≤◌, length, slice_index};
ghost use Rattle.circuit.specs.Code.{codes};
ghost use Rattle.compiler.specs.Emits.{over};
ghost use Rattle.compiler.specs.Route.{swap_gates};
ghost use Rattle.laws.specs.Rename.{other};

use crate::decomposition::cnot;
use circuit::write;

/// Two places, to be changed for one another.
#[derive(Clone, Copy, PartialEq, Eq, Debug)]
pub struct Swap {
    pub x: u8,
    pub y: u8,
}

impl Swap {
    /// Where what lies at a place lies afterwards.
    #[tactic(auto, using(std::proofs::lemmas::Bool::Decides::nat_tests), unfolding(laws::specs::Rename::other))]
    pub fn moved(self, place: u8) -> u8
        ensures { result ≡ other self.x self.y place }
    {
        if place == self.x {
            self.y
        } else if place == self.y {
            self.x
        } else {
            place
        }
    }

    /// Makes a layout the one afterwards.
    pub fn apply(self, place: &mut [u8])
        ensures { (k : ℕ) → k < length place.new → slice_index place.new k ≡ other self.x self.y (slice_index place.old k) }
    {
        for p in place.iter_mut() {
            *p = self.moved(*p);
        }
    }

    /// Writes three controlled NOTs, which swap two joined places.
    pub fn write(self, room: &mut [u8])
        requires { 12 ≤ length room.old }
        ensures { room.new ≡ over (codes (swap_gates self.x self.y)) room.old }
    {
        write(room, cnot(self.x, self.y));
        write(&mut room[4..], cnot(self.y, self.x));
        write(&mut room[8..], cnot(self.x, self.y));
    }
}
