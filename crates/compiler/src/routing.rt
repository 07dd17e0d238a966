//! A circuit without Toffolis brought onto a device, gate by gate.
ghost use Rattle.std.specs.Prelude.{◌+◌, ◌≤◌, [], ◌∷◌, length};
ghost use Rattle.circuit.specs.Circuit.{AllFit};
ghost use Rattle.device.specs.Board.{graph_of};
ghost use Rattle.device.specs.Coupling.{Can, Connected};
ghost use Rattle.device.specs.Layout.{Placed, at};
ghost use Rattle.compiler.specs.Emits.{Emitted, Routable, cost, costs};
ghost use Rattle.compiler.specs.Route.{AllPlain};
ghost use Rattle.laws.specs.Rename.{renamed};

use crate::policy::{LookAhead, Policy};
use crate::router::Router;
use circuit::{Gate, write};
use device::{Device, all_ways};
use laws::renamed;

impl<P: Policy> Router<'_, P> {
    /// The qubits of a gate are brought where the device can do it; `later` are the gates to come. How many numbers are written.
    fn make_way(&self, gate: Gate, later: &[Gate], place: &mut [u8], room: &mut [u8]) -> usize
        requires { Routable (graph_of self.now.device.now) place.old gate room.old }
        ensures most { result + 4 ≤ cost gate }
        ensures done { Emitted (length place.old) (graph_of self.now.device.now) (at place.old) (at place.new) [] room.old room.new result }
        ensures can { Can (graph_of self.now.device.now) (renamed (at place.new) gate) }
    {
        match gate {
            Gate::ControlledNot { control, target } => {
                self.bring(
                    later,
                    usize::from(control),
                    usize::from(target),
                    place,
                    room,
                )
            }
            _ => 0,
        }
    }

    /// One gate, on the places of its qubits. How many numbers are written.
    fn step(&self, gate: Gate, later: &[Gate], place: &mut [u8], room: &mut [u8]) -> usize
        requires { Routable (graph_of self.now.device.now) place.old gate room.old }
        ensures most { result ≤ cost gate }
        ensures done { Emitted (length place.old) (graph_of self.now.device.now) (at place.old) (at place.new) (gate ∷ []) room.old room.new result }
    {
        let k = self.make_way(gate, later, place, room);
        write(&mut room[k..], renamed(gate, place));
        k + 4
    }

    /// A circuit, whose qubits lie at first where `place` says; it says then where they lie at the end. How many numbers are written. This holds whatever the policy proposes.
    fn route(&self, gates: &[Gate], place: &mut [u8], room: &mut [u8]) -> usize
        requires placed { Placed (length place.old) (graph_of self.now.device.now) (at place.old) }
        requires plain { AllPlain gates.now }
        requires fits { AllFit (length place.old) gates.now }
        requires room { costs gates.now ≤ length room.old }
        ensures most { result ≤ costs gates.now }
        ensures done { Emitted (length place.old) (graph_of self.now.device.now) (at place.old) (at place.new) gates.now room.old room.new result }
    {
        let mut k = 0;
        // The room is lent on from its next free place, and a gate's policy sees the gates to come.
        for (i, gate) in gates.iter().enumerate() {
            k += self.step(*gate, &gates[i + 1..], place, &mut room[k..]);
        }
        k
    }
}

/// A circuit without Toffolis brought onto a connected device, by the policy that looks ahead: its qubits lie at first where `place` says, and it says then where they lie at the end. How many numbers are written.
// The clauses are those of `Router::route` and keep their names, which callers know; a record would hide them.
pub fn route(device: &Device, gates: &[Gate], place: &mut [u8], room: &mut [u8]) -> usize
    requires joined { Connected (graph_of device.now) }
    requires placed { Placed (length place.old) (graph_of device.now) (at place.old) }
    requires plain { AllPlain gates.now }
    requires fits { AllFit (length place.old) gates.now }
    requires room { costs gates.now ≤ length room.old }
    ensures most { result ≤ costs gates.now }
    ensures done { Emitted (length place.old) (graph_of device.now) (at place.old) (at place.new) gates.now room.old room.new result }
{
    let router = Router {
        device,
        ways: all_ways(device),
        policy: LookAhead,
    };
    router.route(gates, place, room)
}
