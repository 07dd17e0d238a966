//! The rules applied: each gate is brought back to the nearest that it joins.
ghost use Rattle.std.specs.Prelude.{◌≡◌, ◌+◌, ◌<◌, ◌≤◌, [], reverse, length, take, drop, IfSome};
ghost use Rattle.tidy.specs.Engine.{inserted, partner, start, swept};

use crate::rules::{Carried, passed, rule};
use crate::table::{idle, reduced, sum_of_turns};
use circuit::Gate;

/// Where a gate's partner stands, what the two become, and the turn of the whole on the way.
#[derive(Clone, Copy)]
pub struct Partner {
    pub at: usize,
    pub gate: Gate,
    pub turn: u8,
}

/// How many gates there are at the front of what was lent, which cannot shrink, and the turn of the whole.
#[derive(Clone, Copy)]
pub struct Outcome {
    pub len: usize,
    pub turn: u8,
}

/// The partner of a gate that comes after those of a circuit.
#[tactic(auto, using(crate::proofs::Walk::partner_back), unfolding(crate::specs::Engine::partner))]
pub fn find(gates: &[Gate], gate: Gate) -> Option<Partner>
    ensures found { result ≡ partner (start gate) (reverse gates.now) }
    ensures below { IfSome result (λ p. p.at < length gates.now) }
{
    let mut carried = Carried { gate, turn: 0 };
    // No `find_map`: what is carried changes from gate to gate.
    for (at, before) in gates.iter().enumerate().rev() {
        if let Some(gate) = rule(*before, carried.gate) {
            return Some(Partner {
                at,
                gate,
                turn: carried.turn,
            });
        }
        carried = passed(*before, carried)?;
    }
    None
}

/// One gate more after the first gates of a circuit.
#[tactic(auto, using(crate::proofs::Walk::put_row))]
pub fn insert(gates: &mut [Gate], done: Outcome, gate: Gate) -> Outcome
    requires { done.len < length gates.old }
    ensures row { reverse (take result.len gates.new) ≡ (inserted done.turn gate (reverse (take done.len gates.old))).0 }
    ensures turn { result.turn ≡ (inserted done.turn gate (reverse (take done.len gates.old))).1 }
    ensures rest { drop (done.len + 1) gates.new ≡ drop (done.len + 1) gates.old }
    ensures few { result.len ≤ done.len + 1 }
{
    if idle(gate) {
        return done;
    }
    let gate = reduced(gate);
    match find(&gates[..done.len], gate) {
        None => {
            gates[done.len] = gate;
            Outcome {
                len: done.len + 1,
                ..done
            }
        }
        Some(Partner { at, gate, turn }) => {
            gates[at] = gate;
            Outcome {
                turn: sum_of_turns(done.turn, turn),
                ..done
            }
        }
    }
}

/// All gates of a circuit, one after the other, the whole turned already: those that are left stand at the front.
#[tactic(auto, unfolding(crate::specs::Engine::swept))]
pub fn sweep(gates: &mut [Gate], turn: u8) -> Outcome
    ensures row { reverse (take result.len gates.new) ≡ (swept turn [] gates.old).0 }
    ensures turn { result.turn ≡ (swept turn [] gates.old).1 }
    ensures few { result.len ≤ length gates.old }
{
    let mut done = Outcome { len: 0, turn };
    // By index, since what is done stands in the same slice, before the gate that is read.
    for i in 0..gates.len() {
        let gate = gates[i];
        done = insert(gates, done, gate);
    }
    done
}
