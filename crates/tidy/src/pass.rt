//! The pass over a circuit: sweeps until nothing more is taken away.
ghost use Rattle.std.specs.Prelude.{◌≡◌, ◌<◌, ◌≤◌, length, take};
ghost use Rattle.tidy.specs.Promise.{Tidied, Tidy};

use crate::engine::{Outcome, sweep};
use circuit::Gate;

/// Sweeps until nothing is taken away: the first gates are then the tidied circuit. A lent slice cannot shrink, so how many they are is told.
pub fn settle(gates: &mut [Gate]) -> Outcome
    ensures done { Tidied result.turn gates.old (take result.len gates.new) }
    ensures tidy { Tidy (take result.len gates.new) }
    ensures few { result.len ≤ length gates.new }
    ensures small { result.turn < 8 }
    ensures again { Tidy gates.old → (take result.len gates.new ≡ gates.old) × (result.turn ≡ 0) }
{
    let mut best = Outcome {
        len: gates.len(),
        turn: 0,
    };
    // A `while` would sweep in two places, before the loop and in it.
    loop {
        let next = sweep(&mut gates[..best.len], best.turn);
        if next.len == best.len {
            return next;
        }
        best = next;
    }
}

/// Tidies a circuit, and says by how many eighths the given one is turned more than what it becomes.
pub fn tidy(gates: &mut Vec<Gate>) -> u8
    ensures done { Tidied result gates.old.items gates.new.items }
    ensures small { result < 8 }
    ensures tidy { Tidy gates.new.items }
    ensures again { Tidy gates.old.items → (gates.new.items ≡ gates.old.items) × (result ≡ 0) }
{
    let outcome = settle(gates.as_mut_slice());
    gates.truncate(outcome.len);
    outcome.turn
}
