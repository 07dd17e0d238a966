//! The rules: which gates join, and how a gate goes back past another.
ghost use Rattle.std.specs.Prelude.{◌≡◌};
ghost use Rattle.tidy.specs.Rules.{passed, rule};

use crate::table::{backs, commutes, idle, sum_of_turns, twin};
use circuit::Gate;
use laws::undone;

/// A gate on its way back, and the turn of the whole that it has left behind.
#[derive(Clone, Copy)]
pub struct Carried {
    pub gate: Gate,
    pub turn: u8,
}

/// The gate that two become, the first done first: turns one turn by their eighths together, other twins a turn by none.
pub fn rule(first: Gate, second: Gate) -> Option<Gate>
    ensures { result ≡ rule first second }
{
    if !twin(first, second) {
        return None;
    }
    let eighths = match (first, second) {
        (Gate::Phase { eighths: m, .. }, Gate::Phase { eighths: n, .. }) => sum_of_turns(m, n),
        _ => 0,
    };
    Some(Gate::Phase {
        eighths,
        qubit: second.target(),
    })
}

/// The gate carried back past one more.
pub fn passed(before: Gate, carried: Carried) -> Option<Carried>
    ensures { result ≡ passed before carried }
{
    let Carried { gate, turn } = carried;
    if idle(before) || commutes(before, gate) {
        return Some(carried);
    }
    match gate {
        Gate::Phase { eighths, .. } if backs(before, gate) => Some(Carried {
            gate: undone(gate),
            turn: sum_of_turns(turn, eighths),
        }),
        _ => None,
    }
}
