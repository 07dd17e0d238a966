//! What of one gate, or of two, can be told by looking at them.
ghost use Rattle.std.specs.Prelude.{◌≡◌, ◌+◌, ◌%◌};
ghost use Rattle.tidy.specs.Table.{backs, commutes, hinders, idle, proper, reads, reduced, still, twin};

use circuit::Gate;

/// Two turns together, in eighths: fewer than eight, since eight are a whole turn.
pub fn sum_of_turns(first: u8, second: u8) -> u8
    ensures { result ≡ (first + second) % 8 }
{
    (first % 8 + second % 8) % 8
}

/// Whether it leaves every row where it is.
fn still(gate: Gate) -> bool
    ensures { result ≡ still gate }
{
    matches!(gate, Gate::Phase { .. })
}

/// Whether what it does depends on the qubit.
fn reads(gate: Gate, qubit: u8) -> bool
    ensures { result ≡ reads gate qubit }
{
    match gate {
        Gate::Not(_) => false,
        Gate::Phase { qubit: q, .. } | Gate::Hadamard(q) => qubit == q,
        Gate::ControlledNot { control, .. } => qubit == control,
        Gate::Toffoli { first, second, .. } => qubit == first || qubit == second,
    }
}

/// Whether it flips a qubit that the other goes by.
fn hinders(gate: Gate, other: Gate) -> bool
    ensures { result ≡ hinders gate other }
{
    !still(gate) && reads(other, gate.target())
}

/// Whether the two change places.
pub fn commutes(gate: Gate, other: Gate) -> bool
    ensures { result ≡ commutes gate other }
{
    !hinders(gate, other) && !hinders(other, gate)
}

/// Whether no control is its target.
fn proper(gate: Gate) -> bool
    ensures { result ≡ proper gate }
{
    match gate {
        Gate::ControlledNot { control, target } => control != target,
        Gate::Toffoli {
            first,
            second,
            target,
        } => first != target && second != target,
        _ => true,
    }
}

/// Whether the two are one gate but for eighths and the order of controls.
pub fn twin(first: Gate, second: Gate) -> bool
    ensures { result ≡ twin first second }
{
    let same = match (second, first) {
        (Gate::Phase { qubit: p, .. }, Gate::Phase { qubit: q, .. }) => p == q,
        (
            Gate::Toffoli {
                first: a,
                second: b,
                target: p,
            },
            Gate::Toffoli {
                first: c,
                second: d,
                target: q,
            },
        ) => p == q && (a == c && b == d || a == d && b == c),
        _ => first == second,
    };
    same && proper(second)
}

/// Whether it is a turn by whole eights, which does nothing.
pub fn idle(gate: Gate) -> bool
    ensures { result ≡ idle gate }
{
    matches!(gate, Gate::Phase { eighths, .. } if eighths % 8 == 0)
}

/// With fewer than eight eighths.
pub fn reduced(gate: Gate) -> Gate
    ensures { result ≡ reduced gate }
{
    match gate {
        Gate::Phase { eighths, qubit } => Gate::Phase {
            eighths: eighths % 8,
            qubit,
        },
        _ => gate,
    }
}

/// Whether it flips the qubit that the other turns.
pub fn backs(gate: Gate, other: Gate) -> bool
    ensures { result ≡ backs gate other }
{
    matches!((gate, other), (Gate::Not(p), Gate::Phase { qubit, .. }) if p == qubit)
}
