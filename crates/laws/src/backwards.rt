//! The gate that undoes another.
ghost use Rattle.std.specs.Prelude.{◌≡◌};
ghost use Rattle.laws.specs.Undo.{undone};

use circuit::Gate;

/// The gate that undoes it; a Hadamard does so but for a factor of two.
#[tactic(auto, unfolding(crate::specs::Undo::undone))]
pub fn undone(gate: Gate) -> Gate
    ensures { result ≡ undone gate }
{
    match gate {
        Gate::Phase { eighths, qubit } => Gate::Phase {
            eighths: 7 * (eighths % 8) % 8,
            qubit,
        },
        _ => gate,
    }
}
