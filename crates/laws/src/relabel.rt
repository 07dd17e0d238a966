//! Gates with other qubits put in.
ghost use Rattle.std.specs.Prelude.{◌≡◌, slice_index};
ghost use Rattle.laws.specs.Rename.{renamed};

use circuit::Gate;

/// The gate with the qubits `names` put in for 0, 1 and so on, all at once; for a qubit without a name 0 is.
pub fn renamed(gate: Gate, names: &[u8]) -> Gate
    ensures { result ≡ renamed (λ q. slice_index names.now q) gate }
{
    // 0 without a name, as in the definition, so that no call can fail.
    let name = |qubit: u8| names.get(usize::from(qubit)).copied().unwrap_or(0);
    match gate {
        Gate::Phase { eighths, qubit } => Gate::Phase {
            eighths,
            qubit: name(qubit),
        },
        Gate::Hadamard(qubit) => Gate::Hadamard(name(qubit)),
        Gate::Not(qubit) => Gate::Not(name(qubit)),
        Gate::ControlledNot { control, target } => Gate::ControlledNot {
            control: name(control),
            target: name(target),
        },
        Gate::Toffoli {
            first,
            second,
            target,
        } => Gate::Toffoli {
            first: name(first),
            second: name(second),
            target: name(target),
        },
    }
}
