//! The gates of a circuit.
ghost use Rattle.std.specs.Prelude.{◌≡◌};
ghost use Rattle.circuit.specs.Circuit.{fits, mixed, target};

#[derive(Clone, Copy, PartialEq, Eq, Debug)]
pub enum Gate {
    /// A turn of the qubit by so many eighths: T to that power.
    Phase { eighths: u8, qubit: u8 },
    Hadamard(u8),
    Not(u8),
    ControlledNot { control: u8, target: u8 },
    Toffoli { first: u8, second: u8, target: u8 },
}

impl Gate {
    /// The qubit that it acts on, its controls apart.
    pub fn target(self) -> u8
        ensures { result ≡ target self }
    {
        match self {
            Gate::Phase { qubit: target, .. }
            | Gate::Hadamard(target)
            | Gate::Not(target)
            | Gate::ControlledNot { target, .. }
            | Gate::Toffoli { target, .. } => target,
        }
    }

    /// How many Hadamards it counts for.
    pub fn mixed(self) -> u8
        ensures { result ≡ mixed self }
    {
        u8::from(matches!(self, Gate::Hadamard(_)))
    }

    /// Whether it is about different qubits, all below a number.
    pub fn fits(self, qubits: u64) -> bool
        ensures { result ≡ fits qubits self }
    {
        let there = |qubit: u8| u64::from(qubit) < qubits;
        match self {
            Gate::Phase { qubit, .. } | Gate::Hadamard(qubit) | Gate::Not(qubit) => there(qubit),
            Gate::ControlledNot { control, target } => {
                there(control) && there(target) && control != target
            }
            Gate::Toffoli {
                first,
                second,
                target,
            } => {
                there(first)
                    && there(second)
                    && there(target)
                    && first != second
                    && first != target
                    && second != target
            }
        }
    }
}
