//! Registers: so many qubits.
ghost use Rattle.std.specs.Prelude.{◌≤◌};

/// Up to eight qubits, as many as have their states kept exactly.
#[derive(Clone, Copy, PartialEq, Eq, Debug)]
pub struct Register {
    pub qubits: u8,
    ghost few: { qubits ≤ 8 },
}
