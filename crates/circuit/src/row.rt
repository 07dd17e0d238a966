//! The rows of a register, by their numbers: qubit 0 is the highest binary digit.
ghost use Rattle.std.specs.Prelude.{◌≡◌, ◌^◌, ◌<◌};
ghost use Rattle.circuit.specs.Refusals.{IsRegister};
ghost use Rattle.circuit.specs.Rows.{row, weight};

use crate::refusal::Refusal;
use crate::register::Register;

impl TryFrom<u64> for Register {
    type Error = Refusal;

    ghost try_from_gives = { λ qubits r. IsRegister qubits r };

    /// Of no qubit and of more than eight none is made.
    fn try_from(qubits: u64) -> Result<Register, Refusal> {
        match qubits {
            1..=8 => Ok(Register {
                qubits: qubits as u8,
            }),
            _ => Err(Refusal::Qubits(0)),
        }
    }
}

impl Register {
    /// How many rows it has.
    pub fn rows(self) -> usize
        ensures { result ≡ 2 ^ self.qubits }
    {
        1 << self.qubits
    }

    /// What a 1 at the qubit adds to a row's number.
    pub(crate) fn weight(self, qubit: u8) -> usize
        requires { qubit < self.qubits }
        ensures { result ≡ weight self.qubits qubit }
    {
        1 << (self.qubits - 1 - qubit)
    }

    /// Whether the row with the number has a 1 at the qubit.
    pub fn has(self, number: usize, qubit: u8) -> bool
        requires { qubit < self.qubits }
        ensures { result ≡ row self.qubits number qubit }
    {
        number >> (self.qubits - 1 - qubit) & 1 == 1
    }
}
