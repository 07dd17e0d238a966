//! Rows as they are written, qubit 0 first.
ghost use Rattle.std.specs.Prelude.{◌≡◌, IfOk, Some, string_bytes};
ghost use Rattle.circuit.specs.Rows.{row};
ghost use Rattle.message.specs.Answers.{digit, row_text};

use circuit::Register;
use std::alloc::{AllocError, Global};
use std::fmt;

/// The row of a register with the number, shown by its digits.
#[derive(Clone, Copy)]
pub struct Digits {
    pub register: Register,
    pub number: usize,
}

/// How a bit is written: text, since a number would be put into decimals first.
fn digit(bit: bool) -> &'static str
    ensures { result.now ≡ digit bit }
{
    if bit { "1" } else { "0" }
}

impl fmt::Display for Digits {
    ghost output = { λ d. Some (row_text d.register.qubits (row d.register.qubits d.number)) };

    fn fmt<W: fmt::Write>(&self, f: &mut fmt::Formatter<W>) -> fmt::Result {
        for qubit in 0..self.register.qubits {
            f.write_str(digit(self.register.has(self.number, qubit)))?;
        }
        Ok(())
    }
}

/// The digits of the row of a register with the number. A comparison tells rows by their number alone, so register and number come apart.
pub fn show_row(heap: Global, register: Register, number: usize) -> Result<String, AllocError>
    ensures { IfOk result (λ s. string_bytes s ≡ row_text register.qubits (row register.qubits number)) }
{
    Digits { register, number }.to_string(heap)
}
