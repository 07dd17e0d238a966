//! The entry on circuits in numbers.
ghost use Rattle.circuit.specs.Code.{gates_in};
ghost use Rattle.circuit.specs.Refusals.{Checked};
ghost use Rattle.equivalence.specs.Compare.{Compares, refusal_in_numbers, refusal_of_numbers};

use crate::checks::{MOST_GATES, check_length};
use crate::circuits::compare_circuits;
use crate::comparison::Comparison;
use circuit::{Gate, Refusal, Register, check_numbers, decode_in};

/// That no refusal applies to two circuits in numbers before their gates are looked at.
// It is like `Pair::new`, and not one with it: numbers are looked at in place of gates, and the lists are four times as long.
fn check(qubits: u64, c: &[u8], d: &[u8]) -> Result<(), Refusal>
    ensures { Checked (refusal_of_numbers qubits c.now d.now) result }
{
    Register::try_from(qubits)?;
    check_length(0, c.len(), 4)?;
    check_length(1, d.len(), 4)?;
    check_numbers(c)?;
    check_numbers(d)
}

// The parameters are those of the interface on bytes.
/// Whether two circuits in numbers, four a gate, are the same up to a global phase. It allocates nothing.
pub fn compare(qubits: u64, c: &[u8], d: &[u8]) -> Result<Comparison, Refusal>
    ensures { Compares (refusal_in_numbers qubits c.now d.now) qubits (gates_in c.now) (gates_in d.now) result }
{
    check(qubits, c, d)?;
    // Two rooms for the most gates, since nothing is allocated.
    let mut c_room = [Gate::Not(0); MOST_GATES];
    let mut d_room = [Gate::Not(0); MOST_GATES];
    let c_gates = decode_in(&mut c_room, c);
    let d_gates = decode_in(&mut d_room, d);
    compare_circuits(qubits, c_gates, d_gates)
}
