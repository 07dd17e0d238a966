//! Comparing two circuits, after the checks.
ghost use Rattle.equivalence.specs.Compare.{Compares, refusal};

use crate::comparison::Comparison;
use crate::pair::Pair;
use circuit::{Gate, Refusal};

// Its parameters are those of the interface on numbers.
/// Whether two circuits are the same up to a global phase, and by how many eighths the second is turned; or the first pair of rows that shows that they are not. At most 8 qubits, 1,024 gates each and 60 Hadamards together.
pub fn compare_circuits(qubits: u64, c: &[Gate], d: &[Gate]) -> Result<Comparison, Refusal>
    ensures { Compares (refusal qubits c.now d.now) qubits c.now d.now result }
{
    Ok(Pair::new(qubits, c, d)?.compare())
}
