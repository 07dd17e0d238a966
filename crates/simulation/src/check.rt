//! What is checked before a circuit is played.
ghost use Rattle.std.specs.Prelude.{◌≡◌, IfOk};
ghost use Rattle.circuit.specs.Refusals.{Checked};
ghost use Rattle.simulation.specs.Refuses.{refusal};

use circuit::{Gate, Refusal, Register, check_gates, count_mixes};

/// The register of a circuit that begins from a row, or the first refusal that applies. Like the check of a comparison, but for the row and for one circuit, which may be of any length.
pub fn check(qubits: u64, row: &[bool], gates: &[Gate]) -> Result<Register, Refusal>
    ensures refused { Checked (refusal qubits row.now gates.now) result }
    ensures register { IfOk result (λ register. register.qubits ≡ qubits) }
{
    let register = Register::try_from(qubits)?;
    Refusal::Length(0).unless(row.len() as u64 == qubits)?;
    check_gates(qubits, gates)?;
    let mixes = count_mixes(gates);
    Refusal::Mixes(mixes).unless(mixes <= 60)?;
    Ok(register)
}
