//! A circuit played from a row, and its amplitudes as text.
ghost use Rattle.std.specs.Prelude.{◌≡◌, ◌^◌, Some, slice_index_or};
ghost use Rattle.amplitude.specs.Ring.{nought};
ghost use Rattle.simulation.specs.Playing.{is_nought, lines};
ghost use Rattle.simulation.specs.Refuses.{Plays};

use crate::check::check;
use crate::start::number_of;
use amplitude::Amplitude;
use circuit::{Failure, Gate, StateVector, column, count_mixes};
use message::Digits;
use std::alloc::Global;
use std::fmt;

fn is_zero(a: Amplitude) -> bool
    ensures { result ≡ is_nought a }
{
    a == Amplitude::ZERO
}

/// The amplitudes of a state, a line for each that is not 0, in the order of their rows.
#[derive(Clone, Copy)]
struct Lines<'a>(&'a StateVector);

impl fmt::Display for Lines<'_> {
    ghost output = { λ l. Some (lines l.0.now.register.qubits (λ at. slice_index_or l.0.now.amplitudes at nought) (2 ^ l.0.now.register.qubits)) };

    fn fmt<W: fmt::Write>(&self, f: &mut fmt::Formatter<W>) -> fmt::Result {
        let register = self.0.register;
        let amplitudes = &self.0.amplitudes[..register.rows()];
        for (number, amplitude) in amplitudes.iter().enumerate() {
            if !is_zero(*amplitude) {
                let row = Digits { register, number };
                writeln!(f, "{row}: {amplitude}")?;
            }
        }
        Ok(())
    }
}

/// The amplitudes that the gates give from a row, a line for each that is not 0, and how many Hadamards there are. At most 8 qubits and 60 Hadamards.
pub fn show_amplitudes(
    heap: Global,
    qubits: u64,
    row: &[bool],
    gates: &[Gate],
) -> Result<String, Failure>
    ensures { Plays qubits row.now gates.now result }
{
    let register = check(qubits, row, gates)?;
    let state = column(gates, register, number_of(row));
    let lines = Lines(&state);
    let mixes = count_mixes(gates);
    Ok(format!(in heap; "{lines}with {mixes} mixes\n")?)
}
