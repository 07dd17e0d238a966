//! Two circuits that can be compared, and the scan: row by row, and in a row from the first entry to the last.
ghost use Rattle.std.specs.Prelude.{◌≡◌, ◌+◌, ◌^◌, ◌<◌, IfOk, MatchResult, None};
ghost use Rattle.circuit.specs.Circuit.{mixes};
ghost use Rattle.circuit.specs.Refusals.{Checked};
ghost use Rattle.equivalence.specs.Compare.{Answers, FirstPair, refusal};
ghost use Rattle.equivalence.specs.Scan.{Told};

use crate::checks::check_length;
use crate::comparison::Comparison;
use crate::turn::tell;
use circuit::{Gate, Refusal, Register, check_gates, column_reversed, count_mixes};

/// A circuit, and how many Hadamards it has.
#[derive(Clone, Copy)]
struct Counted<'a> {
    gates: &'a [Gate],
    hadamards: u8,
    ghost is: { hadamards ≡ mixes gates.now },
}

/// Two circuits that no refusal applies to.
#[derive(Clone, Copy)]
pub(crate) struct Pair<'a> {
    register: Register,
    c: Counted<'a>,
    d: Counted<'a>,
    ghost taken: { refusal register.qubits c.gates.now d.gates.now ≡ None },
}

impl<'a> Pair<'a> {
    /// The pair, or the first refusal that applies.
    #[tactic(auto, using(crate::proofs::Refusing::mixes_length, std::proofs::lemmas::Bool::Decides::nat_tests))]
    pub(crate) fn new(qubits: u64, c: &'a [Gate], d: &'a [Gate]) -> Result<Pair<'a>, Refusal>
        ensures refused { Checked (refusal qubits c.now d.now) result }
        ensures same { IfOk result (λ p. (p.register.qubits ≡ qubits) × (p.c.gates.now ≡ c.now) × (p.d.gates.now ≡ d.now)) }
    {
        let register = Register::try_from(qubits)?;
        check_length(0, c.len(), 1)?;
        check_length(1, d.len(), 1)?;
        check_gates(qubits, c)?;
        check_gates(qubits, d)?;
        let c_mixes = count_mixes(c);
        let d_mixes = count_mixes(d);
        Refusal::Mixes(c_mixes + d_mixes).unless(c_mixes + d_mixes <= 60)?;
        Ok(Pair {
            register,
            c: Counted {
                gates: c,
                hadamards: c_mixes as u8,
            },
            d: Counted {
                gates: d,
                hadamards: d_mixes as u8,
            },
        })
    }

    /// Compares them row by row, up to the first that differs.
    pub(crate) fn compare(&self) -> Comparison
        ensures { Answers self.now.register.qubits self.now.c.gates.now self.now.d.gates.now result }
    {
        let rows = self.register.rows();
        let mut told = None;
        for row in 0..rows {
            told = match self.scan_row(row, told) {
                Ok(told) => told,
                Err(from) => return Comparison::Different { row, from },
            };
        }
        Comparison::Alike {
            turn: told.unwrap_or(0),
        }
    }

    /// The turn that is told once one row more is seen, or the first entry that shows a difference. Each circuit has as many roots of two as the other has Hadamards.
    fn scan_row(&self, row: usize, mut told: Option<u8>) -> Result<Option<u8>, usize>
        requires inside { row < 2 ^ self.now.register.qubits }
        requires so_far { Told self.now.register.qubits self.now.c.gates.now self.now.d.gates.now row 0 told }
        ensures { MatchResult result (Told self.now.register.qubits self.now.c.gates.now self.now.d.gates.now (row + 1) 0) (FirstPair self.now.register.qubits self.now.c.gates.now self.now.d.gates.now row) }
    {
        let xs = column_reversed(self.c.gates, self.register, row);
        let ys = column_reversed(self.d.gates, self.register, row);
        let width = self.register.rows();
        let pairs = xs.amplitudes[..width].iter().zip(&ys.amplitudes[..width]);
        for (from, (x, y)) in pairs.enumerate() {
            told = tell(
                from,
                told,
                x.rooted(self.d.hadamards),
                y.rooted(self.c.hadamards),
            )?;
        }
        Ok(told)
    }
}
