//! Rows of gates, kept only up to a limit.
ghost use Rattle.std.specs.Prelude.{◌≡◌, ◌+◌, [], ◌∷◌, ◌++◌, length, Some, OnOk, slice_index};
ghost use Rattle.laws.specs.Undo.{backwards};
ghost use Rattle.laws.specs.Rename.{all_renamed};
ghost use Rattle.text.specs.Program.{repeated, span, reach};
ghost use Rattle.text.specs.Reading.{row_of, put, zero_times, made_of, braced};

use crate::statement::Brace;
use circuit::Gate;
use laws::{renamed, undone};
use std::alloc::{AllocError, Global};

/// One more than the largest qubit that a gate names.
pub fn reach(gate: Gate) -> u64
    ensures { result ≡ reach gate }
{
    let largest = match gate {
        Gate::Phase { qubit, .. } | Gate::Hadamard(qubit) | Gate::Not(qubit) => qubit,
        Gate::ControlledNot { control, target } => control.max(target),
        Gate::Toffoli {
            first,
            second,
            target,
        } => first.max(second).max(target),
    };
    u64::from(largest) + 1
}

/// One more than the largest of these qubits.
pub fn span(qubits: &[u8]) -> u64
    ensures { result ≡ span qubits.now }
{
    qubits.iter().map(|q| u64::from(*q) + 1).max().unwrap_or(0)
}

/// Puts what undoes `inner` at the end of `row`.
fn append_undone(row: &mut Vec<Gate>, inner: &[Gate]) -> Result<(), AllocError>
    ensures { OnOk result (row.new.items ≡ row.old.items ++ backwards inner.now) }
{
    row.extend(inner.iter().rev().map(|gate| undone(*gate)))
}

/// Puts `inner` at the end of `row`, `n` times.
fn append_times(row: &mut Vec<Gate>, inner: &[Gate], n: u8) -> Result<(), AllocError>
    ensures { OnOk result (row.new.items ≡ row.old.items ++ repeated n inner.now) }
{
    for _ in 0..n {
        row.extend_from_slice(inner)?;
    }
    Ok(())
}

/// Puts the gates of a block at the end of `row`, with `names` in the place of the block's qubits.
fn append_renamed(row: &mut Vec<Gate>, block: &[Gate], names: &[u8]) -> Result<(), AllocError>
    ensures { OnOk result (row.new.items ≡ row.old.items ++ all_renamed (λ q. slice_index names.now q) block.now) }
{
    row.extend(block.iter().map(|gate| renamed(*gate, names)))
}

impl Brace {
    /// Whether nothing comes of the row inside.
    fn is_zero(self) -> bool
        ensures { result ≡ zero_times self }
    {
        matches!(self, Brace::Times(0))
    }

    /// How long `row` is with what comes of `inner` at its end.
    #[tactic(auto, using(crate::proofs::Rows::length_made_of))]
    fn length_with(self, row: &[Gate], inner: &[Gate]) -> u128
        ensures { result ≡ length row.now + length (made_of self inner.now) }
    {
        match self {
            Brace::Undo => row.len() as u128 + inner.len() as u128,
            Brace::Times(n) => row.len() as u128 + inner.len() as u128 * u128::from(n),
        }
    }

    fn append(self, row: &mut Vec<Gate>, inner: &[Gate]) -> Result<(), AllocError>
        ensures { OnOk result (row.new.items ≡ row.old.items ++ made_of self inner.now) }
    {
        match self {
            Brace::Undo => append_undone(row, inner),
            Brace::Times(n) => append_times(row, inner, n),
        }
    }
}

/// The gates that statements say, or none if they are more than the limit.
#[derive(Drop)]
pub struct Row {
    pub gates: Option<Vec<Gate>>,
}

impl Row {
    pub fn new(heap: Global) -> Row
        ensures { row_of result ≡ Some [] }
    {
        Row {
            gates: Some(Vec::new(heap)),
        }
    }

    pub fn push(&mut self, limit: u64, gate: Gate) -> Result<(), AllocError>
        ensures { OnOk result (row_of self.new ≡ put limit (λ hs. gate ∷ hs) (row_of self.old) (Some [])) }
    {
        let Some(gates) = &mut self.gates else {
            return Ok(());
        };
        if gates.len() as u64 >= limit {
            self.gates = None;
            return Ok(());
        }
        gates.push(gate)?;
        Ok(())
    }

    // This and `append_renamed` would share a function that takes the step as a closure, whose contract is longer than what they share.
    /// Puts what a pair of braces makes of the row inside at the end.
    #[tactic(auto, using(crate::proofs::Rows::row_lengths))]
    pub fn append(&mut self, limit: u64, brace: Brace, inner: &Row) -> Result<(), AllocError>
        ensures { OnOk result (row_of self.new ≡ braced limit brace (row_of self.old) (row_of inner.now)) }
    {
        if brace.is_zero() {
            return Ok(());
        }
        let Some(gates) = &mut self.gates else {
            return Ok(());
        };
        let Some(inside) = &inner.gates else {
            self.gates = None;
            return Ok(());
        };
        if brace.length_with(gates, inside) > u128::from(limit) {
            self.gates = None;
            return Ok(());
        }
        brace.append(gates, inside)
    }

    /// Puts the row of a block at the end, with `names` in the place of the block's qubits.
    #[tactic(auto, using(crate::proofs::Rows::row_lengths))]
    pub fn append_renamed(
        &mut self,
        limit: u64,
        block: &Row,
        names: &[u8],
    ) -> Result<(), AllocError>
        ensures { OnOk result (row_of self.new ≡ put limit (all_renamed (λ q. slice_index names.now q)) (row_of self.old) (row_of block.now)) }
    {
        let Some(gates) = &mut self.gates else {
            return Ok(());
        };
        let Some(inside) = &block.gates else {
            self.gates = None;
            return Ok(());
        };
        if gates.len().saturating_add(inside.len()) as u64 > limit {
            self.gates = None;
            return Ok(());
        }
        append_renamed(gates, inside, names)
    }
}
