//! Which signs a reader would take next, and what it has read.
ghost use Rattle.std.specs.Prelude.{◌≡◌, ℕ, length, is_some};
ghost use Rattle.text.specs.Accept.{accepts, size_of};
ghost use Rattle.text.specs.Program.{has};
ghost use Rattle.text.specs.Reading.{view, named, called, act, complete, step, runs, begins, Runs};

use super::{Reader, callable, run};
use crate::statement::{Move, Part, next};
use crate::token::Token;
use circuit::Failure;
use std::alloc::Global;

impl Reader {
    /// Whether the call of the block `k` may name the qubit `q` next.
    pub(super) fn may_name(&self, k: u8, q: u8) -> bool
        ensures { result ≡ is_some (named k q (view self.now)) }
    {
        self.named() < usize::from(self.size_of(k)) && !self.has_named(q)
    }

    /// Whether the call of the block `k` may end.
    fn may_call(&self, k: u8) -> bool
        ensures { result ≡ is_some (called 0 k (view self.now)) }
    {
        callable(&self.blocks, self.names.len(), k).is_some()
    }

    /// Whether what a sign does can be done.
    fn can(&self, m: Move) -> bool
        ensures { result ≡ is_some (act 0 (view self.now) m) }
    {
        match m {
            Move::Close => !self.braces.is_empty() || self.inside.is_some(),
            Move::Name(k, q) => self.may_name(k, q),
            Move::Call(k) => self.may_call(k),
            Move::Refuse => false,
            _ => true,
        }
    }

    /// Whether this sign may come next.
    pub fn accepts(&self, t: Token) -> bool
        ensures exact { result ≡ accepts (view self.now) t }
        ensures any { (limit at : ℕ) → is_some (step limit at (view self.now) t) ≡ result }
    {
        self.can(next(self.place(), self.part, t))
    }

    /// Whether the text may end here.
    pub fn may_end(&self) -> bool
        ensures { result ≡ complete (view self.now) }
    {
        self.is_between() && self.inside.is_none()
    }

    /// What has been read of the statement that is not over.
    pub fn part(&self) -> Part
        ensures { result ≡ (view self.now).part }
    {
        self.part
    }

    /// How many qubits the block `k` has, 0 if there is none: a call can then name none either.
    pub fn size_of(&self, k: u8) -> u8
        ensures { result ≡ size_of (view self.now) k }
    {
        self.blocks
            .get(usize::from(k))
            .map_or(0, |block| block.size)
    }

    /// How many qubits the call that is open has named.
    pub fn named(&self) -> usize
        ensures { result ≡ length (view self.now).names }
    {
        self.names.len()
    }

    /// Whether the call that is open has named the qubit `q`.
    pub fn has_named(&self, q: u8) -> bool
        ensures { result ≡ has q (view self.now).names }
    {
        self.names.contains(&q)
    }
}

/// A reader after these signs, or the first that it refuses. It keeps no gates.
pub fn read_signs(heap: Global, tokens: &[Token]) -> Result<Reader, Failure>
    ensures { Runs result (runs 0 begins 0 tokens.now) }
{
    run(heap, 0, tokens)
}
