//! Reads the signs of a text, one after another.
ghost use Rattle.std.specs.Prelude.{◌≡◌, ◌-◌, ◌^◌, ◌<◌, Some, map, option_map};
ghost use Rattle.circuit.specs.declared.failure.Failure.TheVariants.{Refused};
ghost use Rattle.circuit.specs.declared.refusal.Refusal.TheVariants.{Text};
ghost use Rattle.text.specs.Reading.{view, place, started, said, opened, entered, closed, left, named, kept_as, callable, called, act, between, settle, step, begins, ended, runs, reading, Runs, Follows, Settles};

use crate::program::Circuit;
use crate::row::{Row, reach, span};
use crate::statement::{Brace, Move, Part, Place, next};
use crate::token::Token;
use circuit::{Failure, Gate, Refusal};
use std::alloc::Global;

mod accept;

pub use accept::read_signs;

/// More signs than this are not read.
pub const MOST_SIGNS: usize = 4096;

/// A block that has been read: how many qubits it has, and its gates.
#[derive(Drop)]
pub struct Block {
    size: u8,
    row: Row,
}

/// A brace that is open, and the row before it.
#[derive(Drop)]
pub struct Frame {
    brace: Brace,
    before: Row,
}

/// What has been read of a text. Contracts speak of its `view`, as those of the crates above do, so it has no Model.
#[derive(Drop)]
pub struct Reader {
    heap: Global,
    part: Part,
    braces: Vec<Frame>,
    row: Row,
    /// The qubits that a call has named so far.
    names: Vec<u8>,
    blocks: Vec<Block>,
    /// How many qubits the block has that is open.
    inside: Option<u8>,
    /// Whether a block may come next.
    fresh: bool,
    /// One more than the largest qubit named.
    pub wide: u64,
    /// How many signs had been read when the row last was within the limit.
    pub fits: u64,
}

/// The failure where the sign at the place is refused.
fn refused(at: u64) -> Failure
    ensures { result ≡ Refused (Text at) }
{
    Failure::Refused(Refusal::Text(at))
}

/// The block `k`, if a call of it that has named so many qubits may end. Of the blocks alone, as a call borrows the row too.
fn callable(blocks: &[Block], named: usize, k: u8) -> Option<&Block>
    ensures { option_map (λ b. kept_as b.now) result ≡ callable (map kept_as blocks.now) named k }
{
    blocks
        .get(usize::from(k))
        .filter(|block| named == usize::from(block.size))
}

// The limit and a sign's place are passed, and are no fields: each contract would also say that they stay.
impl Reader {
    fn new(heap: Global) -> Reader
        ensures { view result ≡ begins }
    {
        Reader {
            heap,
            part: Part::Start,
            braces: Vec::new(heap),
            row: Row::new(heap),
            names: Vec::new(heap),
            blocks: Vec::new(heap),
            inside: None,
            fresh: true,
            wide: 0,
            fits: 0,
        }
    }

    pub fn place(&self) -> Place
        ensures { result ≡ place (view self.now) }
    {
        Place {
            room: self.inside.map_or(256, u16::from),
            known: self.blocks.len(),
            fresh: self.fresh,
        }
    }

    /// Has a statement come next, or a block too.
    fn start(&mut self, fresh: bool)
        ensures { view self.new ≡ started fresh (view self.old) }
    {
        self.part = Part::Start;
        self.names.clear();
        self.fresh = fresh;
    }

    fn say(&mut self, limit: u64, gate: Gate) -> Result<(), Failure>
        ensures { Follows result 0 (view self.new) (Some (said limit gate (view self.old))) }
    {
        self.row.push(limit, gate)?;
        self.wide = self.wide.max(reach(gate));
        self.start(false);
        Ok(())
    }

    fn open(&mut self, brace: Brace) -> Result<(), Failure>
        ensures { Follows result 0 (view self.new) (Some (opened brace (view self.old))) }
    {
        let before = std::mem::replace(&mut self.row, Row::new(self.heap));
        self.braces.push(Frame { brace, before })?;
        self.start(false);
        Ok(())
    }

    fn enter(&mut self, size: u8)
        ensures { view self.new ≡ entered size (view self.old) }
    {
        self.inside = Some(size);
        self.start(false);
    }

    /// The end of a block, if one is open.
    fn leave(&mut self, at: u64) -> Result<(), Failure>
        ensures { Follows result at (view self.new) (left (view self.old) (view self.old).inside) }
    {
        let size = self.inside.take().ok_or(refused(at))?;
        let row = std::mem::replace(&mut self.row, Row::new(self.heap));
        self.blocks.push(Block { size, row })?;
        self.wide = 0;
        self.start(true);
        Ok(())
    }

    fn close(&mut self, limit: u64, at: u64) -> Result<(), Failure>
        ensures { Follows result at (view self.new) (closed limit (view self.old)) }
    {
        let Some(Frame { brace, before }) = self.braces.pop() else {
            return self.leave(at);
        };
        let inner = std::mem::replace(&mut self.row, before);
        self.row.append(limit, brace, &inner)?;
        self.start(false);
        Ok(())
    }

    fn name(&mut self, at: u64, k: u8, q: u8) -> Result<(), Failure>
        ensures { Follows result at (view self.new) (named k q (view self.old)) }
    {
        if !self.may_name(k, q) {
            return Err(refused(at));
        }
        self.names.push(q)?;
        self.part = Part::Naming(k);
        Ok(())
    }

    fn call(&mut self, limit: u64, at: u64, k: u8) -> Result<(), Failure>
        ensures { Follows result at (view self.new) (called limit k (view self.old)) }
    {
        let block = callable(&self.blocks, self.names.len(), k).ok_or(refused(at))?;
        self.row.append_renamed(limit, &block.row, &self.names)?;
        self.wide = self.wide.max(span(&self.names));
        self.start(false);
        Ok(())
    }

    fn act(&mut self, limit: u64, at: u64, m: Move) -> Result<(), Failure>
        ensures { Follows result at (view self.new) (act limit (view self.old) m) }
    {
        match m {
            Move::Go(part) => {
                self.part = part;
                Ok(())
            }
            Move::Say(gate) => self.say(limit, gate),
            Move::Open(brace) => self.open(brace),
            Move::Enter(size) => {
                self.enter(size);
                Ok(())
            }
            Move::Close => self.close(limit, at),
            Move::Name(k, q) => self.name(at, k, q),
            Move::Call(k) => self.call(limit, at, k),
            Move::Refuse => Err(refused(at)),
        }
    }

    /// Whether no statement and no brace of statements is open.
    fn is_between(&self) -> bool
        ensures { result ≡ between (view self.now) }
    {
        matches!(self.part, Part::Start) && self.braces.is_empty()
    }

    fn settle(&mut self, at: u64)
        requires { at < 2 ^ 64 - 1 }
        ensures { view self.new ≡ settle at (view self.old) }
    {
        if self.is_between() && self.row.gates.is_some() {
            self.fits = at + 1;
        }
    }

    fn take(&mut self, limit: u64, at: u64, t: Token) -> Result<(), Failure>
        requires { at < 2 ^ 64 - 1 }
        ensures { Follows result at (view self.new) (step limit at (view self.old) t) }
    {
        let m = next(self.place(), self.part, t);
        self.act(limit, at, m)?;
        self.settle(at);
        Ok(())
    }

    /// The reader itself, if nothing is left open where the text ends before the sign `at`.
    fn finish(self, at: u64) -> Result<Reader, Failure>
        ensures { Runs result (ended at (view self)) }
    {
        if self.may_end() {
            Ok(self)
        } else {
            Err(refused(at))
        }
    }

    /// The gates and how many qubits they are about, if they are within the limit.
    pub fn circuit(self) -> Result<Circuit, Failure>
        ensures { Settles (view self) result }
    {
        let Reader {
            row: Row { gates },
            wide,
            fits,
            ..
        } = self;
        Ok(Circuit {
            qubits: wide,
            gates: gates.ok_or(refused(fits))?,
        })
    }
}

/// Reads all of these signs, up to the first that is refused.
fn run(heap: Global, limit: u64, tokens: &[Token]) -> Result<Reader, Failure>
    ensures { Runs result (runs limit begins 0 tokens.now) }
{
    let mut reader = Reader::new(heap);
    for (i, t) in tokens.iter().enumerate() {
        reader.take(limit, i as u64, *t)?;
    }
    Ok(reader)
}

/// What these signs come to, however many gates they say, if there are at most `MOST_SIGNS` of them.
pub fn parse(heap: Global, limit: u64, tokens: &[Token]) -> Result<Reader, Failure>
    ensures { Runs result (reading limit tokens.now) }
{
    if tokens.len() > MOST_SIGNS {
        let _reader = run(heap, limit, &tokens[0..MOST_SIGNS])?;
        return Err(refused(MOST_SIGNS as u64));
    }
    run(heap, limit, tokens)?.finish(tokens.len() as u64)
}
