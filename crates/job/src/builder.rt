//! Takes lines one at a time.
ghost use Rattle.std.specs.Prelude.{◌≡◌, []};
ghost use Rattle.job.specs.Builders.{view, Follows};
ghost use Rattle.job.specs.Plan.{nothing, on_device, on_joined, on_lay, does, says, both, Answers};
ghost use Rattle.text.specs.Cut.{cut};

use crate::error::PlanError;
use crate::grid::Grid;
use crate::numbers::numbers_in;
use crate::plan::Plan;
use std::alloc::Global;
use text::{Token, tokenize};

/// What lines have given so far.
#[derive(Drop)]
pub struct Builder {
    heap: Global,
    device: Option<Grid>,
    layout: Option<Vec<u8>>,
}

// The line's number, where a fault is told, is passed, and is no field: each contract would also say that it stays.
impl Builder {
    pub fn new(heap: Global) -> Builder
        ensures { view result ≡ nothing }
    {
        Builder {
            heap,
            device: None,
            layout: None,
        }
    }

    fn take_device(&mut self, at: usize, numbers: &[u8]) -> Result<(), PlanError>
        ensures { Follows result at (view self.new) (on_device numbers.now (view self.old)) }
    {
        let (None, [size]) = (&self.device, numbers) else {
            return Err(PlanError::Line(at));
        };
        self.device = Some(Grid::new(self.heap, *size)?);
        Ok(())
    }

    fn take_joined(&mut self, at: usize, numbers: &[u8]) -> Result<(), PlanError>
        ensures { Follows result at (view self.new) (on_joined numbers.now (view self.old)) }
    {
        match (&mut self.device, numbers) {
            (Some(grid), &[a, b]) if a < grid.size && b < grid.size => {
                grid.join(a, b);
                Ok(())
            }
            _ => Err(PlanError::Line(at)),
        }
    }

    fn take_layout(&mut self, at: usize, numbers: Vec<u8>) -> Result<(), PlanError>
        ensures { Follows result at (view self.new) (on_lay numbers.items (view self.old)) }
    {
        match self.layout {
            None => {
                self.layout = Some(numbers);
                Ok(())
            }
            Some(_) => Err(PlanError::Line(at)),
        }
    }

    fn take(&mut self, at: usize, word: Token, numbers: Vec<u8>) -> Result<(), PlanError>
        ensures { Follows result at (view self.new) (does word numbers.items (view self.old)) }
    {
        match word {
            Token::Device => self.take_device(at, &numbers),
            Token::Joined => self.take_joined(at, &numbers),
            Token::Lay => self.take_layout(at, numbers),
            _ => Err(PlanError::Line(at)),
        }
    }

    /// Takes the line `at`.
    pub fn take_line(&mut self, at: usize, line: &[u8]) -> Result<(), PlanError>
        ensures { Follows result at (view self.new) (says (cut [] line.now) (view self.old)) }
    {
        let tokens = tokenize(self.heap, line)?;
        let Some((word, rest)) = tokens.split_first() else {
            return Ok(());
        };
        let numbers = numbers_in(self.heap, rest)?.ok_or(PlanError::Line(at))?;
        self.take(at, *word, numbers)
    }

    /// The plan, if both its parts have been given.
    pub fn finish(self) -> Result<Plan, PlanError>
        ensures { Answers result (both (view self).device (view self).layout) }
    {
        Ok(Plan {
            device: self.device.ok_or(PlanError::NoDevice)?,
            layout: self.layout.ok_or(PlanError::NoLayout)?,
        })
    }
}
