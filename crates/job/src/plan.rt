//! The device and the layout of a job.
ghost use Rattle.job.specs.Plan.{plan_of, Answers};

use crate::builder::Builder;
use crate::error::PlanError;
use crate::grid::Grid;
use std::alloc::Global;

/// A device, and the place of each qubit.
#[derive(Drop)]
pub struct Plan {
    pub device: Grid,
    pub layout: Vec<u8>,
}

/// Reads the lines behind the text of a job.
pub fn read_plan(heap: Global, lines: &[u8]) -> Result<Plan, PlanError>
    ensures { Answers result (plan_of lines.now) }
{
    let mut builder = Builder::new(heap);
    for (at, line) in lines.split(|b| *b == b'\n').enumerate() {
        builder.take_line(at, line)?;
    }
    builder.finish()
}
