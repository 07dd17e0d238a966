//! Makes and joins the places of a device.
ghost use Rattle.std.specs.Prelude.{◌≡◌, ◌<◌, IfOk};
ghost use Rattle.job.specs.Builders.{table};
ghost use Rattle.job.specs.Plan.{apart, wired};

use crate::grid::Grid;
use std::alloc::{AllocError, Global};

impl Grid {
    /// So many places, none joined.
    pub(crate) fn new(heap: Global, size: u8) -> Result<Grid, AllocError>
        ensures { IfOk result (λ g. table g ≡ apart size) }
    {
        let joined = vec![in heap; 0; usize::from(size) * usize::from(size)]?;
        Ok(Grid { size, joined })
    }

    /// Joins two places, both ways.
    pub(crate) fn join(&mut self, a: u8, b: u8)
        requires first { a < self.old.size }
        requires second { b < self.old.size }
        ensures { table self.new ≡ wired a b (table self.old) }
    {
        let n = usize::from(self.size);
        self.joined[usize::from(a) * n + usize::from(b)] = 1;
        self.joined[usize::from(b) * n + usize::from(a)] = 1;
    }
}
