//! Why lines give no plan.
ghost use Rattle.std.specs.Prelude.{◌≡◌};
ghost use Rattle.job.specs.declared.error.PlanError.TheVariants.{Memory};

use std::alloc::{AllocError, AllocFailed};

#[derive(Drop)]
pub enum PlanError {
    Memory,
    /// The first line that is at fault, counted from 0.
    Line(usize),
    NoDevice,
    NoLayout,
}

// Both by hand: a `From` that a derive writes has no contract, and callers tell which error the `?` makes.
impl From<AllocError> for PlanError {
    ghost from_gives = { λ _ r. r ≡ Memory };

    fn from(_e: AllocError) -> PlanError {
        PlanError::Memory
    }
}

impl<T: Drop> From<AllocFailed<T>> for PlanError {
    ghost from_gives = { λ _ r. r ≡ Memory };

    fn from(_e: AllocFailed<T>) -> PlanError {
        PlanError::Memory
    }
}
