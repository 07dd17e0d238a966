//! Why nothing comes of a text or a circuit, where memory is asked for.
ghost use Rattle.std.specs.Prelude.{◌≡◌};
ghost use Rattle.circuit.specs.declared.failure.Failure.TheVariants.{Memory, Refused as Turned};

use crate::refusal::Refusal;
use std::alloc::{AllocError, AllocFailed};

#[derive(Clone, Copy, PartialEq, Eq, Debug)]
pub enum Failure {
    /// There is not enough memory.
    Memory,
    Refused(Refusal),
}

// By hand, as a derived `From` has no contract.
impl From<AllocError> for Failure {
    ghost from_gives = { λ _ r. r ≡ Memory };

    fn from(_e: AllocError) -> Failure {
        Failure::Memory
    }
}

impl<T: Drop> From<AllocFailed<T>> for Failure {
    ghost from_gives = { λ _ r. r ≡ Memory };

    fn from(_e: AllocFailed<T>) -> Failure {
        Failure::Memory
    }
}

impl From<Refusal> for Failure {
    ghost from_gives = { λ e r. r ≡ Turned e };

    fn from(e: Refusal) -> Failure {
        Failure::Refused(e)
    }
}
