//! The signs before a place of a text, and the reader after them.
ghost use Rattle.std.specs.Prelude.{◌≡◌, take, IfOk};
ghost use Rattle.diagnosis.specs.Front.{Reads};

use circuit::Failure;
use std::alloc::{AllocError, Global};
use text::{Reader, Token, read_signs};

/// The signs before a place, all of them if there are not so many.
pub fn before(signs: &[Token], place: u64) -> &[Token]
    ensures { result.now ≡ take place signs.now }
{
    &signs[..signs.len().min(place as usize)]
}

/// A reader after these signs, if it takes them all.
pub fn reader_after(heap: Global, signs: &[Token]) -> Result<Option<Reader>, AllocError>
    ensures { IfOk result (λ o. Reads signs.now o) }
{
    match read_signs(heap, signs) {
        Ok(reader) => Ok(Some(reader)),
        Err(Failure::Memory) => Err(AllocError),
        Err(Failure::Refused(_)) => Ok(None),
    }
}
