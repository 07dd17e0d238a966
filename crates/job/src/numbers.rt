//! Rows of numbers in a line.
ghost use Rattle.std.specs.Prelude.{◌≡◌, IfOk};
ghost use Rattle.job.specs.Builders.{items};
ghost use Rattle.job.specs.Plan.{numbers};

use std::alloc::{AllocError, Global};
use text::Token;

/// The numbers that signs are, if all of them are numbers.
pub fn numbers_in(heap: Global, tokens: &[Token]) -> Result<Option<Vec<u8>>, AllocError>
    ensures { IfOk result (λ o. items o ≡ numbers tokens.now) }
{
    let mut out = Vec::new(heap);
    // No `collect` into an Option: its contract does not say that a None comes of a sign that is no number.
    for t in tokens {
        let Token::Number(n) = *t else {
            return Ok(None);
        };
        out.push(n)?;
    }
    Ok(Some(out))
}
