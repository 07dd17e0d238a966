//! What could stand at a sign of a text.
ghost use Rattle.std.specs.Prelude.{◌≡◌, ◌++◌, List, take, IfOk, filter};
ghost use Rattle.diagnosis.specs.Front.{ReadsFew};
ghost use Rattle.diagnosis.specs.Standing.{CouldEnd, CouldStand, numbers, words};
ghost use Rattle.text.specs.Accept.{accepts};
ghost use Rattle.text.specs.Reading.{complete, view};
ghost use Rattle.text.specs.Spelling.{Spells};

use crate::front::{before, reader_after};
use std::alloc::{AllocError, Global};
use text::{MOST_SIGNS, Reader, Token, tokenize};

/// Every sign that a text can have. A list of its own, since the words of the language are a part of it alone.
fn every_sign(heap: Global) -> Result<Vec<Token>, AllocError>
    ensures { IfOk result (λ v. v.items ≡ words ++ numbers 256) }
{
    let mut signs = vec![in heap;
        Token::Turn,
        Token::Of,
        Token::Mix,
        Token::Flip,
        Token::If,
        Token::Device,
        Token::Joined,
        Token::Lay,
        Token::Undo,
        Token::Times,
        Token::Block,
        Token::Call,
        Token::On,
        Token::Open,
        Token::Close,
        Token::Semicolon,
        Token::Other,
    ]?;
    signs.extend((0..256u16).map(|n| Token::Number(n as u8)))?;
    Ok(signs)
}

/// Those of these signs that a reader would take next.
fn accepted(heap: Global, reader: &Reader, signs: &[Token]) -> Result<Vec<Token>, AllocError>
    ensures { IfOk result (λ v. v.items ≡ filter (accepts (view reader.now)) signs.now) }
{
    signs
        .iter()
        .copied()
        .filter(|t| reader.accepts(*t))
        .collect(heap)
}

/// A reader of the signs before a place, if they are at most `most` and it takes them all.
fn reader_before(
    heap: Global,
    text: &[u8],
    place: u64,
    most: usize,
) -> Result<Option<Reader>, AllocError>
    ensures { IfOk result (λ o. (ts : List Token) → Spells text.now ts → ReadsFew most (take place ts) o) }
{
    let signs = tokenize(heap, text)?;
    let front = before(&signs, place);
    if front.len() > most {
        return Ok(None);
    }
    reader_after(heap, front)
}

/// All signs that could stand at a place of a text.
pub fn could_stand(heap: Global, text: &[u8], sign: u64) -> Result<Vec<Token>, AllocError>
    ensures { IfOk result (λ v. CouldStand text.now sign v.items) }
{
    match reader_before(heap, text, sign, MOST_SIGNS - 1)? {
        Some(reader) => {
            let every = every_sign(heap)?;
            accepted(heap, &reader, &every)
        }
        None => Ok(Vec::new(heap)),
    }
}

/// Whether a text could end before a place.
pub fn could_end(heap: Global, text: &[u8], sign: u64) -> Result<bool, AllocError>
    ensures { IfOk result (λ b. CouldEnd text.now sign b) }
{
    let reader = reader_before(heap, text, sign, MOST_SIGNS)?;
    Ok(reader.is_some_and(
        |reader| -> bool
            ensures { result ≡ complete (view reader) }
        { reader.may_end() },
    ))
}
