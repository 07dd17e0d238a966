//! Cuts a text into its signs.
ghost use Rattle.std.specs.Prelude.{◌≡◌, [], ◌++◌, IfOk, OnOk};
ghost use Rattle.text.specs.Cut.{flushed, by_class, cut, Front};
ghost use Rattle.text.specs.Spelling.{Spells, SpellsOne};

use crate::token::{Class, Token, class_of, word};
use std::alloc::{AllocError, Global};

/// Puts the sign of a word, if there is one, at the end.
fn flush(out: &mut Vec<Token>, w: &[u8]) -> Result<(), AllocError>
    ensures { OnOk result (out.new.items ≡ out.old.items ++ flushed w.now) }
{
    if !w.is_empty() {
        out.push(word(w))?;
    }
    Ok(())
}

/// The same, and then that of the byte after it, if it is a mark.
fn put(out: &mut Vec<Token>, w: &[u8], after: Class) -> Result<(), AllocError>
    ensures { OnOk result (out.new.items ≡ out.old.items ++ by_class after (flushed w.now) [] (flushed w.now)) }
{
    flush(out, w)?;
    if let Class::Mark(t) = after {
        out.push(t)?;
    }
    Ok(())
}

/// The signs of a text from its first on: all of them, or more than `most`.
pub fn cut(heap: Global, text: &[u8], most: usize) -> Result<Vec<Token>, AllocError>
    ensures { IfOk result (λ v. Front most (cut [] text.now) v.items) }
{
    let mut out = Vec::new(heap);
    let mut start = 0;
    // By place: each piece of `split_inclusive` would have to be taken apart again from its last byte, a sign or none.
    for (i, b) in text.iter().enumerate() {
        let class = class_of(*b);
        if class != Class::Alphanumeric {
            put(&mut out, &text[start..i], class)?;
            start = i + 1;
            if out.len() > most {
                return Ok(out);
            }
        }
    }
    flush(&mut out, &text[start..])?;
    Ok(out)
}

/// The signs that a text spells.
pub fn tokenize(heap: Global, text: &[u8]) -> Result<Vec<Token>, AllocError>
    ensures { IfOk result (λ v. Spells text.now v.items) }
{
    // No text has more signs.
    cut(heap, text, usize::MAX)
}

/// Every text spells one row of signs, and one only.
pub fn spells_one() -> u8
    ensures { SpellsOne }
{
    0
}
