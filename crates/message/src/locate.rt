//! Where a sign stands in a text.
ghost use Rattle.std.specs.Prelude.{◌≡◌, ◌<◌, ◌≤◌, false, length};
ghost use Rattle.message.specs.Where.{Stands, Starts, begins_sign, column_after, in_word, line_after, start_of};

use std::alloc::{AllocError, Global};
use text::{Class, class_of};

/// A place in a text: how many bytes stand before it, and its line and column, counted from 1.
#[derive(Clone, Copy)]
pub struct Position {
    pub byte: usize,
    pub line: usize,
    pub column: usize,
}

/// Whether a byte of a class is part of a word.
pub fn in_word(class: Class) -> bool
    ensures { result ≡ in_word class }
{
    matches!(class, Class::Alphanumeric)
}

/// Whether a sign begins at a byte.
fn begins_sign(text: &[u8], at: usize) -> bool
    requires { at < length text.now }
    ensures { result ≡ begins_sign text.now at }
{
    // Letters and digits by the byte itself: to tell them by its class takes twice as long.
    let here = text[at];
    if here.is_ascii_alphanumeric() {
        at == 0 || !text[at - 1].is_ascii_alphanumeric()
    } else {
        class_of(here) != Class::Blank
    }
}

/// How many bytes stand before a sign.
fn start_of(text: &[u8], sign: u64) -> usize
    ensures exact { result ≡ start_of false sign text.now }
    ensures within { result ≤ length text.now }
{
    let mut starts = (0..text.len()).filter(|at| begins_sign(text, *at));
    starts.nth(sign as usize).unwrap_or(text.len())
}

/// The line of what comes after some bytes.
pub fn line_after(before: &[u8]) -> usize
    ensures { result ≡ line_after 1 before.now }
{
    1 + before.iter().filter(|b| **b == b'\n').count()
}

/// The column of what comes after some bytes.
fn column_after(before: &[u8]) -> usize
    ensures { result ≡ column_after 1 before.now }
{
    1 + before.iter().rev().take_while(|b| **b != b'\n').count()
}

/// Where a sign stands, or where the text ends if it has not so many.
pub fn position_of(text: &[u8], sign: u64) -> Position
    ensures { Stands sign text.now result }
{
    let byte = start_of(text, sign);
    let (before, _) = text.split_at(byte);
    Position {
        byte,
        line: line_after(before),
        column: column_after(before),
    }
}

/// The line that holds a place, with a mark under the place; none if the text is no UTF-8.
pub fn show_place(heap: Global, text: &[u8], at: Position) -> Result<Option<String>, AllocError> {
    let Ok(text) = std::str::from_utf8(text) else {
        return Ok(None);
    };
    let Some(line) = text.lines().nth(at.line.saturating_sub(1)) else {
        return Ok(None);
    };
    let width = at.column.saturating_add(1);
    Ok(Some(format!(in heap; "    {line}\n   {:>width$}\n", "^")?))
}

/// As many signs stand before a sign as its number says.
#[tactic(auto, using(crate::proofs::Wherein::starts))]
pub fn start_stands() -> u8
    ensures { Starts }
{
    0
}
