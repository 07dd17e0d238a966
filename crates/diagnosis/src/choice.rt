//! What could stand at a sign, in words.
use crate::expect::{could_end, could_stand};
use std::alloc::{AllocError, Global};
use text::Token;

/// How a sign is shown, if it is a word or a mark.
// The words stand here once more, in the quotes in which they are shown.
fn spelled(t: Token) -> Option<&'static str> {
    match t {
        Token::Turn => Some("`turn`"),
        Token::Of => Some("`of`"),
        Token::Mix => Some("`mix`"),
        Token::Flip => Some("`flip`"),
        Token::If => Some("`if`"),
        Token::Device => Some("`device`"),
        Token::Joined => Some("`joined`"),
        Token::Lay => Some("`lay`"),
        Token::Undo => Some("`undo`"),
        Token::Times => Some("`times`"),
        Token::Block => Some("`block`"),
        Token::Call => Some("`call`"),
        Token::On => Some("`on`"),
        Token::Open => Some("`{`"),
        Token::Close => Some("`}`"),
        Token::Semicolon => Some("`;`"),
        Token::Number(_) | Token::Other => None,
    }
}

fn put_words(heap: Global, signs: &[Token], items: &mut Vec<String>) -> Result<(), AllocError> {
    for word in signs.iter().filter_map(|t| spelled(*t)) {
        items.push(String::from_str(heap, word)?)?;
    }
    Ok(())
}

/// A run of numbers, the last one included.
fn run(heap: Global, first: u8, last: u8) -> Result<String, AllocError> {
    if first == last {
        format!(in heap; "the number {first}")
    } else {
        format!(in heap; "a number from {first} to {last}")
    }
}

fn number(t: Token) -> Option<u8> {
    match t {
        Token::Number(n) => Some(n),
        _ => None,
    }
}

fn put_numbers(heap: Global, signs: &[Token], items: &mut Vec<String>) -> Result<(), AllocError> {
    let numbers: Vec<u8> = signs.iter().filter_map(|t| number(*t)).collect(heap)?;
    for next in numbers.chunk_by(|a, b| a.checked_add(1) == Some(*b)) {
        if let (Some(first), Some(last)) = (next.first(), next.last()) {
            items.push(run(heap, *first, *last)?)?;
        }
    }
    Ok(())
}

/// These, with commas and a last `or` between them.
fn joined(heap: Global, items: &[String]) -> Result<String, AllocError> {
    let mut out = String::new(heap);
    // By number: what stands before an item goes by whether it is the first or the last.
    for (i, item) in items.iter().enumerate() {
        if i > 0 {
            out.push_str(if i + 1 < items.len() { ", " } else { " or " })?;
        }
        out.push_str(item)?;
    }
    Ok(out)
}

/// A line that says which signs could stand somewhere, and whether the text could end there.
pub fn show_choice(heap: Global, signs: &[Token], end: bool) -> Result<String, AllocError> {
    let mut items = Vec::new(heap);
    put_words(heap, signs, &mut items)?;
    put_numbers(heap, signs, &mut items)?;
    if items.is_empty() {
        let line = if end {
            "the text could end here"
        } else {
            "nothing could stand here"
        };
        return String::from_str(heap, line);
    }
    let list = joined(heap, &items)?;
    if end {
        format!(in heap; "here could stand: {list}; or the text could end here")
    } else {
        format!(in heap; "here could stand: {list}")
    }
}

/// The line of what could stand at a sign of a text.
pub fn offer(heap: Global, text: &[u8], sign: u64) -> Result<String, AllocError> {
    let signs = could_stand(heap, text, sign)?;
    let end = could_end(heap, text, sign)?;
    show_choice(heap, &signs, end)
}
