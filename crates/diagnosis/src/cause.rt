//! Finds why a text is refused. A text and a sign come apart, as callers hold them.
ghost use Rattle.std.specs.Prelude.{◌≡◌, false, not, List, IfOk};
ghost use Rattle.diagnosis.specs.Faults.{digits_from, fault_next, fault_of, misnamed, too_large, unbegun};
ghost use Rattle.diagnosis.specs.Meaning.{Diagnosed};
ghost use Rattle.message.specs.Where.{in_word};
ghost use Rattle.text.specs.Reading.{view};
ghost use Rattle.text.specs.Spelling.{Spells, class, digit};

use crate::fault::Fault;
use crate::front::{before, reader_after};
use message::{in_word, position_of};
use std::alloc::{AllocError, Global};
use text::{MOST_SIGNS, Part, Reader, Token, class_of, tokenize};

/// What is wrong with a sign with which no statement begins.
fn unbegun(t: Token) -> Fault
    ensures { result ≡ unbegun t }
{
    match t {
        Token::Block => Fault::LateBlock,
        Token::Close => Fault::NotOpened,
        Token::Device | Token::Joined | Token::Lay => Fault::JobLine,
        _ => Fault::Unexpected,
    }
}

/// What is wrong with a qubit that a call of the block `k` names.
fn misnamed(reader: &Reader, k: u8, qubit: u8) -> Fault
    ensures { result ≡ misnamed (view reader.now) k qubit }
{
    let qubits = reader.place().room;
    if u16::from(qubit) >= qubits {
        return Fault::NoQubit { qubit, qubits };
    }
    let size = reader.size_of(k);
    if reader.named() >= usize::from(size) {
        return Fault::TooManyQubits {
            block: k,
            qubits: size,
        };
    }
    Fault::Twice(qubit)
}

/// What is wrong with a sign that a reader does not take.
fn fault_of(reader: &Reader, t: Token) -> Fault
    ensures { result ≡ fault_of (view reader.now) t }
{
    match (reader.part(), t) {
        (Part::Start, _) => unbegun(t),
        (
            Part::TurnQubit(_)
            | Part::MixQubit
            | Part::FlipQubit
            | Part::FlipIf(_)
            | Part::FlipTwo(_, _),
            Token::Number(qubit),
        ) => Fault::NoQubit {
            qubit,
            qubits: reader.place().room,
        },
        (Part::CallBlock, Token::Number(k)) => Fault::NoBlock(k),
        (Part::Naming(k), Token::Semicolon) => Fault::TooFewQubits {
            block: k,
            qubits: reader.size_of(k),
        },
        (Part::Naming(k), Token::Number(q)) => misnamed(reader, k, q),
        (Part::BlockNumber, Token::Number(_)) => Fault::NotNext(reader.place().known),
        _ => Fault::Unexpected,
    }
}

fn is_digit(b: u8) -> bool
    ensures { result ≡ digit b }
{
    b.is_ascii_digit()
}

/// Whether a byte ends a word before it.
fn ends_word(b: u8) -> bool
    ensures { result ≡ not (in_word (class b)) }
{
    !in_word(class_of(b))
}

/// Whether a word of digits alone begins these bytes.
fn is_number(bytes: &[u8]) -> bool
    ensures { result ≡ digits_from false bytes.now }
{
    let after = bytes.iter().find(|b| !is_digit(**b));
    bytes.first().copied().is_some_and(is_digit) && after.copied().is_none_or(ends_word)
}

/// Whether a sign that is no number is written in digits alone.
fn is_too_large(text: &[u8], sign: u64, t: Token) -> bool
    ensures { result ≡ too_large text.now sign t }
{
    // Only then is the sign's place sought, which goes over the text.
    t == Token::Other
        && {
            let start = position_of(text, sign).byte.min(text.len());
            is_number(&text[start..])
        }
}

/// Why a text is refused at the sign `t`, if a reader has read what stands before.
fn fault_next(reader: &Reader, limit: u64, large: bool, t: Token) -> Fault
    ensures { result ≡ fault_next limit large (view reader.now) t }
{
    if reader.accepts(t) {
        return Fault::TooManyGates(limit);
    }
    if large {
        return Fault::NumberTooLarge;
    }
    fault_of(reader, t)
}

/// Why a text is refused at a sign, where more than `limit` gates are not taken.
pub fn diagnose(heap: Global, text: &[u8], limit: u64, sign: u64) -> Result<Fault, AllocError>
    ensures { IfOk result (λ f. (ts : List Token) → Spells text.now ts → Diagnosed limit text.now ts sign f) }
{
    let signs = tokenize(heap, text)?;
    if sign >= signs.len() as u64 {
        return Ok(Fault::EndsTooSoon);
    }
    if sign >= MOST_SIGNS as u64 {
        return Ok(Fault::TooManySigns);
    }
    let t = signs[sign as usize];
    // By match, as a closure for the reader would hold all of limit, text, sign and t: no plainer.
    match reader_after(heap, before(&signs, sign))? {
        Some(reader) => Ok(fault_next(&reader, limit, is_too_large(text, sign, t), t)),
        None => Ok(Fault::Unexpected),
    }
}
