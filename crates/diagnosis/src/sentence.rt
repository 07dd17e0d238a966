//! Faults in words.
ghost use Rattle.std.specs.Prelude.{◌≡◌, List, IfOk, Some, string_bytes};
ghost use Rattle.diagnosis.specs.Faults.{fault_at};
ghost use Rattle.diagnosis.specs.Sentences.{noun, sentence};
ghost use Rattle.text.specs.Spelling.{Spells};

use crate::cause::diagnose;
use crate::fault::Fault;
use std::alloc::{AllocError, Global};
use std::fmt;
use text::Token;

fn noun(n: u16) -> &'static str
    ensures { result.now ≡ noun n }
{
    if n == 1 { "qubit" } else { "qubits" }
}

impl fmt::Display for Fault {
    ghost output = { λ f. Some (sentence f) };

    fn fmt<W: fmt::Write>(&self, f: &mut fmt::Formatter<W>) -> fmt::Result {
        match *self {
            Fault::TooManySigns => write!(f, "a text has at most 4096 signs"),
            Fault::TooManyGates(limit) => write!(
                f,
                "with this statement the text says more than {limit} gates"
            ),
            Fault::EndsTooSoon => write!(f, "the text ends too soon"),
            Fault::NumberTooLarge => write!(f, "a number is at most 255"),
            Fault::NotNext(next) => write!(f, "the next block is {next}"),
            Fault::NoBlock(block) => write!(f, "no block {block} stands before this call"),
            Fault::NoQubit { qubit, qubits } => {
                let noun = noun(qubits);
                write!(
                    f,
                    "there is no qubit {qubit} here: this block has only {qubits} {noun}"
                )
            }
            Fault::Twice(qubit) => write!(f, "a call names qubit {qubit} twice"),
            Fault::TooManyQubits { block, qubits } => {
                let noun = noun(u16::from(qubits));
                write!(f, "block {block} has only {qubits} {noun}")
            }
            Fault::TooFewQubits { block, qubits } => {
                let noun = noun(u16::from(qubits));
                write!(f, "block {block} has {qubits} {noun}")
            }
            Fault::NotOpened => write!(f, "this brace was not opened"),
            Fault::LateBlock => write!(f, "blocks stand before all other statements"),
            Fault::JobLine => write!(
                f,
                "device, joined and lay stand behind the text, from a line that begins with device on"
            ),
            Fault::Unexpected => write!(f, "this cannot stand here"),
        }
    }
}

/// Says why a text is refused at a sign, where more than `limit` gates are not taken.
pub fn explain(heap: Global, text: &[u8], limit: u64, sign: u64) -> Result<String, AllocError>
    ensures { IfOk result (λ s. (ts : List Token) → Spells text.now ts → string_bytes s ≡ sentence (fault_at limit text.now ts sign)) }
{
    let fault = diagnose(heap, text, limit, sign)?;
    fault.to_string(heap)
}
