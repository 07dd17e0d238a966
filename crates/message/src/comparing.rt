//! Two texts compared: from their bytes to the line that is printed.
ghost use Rattle.std.specs.Prelude.{◌≡◌, IfOk, string_bytes};
ghost use Rattle.message.specs.Answers.{alike_text, different_text};
ghost use Rattle.message.specs.Compared.{Compared, SideRead, Written, on_side};
ghost use Rattle.message.specs.declared.comparing.CompareError.TheVariants as error;

use crate::rows::Digits;
use circuit::{Failure, Refusal, Register};
use equivalence::{Comparison, compare_circuits};
use std::alloc::{AllocError, Global};
use text::{Circuit, read};

/// Which of two texts.
#[derive(Clone, Copy, PartialEq, Eq, Debug)]
pub enum Side {
    First,
    Second,
}

/// Why two texts are not compared: one list of reasons, since a text's refusal also says which side.
#[derive(Drop)]
pub enum CompareError {
    Memory,
    /// A text cannot be read.
    Text(Side, Refusal),
    /// Both can be read, and not compared.
    Refused(Refusal),
}

// By hand, as a derived `From` has no contract.
impl From<AllocError> for CompareError {
    ghost from_gives = { λ _ r. r ≡ error.Memory };

    fn from(_e: AllocError) -> CompareError {
        CompareError::Memory
    }
}

impl From<Refusal> for CompareError {
    ghost from_gives = { λ f r. r ≡ error.Refused f };

    fn from(refusal: Refusal) -> CompareError {
        CompareError::Refused(refusal)
    }
}

/// The most gates that a text may say to be compared.
const MOST_GATES: u64 = 1024;

/// A failure to read the text of a side.
fn on_side(side: Side, failure: Failure) -> CompareError
    ensures { result ≡ on_side side failure }
{
    match failure {
        Failure::Memory => CompareError::Memory,
        Failure::Refused(refusal) => CompareError::Text(side, refusal),
    }
}

fn read_side(heap: Global, side: Side, text: &[u8]) -> Result<Circuit, CompareError>
    ensures { SideRead side text.now result }
{
    read(heap, text, MOST_GATES).map_err(|failure| on_side(side, failure))
}

fn show_alike(heap: Global, turn: u8) -> Result<String, AllocError>
    ensures { IfOk result (λ s. string_bytes s ≡ alike_text turn) }
{
    format!(in heap; "alike, turn {turn}\n")
}

fn show_different(
    heap: Global,
    register: Register,
    row: usize,
    from: usize,
) -> Result<String, AllocError>
    ensures { IfOk result (λ s. string_bytes s ≡ different_text register.qubits row from) }
{
    let row = Digits {
        register,
        number: row,
    };
    let from = Digits {
        register,
        number: from,
    };
    format!(in heap; "different at {row} from {from}\n")
}

/// The line that tells an answer on a register's qubits, be it `Alike` or not.
fn show_unlike(heap: Global, register: Register, answer: Comparison) -> Result<String, AllocError>
    ensures { IfOk result (λ s. Written register.qubits answer (string_bytes s)) }
{
    match answer {
        Comparison::Alike { turn } => show_alike(heap, turn),
        Comparison::Different { row, from } => show_different(heap, register, row, from),
    }
}

/// The line that tells an answer on a register's qubits.
fn show_answer(heap: Global, register: Register, answer: Comparison) -> Result<String, AllocError>
    ensures { IfOk result (λ s. Written register.qubits answer (string_bytes s)) }
{
    // By let .. else, as the project takes an answer apart; a match alone would do.
    let Comparison::Alike { turn } = answer else {
        return show_unlike(heap, register, answer);
    };
    show_alike(heap, turn)
}

/// Compares two texts, on the qubits of both together: the line that is printed.
pub fn compare_texts(heap: Global, first: &[u8], second: &[u8]) -> Result<String, CompareError>
    ensures { Compared first.now second.now result }
{
    let c = read_side(heap, Side::First, first)?;
    let d = read_side(heap, Side::Second, second)?;
    let qubits = c.qubits.max(d.qubits);
    let register = Register::try_from(qubits)?;
    let answer = compare_circuits(qubits, &c.gates, &d.gates)?;
    Ok(show_answer(heap, register, answer)?)
}
