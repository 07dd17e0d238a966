//! The circuit that a text says.
ghost use Rattle.text.specs.Program.{AnswersText, SaysOne, RefusesOne, SaysOrRefuses, CallsFall};

use crate::cut::cut;
use crate::reader::{MOST_SIGNS, parse};
use circuit::{Failure, Gate};
use std::alloc::Global;

/// Gates in the order in which they are done, and how many qubits the text names.
#[derive(Drop)]
pub struct Circuit {
    pub qubits: u64,
    pub gates: Vec<Gate>,
}

/// The circuit that a text says, of at most `limit` gates. Only in a text that can be read are the gates counted.
pub fn read(heap: Global, text: &[u8], limit: u64) -> Result<Circuit, Failure>
    ensures { AnswersText limit text.now result }
{
    let tokens = cut(heap, text, MOST_SIGNS)?;
    parse(heap, limit, &tokens)?.circuit()
}

/// No text says two rows of gates.
pub fn says_one() -> u8
    ensures { SaysOne }
{
    0
}

/// A text is refused at one sign only.
pub fn refuses_one() -> u8
    ensures { RefusesOne }
{
    0
}

/// A text says a row of gates, or is refused, and not both.
pub fn says_or_refuses() -> u8
    ensures { SaysOrRefuses }
{
    0
}

/// Each block calls only blocks before it, and says what its statements say after those.
pub fn calls_fall() -> u8
    ensures { CallsFall }
{
    0
}
