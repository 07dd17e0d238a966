//! Why a text is refused.

/// What is wrong at the sign where a text is refused.
#[derive(Clone, Copy, PartialEq, Eq, Debug)]
pub enum Fault {
    /// The text has more than 4096 signs, and nothing is wrong before.
    TooManySigns,
    /// The text can be read, and says more gates than this.
    TooManyGates(u64),
    EndsTooSoon,
    /// A number above 255.
    NumberTooLarge,
    /// The next block has this number.
    NotNext(usize),
    /// No block with this number stands before.
    NoBlock(u8),
    /// The block has only so many qubits, and not this one.
    NoQubit { qubit: u8, qubits: u16 },
    /// A call names this qubit twice.
    Twice(u8),
    /// A call names more qubits than the block has.
    TooManyQubits { block: u8, qubits: u8 },
    /// A call names fewer qubits than the block has.
    TooFewQubits { block: u8, qubits: u8 },
    /// A closing brace that was not opened.
    NotOpened,
    /// A block after other statements, or inside of braces.
    LateBlock,
    /// A word of the lines behind a job's text.
    JobLine,
    Unexpected,
}
