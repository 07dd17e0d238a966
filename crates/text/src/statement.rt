//! Statements and blocks, sign by sign: what may come next, and what it does.
ghost use Rattle.std.specs.Prelude.{◌≡◌, nat_lt};
ghost use Rattle.text.specs.declared.token.Token.TheVariants.{Number};
ghost use Rattle.text.specs.Move.{begun, moved};

use crate::token::Token;
use circuit::Gate;

/// What has been read of the statement that is not over.
#[derive(Clone, Copy, PartialEq, Eq, Debug)]
pub enum Part {
    Start,
    TurnBy,
    TurnOf(u8),
    TurnQubit(u8),
    MixQubit,
    FlipQubit,
    FlipMore(u8),
    FlipIf(u8),
    /// The control, then the target.
    FlipTwo(u8, u8),
    Ends(Gate),
    UndoOpens,
    TimesWord(u8),
    TimesOpens(u8),
    CallBlock,
    CallOn(u8),
    Naming(u8),
    BlockNumber,
    BlockOf,
    BlockSize,
    BlockOpens(u8),
}

/// What a pair of braces does with the row inside.
#[derive(Clone, Copy, PartialEq, Eq, Debug)]
pub enum Brace {
    Undo,
    Times(u8),
}

/// What one more sign does. A refusal is one of the moves, as in `moved`: as a None, it would put each other move in a Some.
#[derive(Clone, Copy, PartialEq, Eq, Debug)]
pub enum Move {
    Go(Part),
    Say(Gate),
    Open(Brace),
    /// Begins a block of so many qubits.
    Enter(u8),
    Close,
    /// One more qubit of a call of this block.
    Name(u8, u8),
    Call(u8),
    Refuse,
}

/// Where a statement stands: how many qubits there are, how many blocks can be called, and whether one more block may come.
#[derive(Clone, Copy, PartialEq, Eq, Debug)]
pub struct Place {
    pub room: u16,
    pub known: usize,
    pub fresh: bool,
}

fn begin(place: Place, token: Token) -> Move
    ensures { result ≡ begun place token }
{
    match token {
        Token::Turn => Move::Go(Part::TurnBy),
        Token::Mix => Move::Go(Part::MixQubit),
        Token::Flip => Move::Go(Part::FlipQubit),
        Token::Undo => Move::Go(Part::UndoOpens),
        Token::Number(n) => Move::Go(Part::TimesWord(n)),
        Token::Call => Move::Go(Part::CallBlock),
        Token::Block if place.fresh => Move::Go(Part::BlockNumber),
        Token::Close => Move::Close,
        _ => Move::Refuse,
    }
}

impl Place {
    /// Whether there is the qubit `q`.
    fn has(self, q: u8) -> bool
        ensures { result ≡ nat_lt q self.room }
    {
        u16::from(q) < self.room
    }
}

/// What the number `n` does where the part of a statement has been read.
fn take_number(place: Place, part: Part, n: u8) -> Move
    ensures { result ≡ moved place part (Number n) }
{
    match part {
        Part::Start => begin(place, Token::Number(n)),
        Part::TurnBy => Move::Go(Part::TurnOf(n)),
        Part::TurnQubit(eighths) if place.has(n) => Move::Go(Part::Ends(Gate::Phase {
            eighths,
            qubit: n,
        })),
        Part::MixQubit if place.has(n) => Move::Go(Part::Ends(Gate::Hadamard(n))),
        Part::FlipQubit if place.has(n) => Move::Go(Part::FlipMore(n)),
        Part::FlipIf(target) if place.has(n) => Move::Go(Part::FlipTwo(n, target)),
        Part::FlipTwo(first, target) if place.has(n) => Move::Go(Part::Ends(Gate::Toffoli {
            first,
            second: n,
            target,
        })),
        Part::CallBlock if usize::from(n) < place.known => Move::Go(Part::CallOn(n)),
        Part::Naming(k) if place.has(n) => Move::Name(k, n),
        Part::BlockNumber if usize::from(n) == place.known => Move::Go(Part::BlockOf),
        Part::BlockSize => Move::Go(Part::BlockOpens(n)),
        _ => Move::Refuse,
    }
}

/// What the sign does where the part of a statement has been read.
pub fn next(place: Place, part: Part, token: Token) -> Move
    ensures { result ≡ moved place part token }
{
    match (part, token) {
        (_, Token::Number(n)) => take_number(place, part, n),
        (Part::Start, _) => begin(place, token),
        (Part::TurnOf(eighths), Token::Of) => Move::Go(Part::TurnQubit(eighths)),
        (Part::FlipMore(target), Token::Semicolon) => Move::Say(Gate::Not(target)),
        (Part::FlipMore(target), Token::If) => Move::Go(Part::FlipIf(target)),
        (Part::FlipTwo(control, target), Token::Semicolon) => Move::Say(Gate::ControlledNot {
            control,
            target,
        }),
        (Part::Ends(gate), Token::Semicolon) => Move::Say(gate),
        (Part::UndoOpens, Token::Open) => Move::Open(Brace::Undo),
        (Part::TimesWord(n), Token::Times) => Move::Go(Part::TimesOpens(n)),
        (Part::TimesOpens(n), Token::Open) => Move::Open(Brace::Times(n)),
        (Part::CallOn(k), Token::On) => Move::Go(Part::Naming(k)),
        (Part::Naming(k), Token::Semicolon) => Move::Call(k),
        (Part::BlockOf, Token::Of) => Move::Go(Part::BlockSize),
        (Part::BlockOpens(n), Token::Open) => Move::Enter(n),
        _ => Move::Refuse,
    }
}
