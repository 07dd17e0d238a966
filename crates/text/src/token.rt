//! Signs, and how each is spelled.
ghost use Rattle.std.specs.Prelude.{◌≡◌, option_map};
ghost use Rattle.std.specs.List.{find};
ghost use Rattle.std.specs.Str.{bytes_eq};
ghost use Rattle.text.specs.Cut.{one_more};
ghost use Rattle.text.specs.Spelling.{class, number_of, word_of};

/// A sign of a text: a word of the language, a number, a mark, or anything else.
#[derive(Clone, Copy, PartialEq, Eq, Debug)]
pub enum Token {
    Turn,
    Of,
    Mix,
    Flip,
    If,
    Device,
    Joined,
    Lay,
    Undo,
    Times,
    Block,
    Call,
    On,
    Number(u8),
    Open,
    Close,
    Semicolon,
    Other,
}

/// What a byte is to the signs: a part of a word, nothing, or a sign of its own.
#[derive(Clone, Copy, PartialEq, Eq, Debug)]
pub enum Class {
    Alphanumeric,
    Blank,
    Mark(Token),
}

pub fn class_of(b: u8) -> Class
    ensures { result ≡ class b }
{
    match b {
        b' ' | b'\t' | b'\n' | b'\r' => Class::Blank,
        b'0'..=b'9' | b'A'..=b'Z' | b'a'..=b'z' => Class::Alphanumeric,
        b';' => Class::Mark(Token::Semicolon),
        b'{' => Class::Mark(Token::Open),
        b'}' => Class::Mark(Token::Close),
        _ => Class::Mark(Token::Other),
    }
}

/// The number `n` with one more digit, up to 255.
fn one_more(n: u8, b: u8) -> Option<u8>
    ensures { result ≡ one_more n b }
{
    if !b.is_ascii_digit() {
        return None;
    }
    n.checked_mul(10)?.checked_add(b - b'0')
}

/// A number up to 255, of digits alone.
fn number(w: &[u8]) -> Token
    ensures { result ≡ number_of w.now }
{
    // `parse` would take a `+` before the digits too.
    w.iter()
        .try_fold(0, |n, b| one_more(n, *b))
        .map_or(Token::Other, Token::Number)
}

/// The words of the language, each with the sign that it is.
const WORDS: [(&[u8], Token); 13] = [
    (b"turn", Token::Turn),
    (b"of", Token::Of),
    (b"mix", Token::Mix),
    (b"flip", Token::Flip),
    (b"if", Token::If),
    (b"device", Token::Device),
    (b"joined", Token::Joined),
    (b"lay", Token::Lay),
    (b"undo", Token::Undo),
    (b"times", Token::Times),
    (b"block", Token::Block),
    (b"call", Token::Call),
    (b"on", Token::On),
];

/// The sign of the first of these words that is `w`.
fn look_up(words: &[(&[u8], Token)], w: &[u8]) -> Option<Token>
    ensures { result ≡ option_map (λ e. e.1) (find (λ e. bytes_eq w.now e.0.now) words.now) }
{
    words
        .iter()
        .find(|(spelled, _)| w == *spelled)
        .map(|(_, token)| *token)
}

/// The sign that a run of letters and digits is.
pub fn word(w: &[u8]) -> Token
    ensures { result ≡ word_of w.now }
{
    look_up(&WORDS, w).unwrap_or_else(|| number(w))
}
