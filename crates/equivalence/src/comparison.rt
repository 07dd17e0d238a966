//! What comparing two circuits says.

/// How two circuits stand to each other.
#[derive(Clone, Copy, PartialEq, Eq, Debug)]
pub enum Comparison {
    /// They are the same, the second turned by so many eighths.
    Alike { turn: u8 },
    /// They are not, and the first pair of rows that shows it: the amplitude at a row, begun from another.
    Different { row: usize, from: usize },
}
