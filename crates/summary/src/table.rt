//! A table for people of what compiling made of a circuit.
ghost use Rattle.std.specs.Prelude.{◌^◌, ◌-◌, Some};
ghost use Rattle.std.specs.Fmt.{DisplaysOnOk, WritesOnOk, format_spec};
ghost use Rattle.summary.specs.Text.{counts_text, line, table_text};

use crate::tally::Counts;
use std::fmt;

/// What a circuit is made of before and after it was compiled.
#[derive(Clone, Copy)]
pub struct Summary {
    pub before: Counts,
    pub after: Counts,
    /// How often two qubits were exchanged.
    pub swaps: usize,
}

/// A line of the table, with its columns aligned.
fn row<W: fmt::Write, T: fmt::Display + Copy>(
    f: &mut fmt::Formatter<W>,
    name: &str,
    before: T,
    after: T,
) -> fmt::Result
    ensures { DisplaysOnOk W.write_str_gives f.old result
        (line name.now (T.styled_output before (format_spec 32 3 0 7 (2 ^ 64 - 1)))
        (T.styled_output after (format_spec 32 3 0 8 (2 ^ 64 - 1)))) f.new }
{
    writeln!(f, "{name:<20}{before:>7}{after:>8}")
}

/// The lines of two circuits' counts.
fn rows<W: fmt::Write>(f: &mut fmt::Formatter<W>, before: Counts, after: Counts) -> fmt::Result
    ensures { WritesOnOk W.write_str_gives f.old result (counts_text before after) f.new }
{
    row(f, "gates", before.gates, after.gates)?;
    row(f, "flips by another", before.cnots, after.cnots)?;
    row(f, "flips by two others", before.toffolis, after.toffolis)?;
    row(f, "odd turns", before.t_count, after.t_count)?;
    row(f, "mixes", before.hadamards, after.hadamards)?;
    row(f, "depth", before.depth, after.depth)
}

impl fmt::Display for Summary {
    ghost output = { λ s. Some (table_text s) };

    fn fmt<W: fmt::Write>(&self, f: &mut fmt::Formatter<W>) -> fmt::Result {
        let Summary {
            before,
            after,
            swaps,
        } = *self;
        row(f, "", "before", "after")?;
        rows(f, before, after)?;
        write!(f, "exchanges {swaps}")
    }
}
