//! The round trip of texts, on the contract of a small function.
ghost use Rattle.message.specs.RoundTrip.{LayoutTold, LineRead, PrintTells, ReadBack, StatementSpells, StatementsSpell};

/// What is written of a circuit is read as that circuit, and what is printed tells the gates and the layout.
pub fn round_trip_stands() -> u8
    ensures statement { StatementSpells }
    ensures statements { StatementsSpell }
    ensures read { ReadBack }
    ensures line { LineRead }
    ensures layout { LayoutTold }
    ensures printed { PrintTells }
{
    0
}
