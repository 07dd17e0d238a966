//! The laws of circuits, each on the contract of a small function.
ghost use Rattle.laws.specs.Laws.{Apart, ChangePlaces, InTheMidst, RenamedSame, RunRooted, RunTurned, SameBack, SameOn, SameSelf, SumBySum, Undoes};

/// A circuit is linear.
pub fn linearity_stands() -> u8
    ensures sums { SumBySum }
    ensures turns { RunTurned }
    ensures roots { RunRooted }
{
    0
}

/// A circuit can be undone, so that it brings no two states to one.
pub fn undoing_stands() -> u8
    ensures undone { Undoes }
    ensures apart { Apart }
{
    0
}

/// Gates without a qubit in common change places.
pub fn change_places_stands() -> u8
    ensures { ChangePlaces }
{
    0
}

/// To be the same circuit is an equivalence, kept in the midst of others and with other qubits put in.
pub fn sameness_stands() -> u8
    ensures reflexive { SameSelf }
    ensures symmetric { SameBack }
    ensures transitive { SameOn }
    ensures midst { InTheMidst }
    ensures renamed { RenamedSame }
{
    0
}
