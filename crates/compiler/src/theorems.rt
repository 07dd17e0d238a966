//! What bringing a circuit onto a device rests on, each a theorem.
ghost use Rattle.compiler.specs.Expand.{ExpandedPlain, ExpandedSame, FifteenDoes};
ghost use Rattle.compiler.specs.Onward.{CarriedOnward};
ghost use Rattle.compiler.specs.Promise.{Compilable};
ghost use Rattle.compiler.specs.Route.{DoneThrough, LaidDoes, OnAndOn, Routed, SwapLays, SwapPlaced};

/// A gate on the places of its qubits does to a laid-out state what it does to the state.
pub fn laid_does_stands() -> u8
    ensures { LaidDoes }
{
    0
}

/// Three controlled NOTs swap two places.
#[tactic(auto, using(crate::proofs::Swapping::swap_lays))]
pub fn swap_lays_stands() -> u8
    ensures { SwapLays }
{
    0
}

/// After a swap no two qubits lie at one place.
#[tactic(auto, using(crate::proofs::Swapping::swap_placed))]
pub fn swap_placed_stands() -> u8
    ensures { SwapPlaced }
{
    0
}

/// One stretch of a circuit is done after another.
pub fn on_and_on_stands() -> u8
    ensures { OnAndOn }
{
    0
}

/// A circuit without Toffolis can be done on every connected device.
#[tactic(auto, using(crate::proofs::Doings::routed))]
pub fn routed_stands() -> u8
    ensures { Routed }
{
    0
}

/// What does a circuit does each that is the same.
pub fn done_through_stands() -> u8
    ensures { DoneThrough }
{
    0
}

/// Fifteen gates do what a Toffoli does.
pub fn fifteen_does_stands() -> u8
    ensures { FifteenDoes }
{
    0
}

/// An expanded circuit is the same circuit, and no dearer.
pub fn expanded_same_stands() -> u8
    ensures { ExpandedSame }
{
    0
}

/// A circuit without Toffolis is expanded to itself.
pub fn expanded_plain_stands() -> u8
    ensures { ExpandedPlain }
{
    0
}

/// Every circuit can be done on every connected device that is large enough.
#[tactic(auto, using(crate::proofs::Main::compiled))]
pub fn compiled_stands() -> u8
    ensures { Compilable }
{
    0
}

/// What carries out a circuit still does with the same circuit before and the same device gates after.
pub fn carried_onward_stands() -> u8
    ensures { CarriedOnward }
{
    0
}
