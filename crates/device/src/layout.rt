//! Checks of wires and of layouts, as numbers.
ghost use Rattle.std.specs.Prelude.{◌≡◌, [], not};
ghost use Rattle.device.specs.Checks.{LayoutTold, beyond_from, fits, misplaced_from};

/// The first place whose number is not below a limit.
pub fn first_beyond(limit: u8, numbers: &[u8]) -> Option<usize>
    ensures { result ≡ beyond_from limit 0 numbers.now }
{
    numbers.iter().position(|number| *number >= limit)
}

/// Whether a place is not there, or is one of those before it.
fn misplaced(size: u64, before: &[u8], place: u8) -> bool
    ensures { result ≡ not (fits size before.now place) }
{
    u64::from(place) >= size || before.contains(&place)
}

/// The first qubit whose place is not there, or is that of a qubit before it.
pub fn first_misplaced(size: u64, places: &[u8]) -> Option<usize>
    ensures { result ≡ misplaced_from size [] 0 places.now }
{
    places
        .iter()
        .enumerate()
        .position(|(qubit, place)| misplaced(size, &places[..qubit], *place))
}

/// A list of places is a layout exactly if none is misplaced.
#[tactic(auto, using(crate::proofs::Places::layout_told))]
pub fn layout_stands() -> u8
    ensures { LayoutTold }
{
    0
}
