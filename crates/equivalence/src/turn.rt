//! The turn that takes amplitudes to others.
ghost use Rattle.std.specs.Prelude.{◌≡◌, ℕ, ◌^◌, ◌<◌, ◌≢◌, ◌↔◌, IsTrue, MatchOption};
ghost use Rattle.amplitude.specs.Ring.{Within, turned};
ghost use Rattle.equivalence.specs.Scan.{Tells};

use amplitude::Amplitude;

// `Within (2 ^ 61)` stands in each contract: a sum of amplitudes doubles the bound, so it is no invariant of `Amplitude`.

/// Whether the turn takes `y` to `x`.
fn agree(turn: u8, x: Amplitude, y: Amplitude) -> bool
    requires { Within (2 ^ 61) y }
    ensures { IsTrue result ↔ (x ≡ turned turn y) }
{
    x == y.turned(turn)
}

/// A turn by so many eighths that takes `y` to `x`.
fn turn_between(x: Amplitude, y: Amplitude) -> Option<u8>
    requires { Within (2 ^ 61) y }
    ensures { MatchOption result ((t : ℕ) → t < 8 → x ≢ turned t y) (λ t. (t < 8) × (x ≡ turned t y)) }
{
    (0..8).find(|turn| agree(*turn, x, y))
}

/// What one pair more tells: the turn that does for it and all before, or its place if none does. While all are zero no turn is told.
pub fn tell(place: usize, told: Option<u8>, x: Amplitude, y: Amplitude) -> Result<Option<u8>, usize>
    requires { Within (2 ^ 61) y }
    ensures { Tells place told x y result }
{
    match told {
        None if x == Amplitude::ZERO && y == Amplitude::ZERO => Ok(None),
        None => turn_between(x, y).map(Some).ok_or(place),
        Some(turn) if agree(turn, x, y) => Ok(told),
        Some(_) => Err(place),
    }
}
