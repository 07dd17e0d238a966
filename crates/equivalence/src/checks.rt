//! The check that circuits and circuits in numbers have in common.
ghost use Rattle.std.specs.Prelude.{◌*◌, ◌%◌, ◌<◌, ◌≤◌, ◌&&◌, ◌==◌, nat_le};
ghost use Rattle.circuit.specs.Refusals.{Checked, unless};
ghost use Rattle.circuit.specs.declared.refusal.Refusal.TheVariants as variant;

use circuit::Refusal;

/// The most gates that a circuit may have to be compared.
pub const MOST_GATES: usize = 1024;

/// That a list, the first or the second, is of whole gates, so many numbers each, and not of too many.
pub fn check_length(list: u64, length: usize, numbers: usize) -> Result<(), Refusal>
    requires some { 0 < numbers }
    requires few { numbers ≤ 4 }
    ensures { Checked (unless (length % numbers == 0 && nat_le length (numbers * 1024)) (variant.Length list)) result }
{
    Refusal::Length(list).unless(length % numbers == 0 && length <= numbers * MOST_GATES)
}
