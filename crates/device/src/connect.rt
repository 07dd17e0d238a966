//! Whether every place of a device can be reached from every other.
ghost use Rattle.std.specs.Prelude.{◌≡◌, ◌<◌, length, Ok, Err, slice_index};
ghost use Rattle.device.specs.Board.{graph_of};
ghost use Rattle.device.specs.Connect.{CutOffTells, Even, FirstNot, Shows};
ghost use Rattle.device.specs.Coupling.{Connected};
ghost use Rattle.device.specs.Hops.{distances};

use crate::device::Device;
use crate::hop::Hop;
use crate::tree::grow;

/// Why a device is not connected: the first pair of places that shows it.
#[derive(Clone, Copy, PartialEq, Eq, Debug)]
pub enum Fault {
    /// There is a wire from one of them to the other, and none back.
    OneWay(usize, usize),
    /// No way leads from the first to the second.
    Apart(usize, usize),
}

/// The first place that is joined to a, or that a is joined to, and not the other way round.
fn first_uneven(device: &Device, a: usize) -> Option<usize>
    ensures { FirstNot (λ b. (graph_of device.now).joined a b ≡ (graph_of device.now).joined b a) device.now.size result }
{
    (0..device.size).find(|b| device.joins(a, *b) != device.joins(*b, a))
}

/// The first place that is not reached.
fn first_unreached(hops: &[Option<Hop>]) -> Option<usize>
    ensures { FirstNot (λ b. slice_index (distances hops.now) b < 255) (length hops.now) result }
{
    hops.iter().position(Option::is_none)
}

// Two `for`s: no library lemma tells what `find_map` over a range found, and one function for both takes closures with clauses, longer than the loops.

// Each check says by `Shows` what its error shows; what it says where it passes is its own.

/// Every wire leads both ways.
fn even(device: &Device) -> Result<(), Fault>
    ensures { elim result [ Ok _ ↦ Even (graph_of device.now) | Err fault ↦ Shows (graph_of device.now) fault ] }
{
    for a in 0..device.size {
        if let Some(b) = first_uneven(device, a) {
            return Err(Fault::OneWay(a, b));
        }
    }
    Ok(())
}

/// From every place a way leads to every other.
fn reaching(device: &Device) -> Result<(), Fault>
    requires { Even (graph_of device.now) }
    ensures { elim result [ Ok _ ↦ Connected (graph_of device.now) | Err fault ↦ Shows (graph_of device.now) fault ] }
{
    for a in 0..device.size {
        let tree = grow(device, a);
        if let Some(b) = first_unreached(&tree.hops[..device.size]) {
            return Err(Fault::Apart(a, b));
        }
    }
    Ok(())
}

/// Whether a way leads from every place to every other, and every wire both ways.
pub fn connected(device: &Device) -> Result<(), Fault>
    ensures { elim result [ Ok _ ↦ Connected (graph_of device.now) | Err fault ↦ Shows (graph_of device.now) fault ] }
{
    even(device)?;
    reaching(device)
}

/// A device that shows a fault at a place is not connected, and shows none at another.
#[tactic(auto, using(crate::proofs::Pairs::cut_off_tells))]
pub fn cut_off_stands() -> u8
    ensures { CutOffTells }
{
    0
}
