//! How many gates of each kind a circuit has.
ghost use Rattle.std.specs.Prelude.{◌≡◌};
ghost use Rattle.summary.specs.Counts.{counts};

use crate::schedule::depth;
use circuit::{Gate, count_mixes};

/// What a circuit is made of.
#[derive(Clone, Copy, PartialEq, Eq, Debug)]
pub struct Counts {
    pub gates: usize,
    pub cnots: usize,
    pub toffolis: usize,
    /// Turns by an odd number of eighths; a Toffoli counts for seven.
    pub t_count: usize,
    pub hadamards: usize,
    /// The steps that it takes if each gate takes one, and begins as soon as its qubits are free.
    pub depth: usize,
}

/// Counts the gates of a circuit, and the steps that it takes.
pub fn count(gates: &[Gate]) -> Counts
    ensures { result ≡ counts gates.now }
{
    // In one pass, which is faster than a filter for each kind.
    let mut cnots = 0;
    let mut toffolis = 0;
    let mut t_count = 0;
    for gate in gates {
        match *gate {
            Gate::Phase { eighths, .. } => t_count += usize::from(eighths % 2),
            Gate::ControlledNot { .. } => cnots += 1,
            Gate::Toffoli { .. } => {
                toffolis += 1;
                t_count += 7;
            }
            _ => {}
        }
    }
    Counts {
        gates: gates.len(),
        cnots,
        toffolis,
        t_count,
        hadamards: count_mixes(gates) as usize,
        depth: depth(gates),
    }
}
