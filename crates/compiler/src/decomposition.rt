//! Toffolis taken apart, so that routing sees gates of two qubits at most.
ghost use Rattle.std.specs.Prelude.{◌≡◌, ◌*◌, ◌≤◌, length, take};
ghost use Rattle.circuit.specs.declared.gate.Gate.TheVariants.{ControlledNot, Phase};
ghost use Rattle.compiler.specs.Emits.{over};
ghost use Rattle.compiler.specs.Expand.{expanded, expansion, fifteen};

use circuit::Gate;
use laws::undone;

/// A turn by one eighth.
fn t(qubit: u8) -> Gate
    ensures { result ≡ Phase 1 qubit }
{
    Gate::Phase { eighths: 1, qubit }
}

pub fn cnot(control: u8, target: u8) -> Gate
    ensures { result ≡ ControlledNot control target }
{
    Gate::ControlledNot { control, target }
}

/// The gates that do what a Toffoli does: two Hadamards, seven T gates or their inverses, and six controlled NOTs.
#[tactic(auto, unfolding(laws::specs::Undo::undone))]
fn fifteen(first: u8, second: u8, target: u8) -> [Gate; 15]
    ensures { result ≡ fifteen first second target }
{
    let by_first = cnot(first, target);
    let by_second = cnot(second, target);
    [
        Gate::Hadamard(target),
        by_second,
        undone(t(target)),
        by_first,
        t(target),
        by_second,
        undone(t(target)),
        by_first,
        t(second),
        t(target),
        Gate::Hadamard(target),
        cnot(first, second),
        t(first),
        undone(t(second)),
        cnot(first, second),
    ]
}

/// One gate, or its fifteen, and how many.
fn expand(gate: Gate, out: &mut [Gate]) -> usize
    requires { 15 ≤ length out.old }
    ensures count { result ≡ length (expansion gate) }
    ensures written { out.new ≡ over (expansion gate) out.old }
{
    match gate {
        Gate::Toffoli {
            first,
            second,
            target,
        } => {
            out[..15].copy_from_slice(&fifteen(first, second, target));
            15
        }
        _ => {
            out[0] = gate;
            1
        }
    }
}

/// Each Toffoli by its fifteen gates, the others as they are, and how many.
// A lent room and a count: the entries on numbers allocate nothing, and the count tells how much of the room is written.
pub fn decompose(gates: &[Gate], out: &mut [Gate]) -> usize
    requires { 15 * length gates.now ≤ length out.old }
    ensures count { result ≡ length (expanded gates.now) }
    ensures written { take result out.new ≡ expanded gates.now }
{
    let mut count = 0;
    for gate in gates {
        count += expand(*gate, &mut out[count..]);
    }
    count
}
