//! How many steps a circuit takes, if gates without a qubit in common may take the same step.
ghost use Rattle.std.specs.Prelude.{◌≡◌, ℕ, ◌+◌, ◌^◌, ◌<◌, if◌then◌else◌};
ghost use Rattle.laws.specs.Rename.{about};
ghost use Rattle.summary.specs.Depth.{InTime, NoSooner, depth, freed, listed, ready};

use circuit::Gate;

/// Gates that begin as soon as they can: from which step on each qubit is free.
#[derive(Drop)]
struct Timetable {
    free: [usize; 256],
}

impl Timetable {
    /// With no gate.
    fn new() -> Timetable
        ensures { (k : ℕ) → listed result.free k ≡ 0 }
    {
        Timetable { free: [0; 256] }
    }

    /// The first step at which the gate's qubits are all free.
    fn ready(&self, gate: Gate) -> usize
        ensures { result ≡ ready (listed self.now.free) gate }
    {
        let free = |qubit: u8| self.free[usize::from(qubit)];
        let target = free(gate.target());
        match gate {
            Gate::ControlledNot { control, .. } => free(control).max(target),
            Gate::Toffoli { first, second, .. } => free(first).max(free(second).max(target)),
            _ => target,
        }
    }

    /// Marks the gate's qubits as free from a step on.
    fn occupy(&mut self, gate: Gate, end: usize)
        ensures { (k : ℕ) → listed self.new.free k ≡ (if about gate k then end else listed self.old.free k) }
    {
        match gate {
            Gate::ControlledNot { control, .. } => self.free[usize::from(control)] = end,
            Gate::Toffoli { first, second, .. } => {
                self.free[usize::from(first)] = end;
                self.free[usize::from(second)] = end;
            }
            _ => {}
        }
        self.free[usize::from(gate.target())] = end;
    }

    /// One gate more, which begins at the first step at which its qubits are all free. How many steps are taken where it ends.
    // The steps of all gates are no field, which would be written at each gate.
    fn place(&mut self, gate: Gate) -> usize
        requires { ready (listed self.old.free) gate + 1 < 2 ^ 64 }
        ensures free { (k : ℕ) → listed self.new.free k ≡ freed (listed self.old.free) gate k }
        ensures end { result ≡ ready (listed self.old.free) gate + 1 }
    {
        let end = self.ready(gate) + 1;
        self.occupy(gate, end);
        end
    }
}

/// The number of steps that the gates take, if each takes one and begins as soon as its qubits are free.
pub fn depth(gates: &[Gate]) -> usize
    ensures { result ≡ depth gates.now }
{
    let mut timetable = Timetable::new();
    let mut steps: usize = 0;
    for gate in gates {
        steps = steps.max(timetable.place(*gate));
    }
    steps
}

/// No schedule that keeps the order of gates with a qubit in common takes fewer steps than the depth, and one takes as many.
pub fn depth_stands() -> u8
    ensures least { NoSooner }
    ensures reached { InTime }
{
    0
}
