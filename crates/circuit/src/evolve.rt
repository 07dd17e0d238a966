//! Running gates on a state vector.
ghost use Rattle.std.specs.Prelude.{◌≡◌, ◌^◌, ◌<◌, ◌≤◌, List, reverse};
ghost use Rattle.std.specs.Iterator.{IsFinite};
ghost use Rattle.amplitude.specs.Ring.{Within};
ghost use Rattle.circuit.specs.Circuit.{AllFit, Fit, Row, does, mixes, run};
ghost use Rattle.circuit.specs.Rows.{row};
ghost use Rattle.circuit.specs.Vector.{Basis, Bounded, Column, Gives, Ready, paired, represented};

use crate::gate::Gate;
use crate::register::Register;
use crate::vector::StateVector;
use amplitude::Amplitude;

impl Gate {
    /// What it makes of the amplitudes at a row whose target is 0 and at the same row with target 1. The bounds stand here as at the methods of amplitudes, which double them.
    fn pair(
        self,
        register: Register,
        number: usize,
        zero: Amplitude,
        one: Amplitude,
    ) -> (Amplitude, Amplitude)
        requires fit { Fit register.qubits self }
        requires zero_small { Within (2 ^ 61) zero }
        requires one_small { Within (2 ^ 61) one }
        ensures { result ≡ paired self (row register.qubits number) zero one }
    {
        match self {
            Gate::Phase { eighths, .. } => (zero, one.turned(eighths)),
            Gate::Hadamard(_) => (zero.plus(one), zero.minus(one)),
            Gate::Not(_) => (one, zero),
            Gate::ControlledNot { control, .. } if register.has(number, control) => (one, zero),
            Gate::Toffoli { first, second, .. }
                if register.has(number, first) && register.has(number, second) => { (one, zero) }
            Gate::ControlledNot { .. } | Gate::Toffoli { .. } => (zero, one),
        }
    }
}

// That the register stays is a clause of each method: a `&mut self` says nothing of a field.
impl StateVector {
    /// The state that is 1 at the row with the number, and 0 at the others. A row is its number, so that it is below `2 ^ qubits` stands in the contracts.
    pub fn basis(register: Register, number: usize) -> StateVector
        requires { number < 2 ^ register.qubits }
        ensures { Basis register.qubits number result }
    {
        let mut amplitudes = [Amplitude::ZERO; 256];
        amplitudes[number] = Amplitude::ONE;
        StateVector {
            register,
            amplitudes,
        }
    }

    /// Applies the gate: the state afterwards is what the gate does to the state before.
    pub fn apply(&mut self, gate: Gate)
        requires fit { Fit self.old.register.qubits gate }
        requires small { Bounded (2 ^ 61) (represented self.old) }
        ensures kept { self.new.register ≡ self.old.register }
        ensures done { (b : Row) → represented self.new b ≡ does gate (represented self.old) b }
    {
        let register = self.register;
        let target = gate.target();
        let bit = register.weight(target);
        // A row is its number, and its partner stands `bit` further on.
        for row in 0..register.rows() {
            if !register.has(row, target) {
                let (zero, one) = gate.pair(
                    register,
                    row,
                    self.amplitudes[row],
                    self.amplitudes[row + bit],
                );
                self.amplitudes[row] = zero;
                self.amplitudes[row + bit] = one;
            }
        }
    }

    /// Runs the gates that the iterator gives, in turn.
    fn run_each<'a, I: Iterator<Item = &'a Gate> + Drop>(&mut self, gates: I)
        requires can { I.can_next gates }
        requires ends { IsFinite (I.remaining gates) }
        requires ready { (gs : List Gate) × Gives I.next_gives gates gs × Ready gs self.old }
        ensures kept { self.new.register ≡ self.old.register }
        ensures done { (gs : List Gate) → Gives I.next_gives gates gs → Ready gs self.old → (b : Row) → represented self.new b ≡ run gs (represented self.old) b }
    {
        for &gate in gates {
            self.apply(gate);
        }
    }

    /// Runs the gates in turn: the state afterwards is what they do to the state before.
    pub fn run(&mut self, gates: &[Gate])
        requires { Ready gates.now self.old }
        ensures kept { self.new.register ≡ self.old.register }
        ensures done { (b : Row) → represented self.new b ≡ run gates.now (represented self.old) b }
    {
        self.run_each(gates.iter());
    }

    /// Runs the gates from the last to the first.
    pub fn run_reversed(&mut self, gates: &[Gate])
        requires { Ready (reverse gates.now) self.old }
        ensures kept { self.new.register ≡ self.old.register }
        ensures done { (b : Row) → represented self.new b ≡ run (reverse gates.now) (represented self.old) b }
    {
        self.run_each(gates.iter().rev());
    }
}

/// What the gates make of the state that is 1 at the row with the number: a column of the circuit's matrix. That they fit is a clause, as they are lent as they are.
pub fn column(gates: &[Gate], register: Register, number: usize) -> StateVector
    requires inside { number < 2 ^ register.qubits }
    requires fit { AllFit register.qubits gates.now }
    requires short { mixes gates.now ≤ 60 }
    ensures { Column gates.now register.qubits number result }
{
    let mut state = StateVector::basis(register, number);
    state.run(gates);
    state
}

/// The same for the gates from the last to the first. One function over iterators would be no plainer: its contract, over each list that an iterator gives, would be longer than these two bodies.
pub fn column_reversed(gates: &[Gate], register: Register, number: usize) -> StateVector
    requires inside { number < 2 ^ register.qubits }
    requires fit { AllFit register.qubits gates.now }
    requires short { mixes gates.now ≤ 60 }
    ensures { Column (reverse gates.now) register.qubits number result }
{
    let mut state = StateVector::basis(register, number);
    state.run_reversed(gates);
    state
}
