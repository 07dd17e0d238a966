//! Circuits in numbers, four a gate: the form of the interface on bytes, where alone a kind is a number.
ghost use Rattle.std.specs.Prelude.{◌≡◌, ◌*◌, ◌%◌, ◌≤◌, ◌++◌, length, drop, slice_index};
ghost use Rattle.circuit.specs.Circuit.{mixes};
ghost use Rattle.circuit.specs.Code.{code, fault_from, fault_of, gate_of, gates_in};
ghost use Rattle.circuit.specs.Refusals.{Checked, at_place, misfit_from};

use crate::gate::Gate;
use crate::refusal::{Refusal, refuse};

impl From<Gate> for [u8; 4] {
    ghost from_gives = { λ gate numbers. numbers ≡ code gate };

    fn from(gate: Gate) -> [u8; 4] {
        match gate {
            Gate::Phase { eighths, qubit } => [0, eighths, qubit, 0],
            Gate::Hadamard(qubit) => [1, qubit, 0, 0],
            Gate::Not(qubit) => [2, qubit, 0, 0],
            Gate::ControlledNot { control, target } => [3, control, target, 0],
            Gate::Toffoli {
                first,
                second,
                target,
            } => [4, first, second, target],
        }
    }
}

impl From<[u8; 4]> for Gate {
    ghost from_gives = { λ numbers gate. gate ≡ gate_of (slice_index numbers 0) (slice_index numbers 1) (slice_index numbers 2) (slice_index numbers 3) };

    /// The gate that four numbers are: of any kind above three a Toffoli.
    fn from(numbers: [u8; 4]) -> Gate {
        let [kind, a, b, c] = numbers;
        match kind {
            0 => Gate::Phase {
                eighths: a,
                qubit: b,
            },
            1 => Gate::Hadamard(a),
            2 => Gate::Not(a),
            3 => Gate::ControlledNot {
                control: a,
                target: b,
            },
            _ => Gate::Toffoli {
                first: a,
                second: b,
                target: c,
            },
        }
    }
}

/// The place among a gate's four numbers of the first that is no kind, or is left over and not 0. The second is never either.
fn fault_of(numbers: [u8; 4]) -> Option<usize>
    ensures { result ≡ fault_of (slice_index numbers 0) (slice_index numbers 1) (slice_index numbers 2) (slice_index numbers 3) }
{
    match numbers {
        [5..=255, ..] => Some(0),
        [1 | 2, _, 1..=255, _] => Some(2),
        [0..=3, _, _, 1..=255] => Some(3),
        _ => None,
    }
}

/// The place of the first number at fault, gate by gate. A rest of fewer than four numbers is not looked at.
pub fn first_fault(numbers: &[u8]) -> Option<usize>
    ensures { result ≡ fault_from 0 numbers.now }
{
    let (fours, _rest) = numbers.as_chunks::<4>();
    // A `for`, which reads no worse: of what `find_map` gives the library has no lemma.
    for (gate, four) in fours.iter().enumerate() {
        if let Some(place) = fault_of(*four) {
            return Some(4 * gate + place);
        }
    }
    None
}

/// The first gate that does not fit so many qubits.
pub fn first_misfit(qubits: u64, gates: &[Gate]) -> Option<usize>
    ensures { result ≡ misfit_from qubits 0 gates.now }
{
    gates.iter().position(|gate| !gate.fits(qubits))
}

/// That each number is one of a gate.
pub fn check_numbers(numbers: &[u8]) -> Result<(), Refusal>
    ensures { Checked (at_place Refusal.Number (fault_from 0 numbers.now)) result }
{
    refuse(first_fault(numbers).map(|place| Refusal::Number(place as u64)))
}

/// That each gate fits so many qubits.
pub fn check_gates(qubits: u64, gates: &[Gate]) -> Result<(), Refusal>
    ensures { Checked (at_place Refusal.Gate (misfit_from qubits 0 gates.now)) result }
{
    refuse(first_misfit(qubits, gates).map(|gate| Refusal::Gate(gate as u64)))
}

/// How many Hadamards there are.
pub fn count_mixes(gates: &[Gate]) -> u64
    ensures { result ≡ mixes gates.now }
{
    // By `count`, as a gate counts for one Hadamard at most: the bound that `sum` asks for needs a lemma of its own.
    gates.iter().filter(|gate| gate.mixed() == 1).count() as u64
}

/// Writes the gates that the numbers are.
pub fn decode(numbers: &[u8], gates: &mut [Gate])
    requires { 4 * length gates.old ≡ length numbers.now }
    ensures { gates.new ≡ gates_in numbers.now }
{
    let (fours, _rest) = numbers.as_chunks::<4>();
    // By index: a `zip` with `iter_mut` needs an invariant over all that was lent so far, longer than this.
    for (i, four) in fours.iter().enumerate() {
        gates[i] = Gate::from(*four);
    }
}

/// The gates that the numbers are, in the room.
pub fn decode_in<'a, const N: usize>(room: &'a mut [Gate; N], numbers: &[u8]) -> &'a [Gate]
    requires whole { length numbers.now % 4 ≡ 0 }
    requires short { length numbers.now ≤ 4 * N }
    ensures { result.now ≡ gates_in numbers.now }
{
    let gates = &mut room[..numbers.len() / 4];
    decode(numbers, gates);
    gates
}

/// Writes the gate's four numbers at the front of the room.
pub fn write(room: &mut [u8], gate: Gate)
    requires { 4 ≤ length room.old }
    ensures { room.new ≡ code gate ++ drop 4 room.old }
{
    room[..4].copy_from_slice(&<[u8; 4]>::from(gate));
}
