//! Whether a device, a layout and a circuit can be taken, by the first check that fails.
ghost use Rattle.std.specs.Prelude.{length};
ghost use Rattle.circuit.specs.Refusals.{Checked, at_place};
ghost use Rattle.device.specs.Checks.{beyond_from};
ghost use Rattle.compiler.specs.Refuses.{circuit_refused, own_refused, sizes_refused};

use circuit::{Gate, Refusal, check_gates, check_numbers, refuse};
use device::{first_beyond, first_misplaced};

/// What a circuit comes with, as the interface gives it and unchecked: its number of qubits, a device by its size and its wires, a layout, and how long the list for the final layout is, which is itself lent to be written.
#[derive(Clone, Copy)]
pub struct Request<'a> {
    pub n: u64,
    pub size: u64,
    pub joined: &'a [u8],
    pub place: &'a [u8],
    pub out: usize,
}

impl Request<'_> {
    /// How many qubits there are, and how long the lists are; `few` says that there are not too many gates.
    fn check_sizes(&self, few: bool) -> Result<(), Refusal>
        ensures { Checked (sizes_refused self.now.n self.now.size (length self.now.joined.now) (length self.now.place.now) few self.now.out) result }
    {
        Refusal::Qubits(0).unless(0 < self.n)?;
        Refusal::Qubits(1).unless(self.n <= self.size && self.size <= 16)?;
        let joined = self.joined.len() as u64;
        Refusal::Length(0).unless(joined == self.size * self.size)?;
        Refusal::Length(1).unless(self.place.len() as u64 == self.n)?;
        Refusal::Length(2).unless(few)?;
        Refusal::Length(4).unless(self.out as u64 == self.n)
    }

    /// Whether each number of a wire is nought or one.
    fn check_wires(&self) -> Result<(), Refusal>
        ensures { Checked (at_place Refusal.Number (beyond_from 2 0 self.now.joined.now)) result }
    {
        refuse(first_beyond(2, self.joined).map(|wire| Refusal::Number(wire as u64)))
    }

    /// The first of the checks of a circuit that fails.
    pub fn check_circuit(&self, gates: &[Gate]) -> Result<(), Refusal>
        ensures { Checked (circuit_refused self.now.n self.now.size self.now.joined.now self.now.place.now gates.now self.now.out) result }
    {
        self.check_sizes(gates.len() <= 256)?;
        self.check_wires()?;
        check_gates(self.n, gates)?;
        refuse(first_misplaced(self.size, self.place).map(|qubit| Refusal::Layout(qubit as u64)))
    }

    /// The first of the checks that fails which a circuit in numbers has of its own.
    pub(crate) fn check_numbers(&self, gates: &[u8]) -> Result<(), Refusal>
        ensures { Checked (own_refused self.now.n self.now.size self.now.joined.now (length self.now.place.now) gates.now self.now.out) result }
    {
        self.check_sizes(gates.len() % 4 == 0 && gates.len() <= 1024)?;
        self.check_wires()?;
        check_numbers(gates)
    }
}
