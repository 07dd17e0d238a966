//! Why a text, a circuit, a device or a layout is turned away.
ghost use Rattle.std.specs.Prelude.{◌≡◌};
ghost use Rattle.circuit.specs.Refusals.{Checked, number, place, unless};

/// Each case has a number; checks are made in the order of these numbers, and the first that applies is told, with its place. Places count from 0.
#[derive(Clone, Copy, PartialEq, Eq, Debug)]
pub enum Refusal {
    /// No qubit, or more than are taken: at place 0 the circuit's, at place 1 the device's.
    Qubits(u64),
    /// A list of another length than it should have, or with too many gates: which list.
    Length(u64),
    /// A number that is no gate's kind, one left over in a gate that is not 0, or one of a wire that is neither 0 nor 1: its place.
    Number(u64),
    /// A gate with a qubit that is not there, or with one twice: the gate.
    Gate(u64),
    /// A layout with a place that is not there, or with one twice: the first such qubit.
    Layout(u64),
    /// A device that is not connected, or is joined one way only: a pair that shows it, by its place in the list of wires.
    Device(u64),
    /// A room shorter than what is always enough: its length.
    Room(u64),
    /// More than 60 Hadamards in two circuits together: how many.
    Mixes(u64),
    /// A text that cannot be read, or that says more gates than are taken: the sign.
    Text(u64),
}

impl Refusal {
    /// The refusal, unless a test holds.
    pub fn unless(self, holds: bool) -> Result<(), Refusal>
        ensures { Checked (unless holds self) result }
    {
        if holds { Ok(()) } else { Err(self) }
    }

    /// Its number in the list of refusals, by which users know it.
    pub fn number(self) -> u8
        ensures { result ≡ number self }
    {
        match self {
            Refusal::Qubits(_) => 1,
            Refusal::Length(_) => 2,
            Refusal::Number(_) => 3,
            Refusal::Gate(_) => 4,
            Refusal::Layout(_) => 5,
            Refusal::Device(_) => 6,
            Refusal::Room(_) => 7,
            Refusal::Mixes(_) => 8,
            Refusal::Text(_) => 9,
        }
    }

    /// Where it shows.
    pub fn place(self) -> u64
        ensures { result ≡ place self }
    {
        match self {
            Refusal::Qubits(place)
            | Refusal::Length(place)
            | Refusal::Number(place)
            | Refusal::Gate(place)
            | Refusal::Layout(place)
            | Refusal::Device(place)
            | Refusal::Room(place)
            | Refusal::Mixes(place)
            | Refusal::Text(place) => place,
        }
    }
}

/// The refusal, if there is one.
pub fn refuse(refusal: Option<Refusal>) -> Result<(), Refusal>
    ensures { Checked refusal result }
{
    refusal.map_or(Ok(()), Err)
}
