//! A circuit brought onto a device, with everything that can be wrong with either told.
ghost use Rattle.std.specs.Prelude.{ℕ, ◌≡◌, ◌<◌, length, Ok, Err};
ghost use Rattle.circuit.specs.Code.{gates_in};
ghost use Rattle.device.specs.Board.{graph_of};
ghost use Rattle.device.specs.Connect.{CutOff};
ghost use Rattle.device.specs.Coupling.{Connected};
ghost use Rattle.compiler.specs.Refuses.{Compiles, circuit_refused, numbers_refused};

use crate::checks::Request;
use crate::decomposition::decompose;
use crate::routing::route;
use circuit::{Gate, Refusal, decode_in};
use device::{Device, Fault, connected, device_from};

/// How many numbers of room each number of a circuit is sure to find enough.
const ROOM: usize = 300;

/// Refuses a device that is not connected, by the place in the list of wires of a pair that shows it.
fn check_connected(device: &Device) -> Result<(), Refusal>
    ensures { elim result [ Ok _ ↦ Connected (graph_of device.now) | Err refusal ↦ (p : ℕ) × (refusal ≡ Refusal.Device p) × CutOff (graph_of device.now) p ] }
{
    connected(device).map_err(|fault| match fault {
        Fault::OneWay(a, b) | Fault::Apart(a, b) => {
            Refusal::Device((a * device.size + b) as u64)
        }
    })
}

/// Brings a circuit of n qubits onto a device: writes the device's gates into the room, and the final layout into `place_out`. How many gates stand in the room.
// The parameters and their order are those of the byte interface.
pub fn compile_circuit(
    n: u64,
    size: u64,
    joined: &[u8],
    place: &[u8],
    gates: &[Gate],
    room: &mut [u8],
    place_out: &mut [u8],
) -> Result<u64, Refusal>
    ensures { Compiles (circuit_refused n size joined.now place.now gates.now (length place_out.old)) n size joined.now place.now gates.now room.old room.new place_out.old place_out.new result }
{
    let out = place_out.len();
    let request = Request {
        n,
        size,
        joined,
        place,
        out,
    };
    request.check_circuit(gates)?;
    let device = device_from(size as usize, joined);
    check_connected(&device)?;
    // By `if`, so that the proof has the order of the two lengths at hand, and not a test of it.
    if room.len() < ROOM * 4 * gates.len() {
        return Err(Refusal::Room(room.len() as u64));
    }
    place_out.copy_from_slice(place);
    // A fixed room for the most gates, since nothing is allocated.
    let mut buffer = [Gate::Not(0); 3840];
    let count = decompose(gates, &mut buffer);
    let numbers = route(&device, &buffer[..count], place_out, room);
    Ok((numbers / 4) as u64)
}

/// The same of a circuit in numbers, four a gate.
// The parameters and their order are those of the byte interface.
pub fn compile(
    n: u64,
    size: u64,
    joined: &[u8],
    place: &[u8],
    gates: &[u8],
    room: &mut [u8],
    place_out: &mut [u8],
) -> Result<u64, Refusal>
    ensures { Compiles (numbers_refused n size joined.now place.now gates.now (length place_out.old)) n size joined.now place.now (gates_in gates.now) room.old room.new place_out.old place_out.new result }
{
    let out = place_out.len();
    let request = Request {
        n,
        size,
        joined,
        place,
        out,
    };
    request.check_numbers(gates)?;
    // A fixed room for the most gates, since nothing is allocated.
    let mut buffer = [Gate::Not(0); 256];
    let gates = decode_in(&mut buffer, gates);
    compile_circuit(n, size, joined, place, gates, room, place_out)
}
