//! State vectors.
ghost use Rattle.std.specs.Prelude.{◌≡◌, length};

use crate::register::Register;
use amplitude::Amplitude;

/// The amplitudes of a register, in an array by value, so that a state needs no heap: that of a row stands at the row's number.
#[derive(Clone, Copy)]
pub struct StateVector {
    pub register: Register,
    pub amplitudes: [Amplitude; 256],
    ghost whole: { length amplitudes ≡ 256 },
}
