//! The row that a circuit begins from.
ghost use Rattle.std.specs.Prelude.{◌≡◌, ◌^◌, ◌<◌, ◌≤◌, length};
ghost use Rattle.circuit.specs.Rows.{number};
ghost use Rattle.simulation.specs.Playing.{row_of};

/// The number of a row that is given digit by digit.
pub fn number_of(digits: &[bool]) -> usize
    requires { length digits.now ≤ 8 }
    ensures exact { result ≡ number (length digits.now) (row_of digits.now) }
    ensures inside { result < 2 ^ length digits.now }
{
    let mut number = 0;
    // By for, as of a fold the bound of the sum is not known.
    for digit in digits {
        number = 2 * number + usize::from(*digit);
    }
    number
}
