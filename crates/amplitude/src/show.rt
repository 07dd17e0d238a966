//! Amplitudes as text, as in 1 + w - w^3.
ghost use Rattle.std.specs.Prelude.{◌≡◌, ◌&&◌, Some};
ghost use Rattle.amplitude.specs.ReadBack.{ReadBack, TextExamples, TextTells};
ghost use Rattle.amplitude.specs.Written.{amplitude_text, is_zero, part, sign};

use crate::Amplitude;
use std::fmt;

/// The sign of a part as it is written.
fn sign(first: bool, negative: bool) -> &'static str
    ensures { result.now ≡ sign first negative }
{
    match (first, negative) {
        (true, true) => "-",
        (true, false) => "",
        (false, true) => " - ",
        (false, false) => " + ",
    }
}

/// A factor with its power of w; `first` says that nothing is written before it.
#[derive(Clone, Copy)]
struct Part {
    first: bool,
    factor: i64,
    power: &'static str,
}

impl Part {
    /// The part after this one.
    fn then(self, factor: i64, power: &'static str) -> Part
        ensures first { result.first ≡ (self.first && is_zero self.factor) }
        ensures factor { result.factor ≡ factor }
        ensures power { result.power.now ≡ power.now }
    {
        Part {
            first: self.first && self.factor == 0,
            factor,
            power,
        }
    }
}

impl fmt::Display for Part {
    ghost output = { λ p. Some (part p.first p.factor p.power.now) };

    fn fmt<W: fmt::Write>(&self, f: &mut fmt::Formatter<W>) -> fmt::Result {
        let sign = sign(self.first, self.factor < 0);
        let count = self.factor.unsigned_abs();
        let power = self.power;
        if count == 0 {
            Ok(())
        } else if count == 1 && !power.is_empty() {
            write!(f, "{sign}{power}")
        } else {
            write!(f, "{sign}{count}{power}")
        }
    }
}

impl fmt::Display for Amplitude {
    ghost output = { λ a. Some (amplitude_text a) };

    fn fmt<W: fmt::Write>(&self, f: &mut fmt::Formatter<W>) -> fmt::Result {
        if *self == Amplitude::ZERO {
            return f.write_str("0");
        }
        let one = Part {
            first: true,
            factor: self.one,
            power: "",
        };
        let w = one.then(self.w, "w");
        let w2 = w.then(self.w2, "w^2");
        let w3 = w2.then(self.w3, "w^3");
        write!(f, "{one}{w}{w2}{w3}")
    }
}

/// What is written of an amplitude is read back as that amplitude, so different ones have different texts.
pub fn amplitude_text_stands() -> u8
    ensures read { ReadBack }
    ensures tells { TextTells }
    ensures examples { TextExamples }
{
    0
}
