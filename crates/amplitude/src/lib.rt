//! Amplitudes: whole numbers with an eighth root of one, w, where w^4 is -1.
#![tactic(auto)]

ghost use Rattle.std.specs.Prelude.{◌≡◌, ◌-◌, ◌%◌, ◌^◌, ◌≤◌};
ghost use Rattle.amplitude.specs.Laws.{RingLaws};
ghost use Rattle.amplitude.specs.Ring.{Within, minus, plus, rooted, turned};

mod show;

pub use show::amplitude_text_stands;

/// one + w * w + w2 * w^2 + w3 * w^3, each part a whole number. How large the parts may be stands with each method, since each doubles the bound.
#[derive(Clone, Copy, PartialEq, Eq, Debug)]
pub struct Amplitude {
    pub one: i64,
    pub w: i64,
    pub w2: i64,
    pub w3: i64,
}

impl Amplitude {
    pub const ZERO: Amplitude = Amplitude {
        one: 0,
        w: 0,
        w2: 0,
        w3: 0,
    };

    pub const ONE: Amplitude = Amplitude {
        one: 1,
        w: 0,
        w2: 0,
        w3: 0,
    };

    /// The sum.
    pub fn plus(self, other: Amplitude) -> Amplitude
        requires small { Within (2 ^ 61) self }
        requires other_small { Within (2 ^ 61) other }
        ensures { result ≡ plus self other }
    {
        Amplitude {
            one: self.one + other.one,
            w: self.w + other.w,
            w2: self.w2 + other.w2,
            w3: self.w3 + other.w3,
        }
    }

    /// The difference. With `plus` it would take its operator as a closure, and be longer than both.
    pub fn minus(self, other: Amplitude) -> Amplitude
        requires small { Within (2 ^ 61) self }
        requires other_small { Within (2 ^ 61) other }
        ensures { result ≡ minus self other }
    {
        Amplitude {
            one: self.one - other.one,
            w: self.w - other.w,
            w2: self.w2 - other.w2,
            w3: self.w3 - other.w3,
        }
    }

    /// The amplitude of these parts.
    fn of(one: i64, w: i64, w2: i64, w3: i64) -> Amplitude
        ensures { result ≡ record { one = one; w = w; w2 = w2; w3 = w3 } }
    {
        Amplitude { one, w, w2, w3 }
    }

    /// Times w, so many times.
    pub fn turned(self, eighths: u8) -> Amplitude
        requires { Within (2 ^ 61) self }
        ensures { result ≡ turned eighths self }
    {
        let Amplitude { one, w, w2, w3 } = self;
        match eighths % 8 {
            0 => self,
            1 => Amplitude::of(-w3, one, w, w2),
            2 => Amplitude::of(-w2, -w3, one, w),
            3 => Amplitude::of(-w, -w2, -w3, one),
            4 => Amplitude::of(-one, -w, -w2, -w3),
            5 => Amplitude::of(w3, -one, -w, -w2),
            6 => Amplitude::of(w2, w3, -one, -w),
            _ => Amplitude::of(w, w2, w3, -one),
        }
    }

    /// Times the root of two, which is w - w^3.
    pub fn times_root_two(self) -> Amplitude
        requires { Within (2 ^ 61) self }
        ensures { result ≡ rooted 1 self }
    {
        Amplitude {
            one: self.w - self.w3,
            w: self.one + self.w2,
            w2: self.w + self.w3,
            w3: self.w2 - self.one,
        }
    }

    /// Times the root of two, so many times.
    pub fn rooted(self, times: u8) -> Amplitude
        requires few { times ≤ 61 }
        requires room { Within (2 ^ (61 - times)) self }
        ensures { result ≡ rooted times self }
    {
        let mut result = self;
        for _done in 0..times {
            result = result.times_root_two();
        }
        result
    }
}

/// The laws of amplitudes that the laws of circuits stand on.
pub fn ring_stands() -> u8
    ensures { RingLaws }
{
    0
}
