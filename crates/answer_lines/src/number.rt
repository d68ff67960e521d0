//! Integers of every type as one type of number.

ghost use Rattle.std.specs.Prelude.{◌≡◌, ◌↔◌, ◌<◌, ◌<ℤ◌, pos, IsTrue, unsigned_abs};

use std::fmt;
use std::marker::Model;

/// An integer of any of the twelve types. Contracts see it as a whole number.
#[derive(Debug, Drop)]
pub struct Number {
    is_negative: bool,
    magnitude: u128,
}

impl Model for Number {
    ghost use Rattle.std.specs.Prelude.{◌<◌, IsTrue, ℤ};
    ghost use Rattle.lexical_parse_integer.specs.Value.{with_sign};

    ghost Value = { ℤ };

    ghost view = { λ n. with_sign n.is_negative n.magnitude };

    ghost invariant = { λ n. IsTrue n.is_negative → 0 < n.magnitude };
}

/// A number from 0 up.
impl From<u128> for Number {
    ghost from_gives = { λ n number. number ≡ pos n };

    #[inline(always)]
    fn from(n: u128) -> Number {
        Number {
            is_negative: false,
            magnitude: n,
        }
    }
}

/// A number that may be negative.
impl From<i128> for Number {
    ghost from_gives = { λ z number. number ≡ z };

    #[inline(always)]
    fn from(z: i128) -> Number {
        Number {
            is_negative: z < 0,
            magnitude: z.unsigned_abs(),
        }
    }
}

/// Its decimal digits, after a minus where it is below 0.
impl fmt::Display for Number {
    ghost use Rattle.std.specs.Prelude.{Some};
    ghost use Rattle.std.specs.Fmt.{signed_decimal};

    ghost output = { λ number. Some (signed_decimal number) };

    fn fmt<W: fmt::Write>(&self, f: &mut fmt::Formatter<W>) -> fmt::Result {
        if self.is_negative {
            return write!(f, "-{}", self.magnitude);
        }
        write!(f, "{}", self.magnitude)
    }
}

impl Number {
    /// Whether it is below 0.
    pub fn is_negative(&self) -> bool
        ensures { IsTrue result ↔ (self.now <ℤ pos 0) }
    {
        self.is_negative
    }

    /// Its distance from 0.
    pub fn magnitude(&self) -> u128
        ensures { result ≡ unsigned_abs self.now }
    {
        self.magnitude
    }
}
