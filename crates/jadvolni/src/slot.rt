//! What C keeps a number in.

ghost use Rattle.std.specs.Prelude.{◌≡◌, ℤ};
ghost use Rattle.jadvolni.specs.Halves.{signed_number, unsigned_number};

use crate::halves::{Signed128, Unsigned128};
use lexical_util::num::Integer;

/// What C keeps a number of the type `T` in: a `T`, or two halves.
pub trait Slot<T: Integer> {
    // The number that is kept.
    ghost number: { Self → ℤ };

    /// Stores the value.
    fn put(&mut self, value: T)
        ensures { number self.new ≡ T.number value };
}

impl<T: Integer> Slot<T> for T {
    ghost number = { T.number };

    #[inline(always)]
    fn put(&mut self, value: T) {
        *self = value;
    }
}

impl Slot<u128> for Unsigned128 {
    ghost number = { unsigned_number };

    #[inline(always)]
    fn put(&mut self, value: u128) {
        *self = Unsigned128::of(value);
    }
}

impl Slot<i128> for Signed128 {
    ghost number = { signed_number };

    #[inline(always)]
    fn put(&mut self, value: i128) {
        *self = Signed128::of(value);
    }
}
