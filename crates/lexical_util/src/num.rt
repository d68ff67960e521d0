//! The integer types, which contracts see as whole numbers.

ghost use Rattle.std.specs.Prelude.{◌≡◌, ◌↔◌, ◌≤ℤ◌, ℕ, ℤ, Bool, Some, IsTrue, pos};
ghost use Rattle.std.specs.Option.{option_map};
ghost use Rattle.std.specs.Ordering.{int_cmp};
ghost use Rattle.lexical_util.specs.Digit.{IsRadix};
ghost use Rattle.lexical_util.specs.Number.{HasRoom, HasSign, IsNumber, IsWidth};
ghost use Rattle.lexical_util.specs.Number.{IntegerType, number_if_fits, mul_add, overflow_digits};

// The body of `mul_add` of each type.
macro_rules! mul_add {
    ($value:expr, $scale:expr, $add:expr, $negative:expr) => {{
        let product = $value * $scale;
        if $negative {
            product - $add
        } else {
            product + $add
        }
    }};
}

// The body of `checked_mul_add` of each type.
macro_rules! checked_mul_add {
    ($value:expr, $scale:expr, $add:expr, $negative:expr) => {{
        let product = $value.checked_mul($scale)?;
        if $negative {
            product.checked_sub($add)
        } else {
            product.checked_add($add)
        }
    }};
}

mod signed;
mod unsigned;

/// An integer type, whose values are whole numbers.
///
/// Its numbers are 0 to `2^BITS - 1`, or `-2^(BITS-1)` to `2^(BITS-1) - 1` where it is signed. The
/// twelve primitive types implement it; `usize` and `isize` are 64 bits wide.
///
/// A function with this bound is proved once, from the contracts and the laws here, for
/// every type that keeps them.
pub trait Integer: Copy + Eq + Ord {
    // The whole number that a value stands for.
    ghost number: { Self → ℤ };

    ghost ZERO: { Self };

    // The type as the definitions have it: its width and its sign.
    ghost TYPE: { IntegerType };

    ghost BITS: { ℕ };

    ghost IS_SIGNED: { Bool };

    /// The value of the number 0.
    const ZERO: Self;

    /// The width in bits: 8, 16, 32, 64 or 128.
    const BITS: u32;

    /// Whether the type has numbers below 0.
    const IS_SIGNED: bool;

    /// The value of the number `v`, which has to be a number of the type.
    ///
    /// Numbers up to 127 are numbers of every type, and so are all digits and all radixes.
    fn from_u32(v: u32) -> Self
        requires { IsNumber TYPE (pos v) }
        ensures { number result ≡ pos v };

    /// One more digit of a numeral: `self * scale + add`, or `self * scale - add` where `negative`.
    ///
    /// `scale` has to be at least 1 and `add` at least 0; `self` has to be at most 0 where
    /// `negative` and at least 0 elsewhere; and the result has to be a number of the type. So a
    /// negative numeral is accumulated by subtraction, and reaches the type's least number: with the
    /// scale 10 the `i8` -12 and the digit 8 give -128.
    fn mul_add(self, scale: Self, add: Self, negative: bool) -> Self
        requires scale { pos 1 ≤ℤ number scale }
        requires add { pos 0 ≤ℤ number add }
        requires sign { HasSign negative (number self) }
        requires fits { IsNumber TYPE (mul_add negative (number self) (number scale) (number add)) }
        ensures { number result ≡ mul_add negative (number self) (number scale) (number add) };

    /// `mul_add` where its result is a number of the type, and `None` elsewhere.
    ///
    /// `scale`, `add` and `self` have to be as for `mul_add`. With the scale 10 the `u8` 25 and the
    /// digit 5 give `Some(255)`, and 25 and 6 give `None`.
    fn checked_mul_add(self, scale: Self, add: Self, negative: bool) -> Option<Self>
        requires scale { pos 1 ≤ℤ number scale }
        requires add { pos 0 ≤ℤ number add }
        requires sign { HasSign negative (number self) }
        ensures { option_map number result ≡ number_if_fits TYPE
            (mul_add negative (number self) (number scale) (number add)) };

    /// How many digits `mul_add` can join without a test: no numeral of that length leaves the
    /// type, not even with a minus if the type is signed.
    ///
    /// The radix has to be from 2 to 36. For a radix up to 16 it is two digits a byte, less one where the type is
    /// signed, and above 16 one digit a byte: `u8` has 2 for 16 and 1 for 17, `i8` has 1 for both. It isn't always the
    /// greatest such number: in radix 10 `u64` has room for 19 digits, and the answer is 16. The rule is that of the
    /// Rust crate `lexical-parse-integer`.
    #[inline(always)]
    fn overflow_digits(radix: u32) -> usize
        requires { IsRadix radix }
        ensures value { result ≡ overflow_digits TYPE radix }
        ensures room { HasRoom TYPE radix result }
    {
        let bytes = (Self::BITS / 8) as usize;
        if radix <= 16 {
            2 * bytes - usize::from(Self::IS_SIGNED)
        } else {
            bytes
        }
    }

    // Equality and order are those of the numbers.
    ghost eq_law: { (a b : Self) → IsTrue (Self.eq a b) ↔ (number a ≡ number b) };

    ghost order_law: { (a b : Self) → Self.partial_cmp a b ≡ Some (int_cmp (number a) (number b)) };

    ghost cmp_law: { (a b : Self) → Self.cmp a b ≡ int_cmp (number a) (number b) };

    // No two values stand for one number.
    ghost injective_law: { (a b : Self) → number a ≡ number b → a ≡ b };

    ghost zero_law: { number ZERO ≡ pos 0 };

    ghost bits_law: { BITS ≡ TYPE.bits };

    ghost sign_law: { IS_SIGNED ≡ TYPE.is_signed };

    ghost width_law: { IsWidth TYPE.bits };
}
