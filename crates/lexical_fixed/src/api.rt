//! The calls that users make: an integer type reads itself from a fixed-point number.
ghost use Rattle.std.specs.Prelude.{◌≡◌, IsNone};
ghost use Rattle.lexical_parse_integer.specs.Answer.{view_of, with_place};
ghost use Rattle.lexical_fixed.specs.Grammar.{complete_fixed, complete_if_fixed, partial_fixed, partial_if_fixed};
ghost use Rattle.lexical_fixed.specs.Validity.{fixed_fault};

use crate::error::FixedError;
use crate::format::FixedFormat;
use crate::parse::{complete_if_not_short, partial_if_left};
use crate::quick::{callers, front_at_once, value_if_short};
use lexical_util::num::Integer;
use lexical_util::result::Result;

// The number of a whole text that isn't short. Out of line, so that a short one doesn't pay for it.
#[inline(never)]
fn read_not_short<T: Integer>(text: &[u8], format: &FixedFormat) -> Result<T>
    requires valid { IsNone (fixed_fault format.now) }
    ensures { view_of T.number result ≡ complete_fixed format.now T.TYPE text.now }
{
    complete_if_not_short::<T>(text, format)
}

/// An integer type that is read from fixed-point numbers under a valid description.
///
/// It is for callers that test the description once, with [`FixedFormat::is_valid`], and then read many texts.
pub trait ParseFixed: Integer {
    /// The number that the whole text stands for, in units of the last place, as `from_fixed` answers it.
    fn parse_fixed(bytes: &[u8], format: &FixedFormat) -> Result<Self>
        requires valid { IsNone (fixed_fault format.now) }
        ensures { view_of Self.number result ≡ complete_fixed format.now Self.TYPE bytes.now };

    /// The number in front of the text, and the place at which reading stops, as `from_fixed_partial` answers them.
    fn parse_fixed_partial(bytes: &[u8], format: &FixedFormat) -> Result<(Self, usize)>
        requires valid { IsNone (fixed_fault format.now) }
        ensures { view_of (with_place Self.number) result
            ≡ partial_fixed format.now Self.TYPE bytes.now };
}

// The bodies stand here and below, since no `inline` has an effect on those that a trait provides.
impl<T: Integer> ParseFixed for T {
    #[inline(always)]
    fn parse_fixed(bytes: &[u8], format: &FixedFormat) -> Result<T> {
        match value_if_short::<T, { callers::TEXT }>(bytes, format) {
            Some(value) => Ok(value),
            None => read_not_short::<T>(bytes, format),
        }
    }

    #[inline(always)]
    fn parse_fixed_partial(bytes: &[u8], format: &FixedFormat) -> Result<(T, usize)> {
        match front_at_once::<T>(bytes, format) {
            Some(found) => Ok(found),
            None => partial_if_left::<T>(bytes, format),
        }
    }
}

// The number of the whole text, under a description that isn't plain. Out of line, so that a plain one doesn't pay for
// it.
#[inline(never)]
fn whole_under_any<T: Integer>(
    bytes: &[u8],
    format: &FixedFormat,
) -> std::result::Result<T, FixedError>
    ensures { view_of T.number result ≡ complete_if_fixed format.now T.TYPE bytes.now }
{
    match format.error() {
        Some(broken) => Err(FixedError::Format(broken)),
        None => match complete_if_not_short::<T>(bytes, format) {
            Ok(value) => Ok(value),
            Err(error) => Err(FixedError::Text(error)),
        },
    }
}

/// An integer type that is read from fixed-point numbers.
pub trait FromFixed: ParseFixed {
    /// The number that the whole text stands for, in units of the last place: with two places `12.50` is 1250.
    ///
    /// The value is exact, and nothing is rounded. A fault has a place, which counts bytes from 0, and is the first
    /// from left to right:
    ///
    /// - what the format of the integer part forbids: `InvalidPositiveSign`, `MissingSign`, `InvalidLeadingZeros`;
    /// - `Overflow` or `Underflow` at the digit with which the number of the digits so far leaves the type;
    /// - `InvalidDigit` at the first byte that isn't allowed: the digit after the last place in `12.505`, the byte after
    ///   a point without a digit in `12.x`, a point if there are no places;
    /// - `Empty` at the text's end if a digit is missing: after the point in `12.`, or if the description requires more
    ///   digits than there are;
    /// - `Overflow` or `Underflow` at the text's end, where only the zeros that aren't written take the number out of
    ///   the type: with two places `3` as a `u8` is 300.
    ///
    /// A description that is invalid is refused, whatever the text, by the fault of its first broken rule.
    fn from_fixed(bytes: &[u8], format: &FixedFormat) -> std::result::Result<Self, FixedError>
        ensures { view_of Self.number result ≡ complete_if_fixed format.now Self.TYPE bytes.now };

    /// The number in front of the text, in units of the last place, and the place at which reading stops.
    ///
    /// Of `12.50 EUR` with two places the answer is 1250 and 5. A number isn't cut: in `12.505` the digit behind the last
    /// place is `InvalidDigit(5)`, and without places the point of `12.5` is `InvalidDigit(2)`. Where fewer places are
    /// taken, a point without a digit behind it isn't read: `12. And` is 1200 and 2. So is `12.`, which isn't final if
    /// more text may come: `12.50` may follow. If all are required, `Empty` has the place where a digit is missing. So it
    /// does if the integer part has no digit, unless its format needs none.
    fn from_fixed_partial(
        bytes: &[u8],
        format: &FixedFormat,
    ) -> std::result::Result<(Self, usize), FixedError>
        ensures { view_of (with_place Self.number) result
            ≡ partial_if_fixed format.now Self.TYPE bytes.now };
}

impl<T: Integer> FromFixed for T {
    #[inline(always)]
    fn from_fixed(bytes: &[u8], format: &FixedFormat) -> std::result::Result<T, FixedError> {
        if !format.is_plain() {
            return whole_under_any::<T>(bytes, format);
        }
        match T::parse_fixed(bytes, format) {
            Ok(value) => Ok(value),
            Err(error) => Err(FixedError::Text(error)),
        }
    }

    #[inline]
    fn from_fixed_partial(
        bytes: &[u8],
        format: &FixedFormat,
    ) -> std::result::Result<(T, usize), FixedError> {
        match format.error() {
            Some(broken) => Err(FixedError::Format(broken)),
            None => match T::parse_fixed_partial(bytes, format) {
                Ok(found) => Ok(found),
                Err(error) => Err(FixedError::Text(error)),
            },
        }
    }
}
