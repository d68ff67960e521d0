// The number in front of a text.
ghost use Rattle.std.specs.Prelude.{◌≡◌, IsNone, nat_lt};
ghost use Rattle.lexical_util.specs.Validity.{fault};
ghost use Rattle.lexical_parse_integer.specs.Answer.{view_of, with_place};
ghost use Rattle.lexical_parse_integer.specs.CursorView.{IsSound};
ghost use Rattle.lexical_parse_integer.specs.Fronts.{has_digit, number_in_front_if_valid};
ghost use Rattle.lexical_parse_integer.specs.Numeral.{digit_count, numeral_in};
ghost use Rattle.lexical_parse_integer.specs.Reading.{view_at};

use crate::algorithm::front::{Head, head_of};
use crate::api::FromLexicalWithOptions;
use crate::options::{self, Options};
use crate::seek::{Found, seek};
use lexical_util::error::Error;
use lexical_util::format::NumberFormat;
use lexical_util::num::Integer;
use lexical_util::result::Result;

// Whether a digit stands behind the head.
#[inline(always)]
fn has_digit_behind(bytes: &[u8], format: &NumberFormat, head: Head) -> bool
    requires sound { IsSound
        (view_at format.now head.is_prefixed head.radix bytes.now head.start head.start 0) }
    ensures { result ≡ nat_lt 0 (digit_count
        (numeral_in format.now head.is_prefixed head.radix bytes.now head.start)) }
{
    match seek(bytes, format, head.radix, head.start, head.start) {
        Found::Digit(_, _) => true,
        Found::End(_) => false,
    }
}

// Whether the numeral of the text has a digit.
#[inline(always)]
fn has_digit_in<T: Integer>(bytes: &[u8], format: &NumberFormat) -> bool
    requires valid { IsNone (fault format.now) }
    ensures { result ≡ has_digit format.now T.TYPE bytes.now }
{
    match head_of::<T>(bytes, format) {
        Ok(head) => has_digit_behind(bytes, format, head),
        Err(_) => false,
    }
}

// Whether the numeral of the text has a digit, under a format with a separator. Out of line, since few formats have
// one, and a look behind separators needs a stack.
#[inline(never)]
fn has_digit_among<T: Integer>(bytes: &[u8], format: &NumberFormat) -> bool
    requires valid { IsNone (fault format.now) }
    ensures { result ≡ has_digit format.now T.TYPE bytes.now }
{
    has_digit_in::<T>(bytes, format)
}

// Whether the numeral of the text has a digit, under any format.
#[inline(never)]
fn has_digit<T: Integer>(bytes: &[u8], format: &NumberFormat) -> bool
    requires valid { IsNone (fault format.now) }
    ensures { result ≡ has_digit format.now T.TYPE bytes.now }
{
    match format.digit_separator() {
        Some(_) => has_digit_among::<T>(bytes, format),
        None => has_digit_in::<T>(bytes, format),
    }
}

/// The number that stands in front of a text under a format, and the place at which reading stopped.
///
/// It has a digit: where none was read, the fault is `Empty` at the place where reading stopped, whatever the format
/// requires. So `x` is `Err(Empty(0))` and `+a` is `Err(Empty(1))`, which are 0 to `from_lexical_partial`. The zero of
/// a prefix is no digit of the number: under a format with the prefix `x`, `0xg` is `Err(Empty(2))`. All else is
/// answered as by `from_lexical_partial_with_options`; a format that breaks a rule is answered by that rule's fault.
#[inline(always)]
pub fn number_in_front<T: FromLexicalWithOptions<Options = Options>>(
    bytes: &[u8],
    format: &NumberFormat,
) -> Result<(T, usize)>
    ensures { view_of (with_place T.number) result
        ≡ number_in_front_if_valid format.now T.TYPE bytes.now }
{
    match T::from_lexical_partial_with_options(bytes, format, &options::STANDARD) {
        Ok((value, place)) => {
            if value != T::ZERO {
                return Ok((value, place));
            }
            if has_digit::<T>(bytes, format) {
                return Ok((value, place));
            }
            Err(Error::Empty(place))
        }
        Err(error) => Err(error),
    }
}
