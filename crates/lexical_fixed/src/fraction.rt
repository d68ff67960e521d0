// The fraction of a number in a text, and digits behind a number. The integer part has been read, and `place` is behind it.
ghost use Rattle.std.specs.Prelude.{◌≡◌, ◌≢◌, ◌<◌, ◌+◌, ◌^◌, ◌-◌, ◌≤◌, IfOk, IsTrue, Some, length, min, nat_lt, pos, slice_get};
ghost use Rattle.std.specs.Option.{option_map};
ghost use Rattle.lexical_util.specs.Number.{HasSign, mul_add, number_if_fits};
ghost use Rattle.lexical_digits.specs.Words.{AreDigits};
ghost use Rattle.lexical_parse_integer.specs.Answer.{view_of};
ghost use Rattle.lexical_parse_integer.specs.Grammar.{range_error};
ghost use Rattle.lexical_parse_integer.specs.Runs.{are_same};
ghost use Rattle.lexical_fixed.specs.Fraction.{digits_from, fraction, fraction_length, has_point_at, is_cut, read_digits, read_zeros};

use crate::append::{append_digits, append_part, digits_at_once};
use crate::format::FixedFormat;
use lexical_util::error::Error;
use lexical_util::num::Integer;
use lexical_util::result::Result;

// How many digits a text begins with.
#[tactic(auto, unfolding(crate::specs::Fraction::digits_from))]
fn count_digits(text: &[u8]) -> usize
    ensures answer { result ≡ digits_from text.now 0 }
    ensures within { result ≤ length text.now }
{
    text.iter().take_while(|byte| byte.is_ascii_digit()).count()
}

// Whether a byte stands at a place.
#[inline(always)]
#[tactic(auto, unfolding(lexical_parse_integer::specs::Runs::are_same))]
pub(crate) fn stands_at(text: &[u8], byte: u8, place: usize) -> bool
    ensures answer { result ≡ are_same (Some byte) (slice_get text.now place) }
    ensures within { IsTrue result → place < length text.now }
{
    text.get(place) == Some(&byte)
}

// Whether the point stands at a place, and the description has places behind it.
#[tactic(auto, unfolding(crate::specs::Fraction::has_point_at))]
pub(crate) fn has_point_at(text: &[u8], format: &FixedFormat, place: usize) -> bool
    ensures answer { result ≡ has_point_at format.now text.now place }
    ensures within { IsTrue result → place < length text.now }
{
    format.places() > 0 && stands_at(text, format.point(), place)
}

// How many digits stand behind the point, where it stands at a place: none without it.
#[inline(always)]
pub(crate) fn digits_behind(text: &[u8], format: &FixedFormat, place: usize) -> usize
    ensures cut { nat_lt format.now.places result ≡ is_cut format.now text.now place }
    ensures count { min format.now.places result ≡ fraction_length format.now text.now place }
    ensures within { result ≢ 0 → place + 1 + result ≤ length text.now }
{
    if !stands_at(text, format.point(), place) {
        return 0;
    }
    count_digits(&text[place + 1..])
}

// The `count` digits of the fraction.
#[inline(always)]
pub(crate) fn fraction<'a>(
    text: &'a [u8],
    format: &FixedFormat,
    place: usize,
    count: usize,
) -> &'a [u8]
    requires count { count ≡ fraction_length format.now text.now place }
    requires room { count ≢ 0 → place + 1 + count ≤ length text.now }
    ensures answer { result.now ≡ fraction format.now text.now place }
    ensures count { length result.now ≡ count }
    ensures digits { AreDigits 10 result.now }
{
    if count == 0 {
        return &text[..0];
    }
    &text[place + 1..place + 1 + count]
}

// The fault of a number that leaves its type at a place.
fn range_fault(is_negative: bool, place: usize) -> Error
    ensures { result ≡ range_error is_negative place }
{
    if is_negative {
        Error::Underflow(place)
    } else {
        Error::Overflow(place)
    }
}

// The number with one digit behind it, where the type has that.
#[inline]
fn append_digit<T: Integer>(number: T, digit: u8, is_negative: bool) -> Option<T>
    requires least { 48 ≤ digit }
    requires greatest { digit < 58 }
    requires sign { HasSign is_negative (T.number number) }
    ensures { option_map T.number result
        ≡ number_if_fits T.TYPE
        (mul_add is_negative (T.number number) (pos 10) (pos (digit - 48))) }
{
    let ten = T::from_u32(10);
    let add = T::from_u32(u32::from(digit - b'0'));
    number.checked_mul_add(ten, add, is_negative)
}

// The number with digits behind it that stand from a place on, or the fault of the first one that takes it out of the type:
// digit by digit.
#[inline(never)]
fn read_each_digit<T: Integer>(
    number: T,
    digits: &[u8],
    place: usize,
    is_negative: bool,
) -> Result<T>
    requires digits { AreDigits 10 digits.now }
    requires sign { HasSign is_negative (T.number number) }
    requires room { place + length digits.now < 2 ^ 64 }
    ensures answer { view_of T.number result
        ≡ read_digits T.TYPE is_negative (T.number number) digits.now place }
    ensures sign { IfOk result (λ value. HasSign is_negative (T.number value)) }
{
    let mut value = number;
    for index in 0..digits.len() {
        match append_digit::<T>(value, digits[index], is_negative) {
            Some(next) => value = next,
            None => return Err(range_fault(is_negative, place + index)),
        }
    }
    Ok(value)
}

// The number with digits behind it, or the fault of the first one that takes it out of the type: at once, where all fit.
#[inline(always)]
pub(crate) fn read_digits<T: Integer>(
    number: T,
    digits: &[u8],
    place: usize,
    is_negative: bool,
) -> Result<T>
    requires digits { AreDigits 10 digits.now }
    requires sign { HasSign is_negative (T.number number) }
    requires room { place + length digits.now < 2 ^ 64 }
    ensures answer { view_of T.number result
        ≡ read_digits T.TYPE is_negative (T.number number) digits.now place }
    ensures sign { IfOk result (λ value. HasSign is_negative (T.number value)) }
{
    if T::BITS >= 32 {
        if let Some(value) = append_digits::<T>(number, digits, is_negative) {
            return Ok(value);
        }
    }
    read_each_digit::<T>(number, digits, place, is_negative)
}

// The number times a power of ten, or a fault where that is outside the type.
#[inline(always)]
pub(crate) fn read_zeros<T: Integer>(
    number: T,
    zeros: usize,
    place: usize,
    is_negative: bool,
) -> Result<T>
    requires sign { HasSign is_negative (T.number number) }
    ensures { view_of T.number result
        ≡ read_zeros T.TYPE is_negative (T.number number) zeros place }
{
    let mut value = number;
    let mut done = 0;
    while done < zeros {
        let count = digits_at_once::<T>().min(zeros - done);
        match append_part::<T>(value, T::ZERO, count, is_negative) {
            Some(next) => value = next,
            None => return Err(range_fault(is_negative, place)),
        }
        done += count;
    }
    Ok(value)
}
