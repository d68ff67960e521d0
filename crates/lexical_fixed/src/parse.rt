// The parsers of fixed-point numbers, for valid descriptions.
ghost use Rattle.std.specs.Prelude.{◌≡◌, ◌≢◌, ◌≤◌, ◌+◌, ◌&&◌, IfOk, IsNone, length, nat_lt, not};
ghost use Rattle.lexical_util.specs.Number.{HasSign};
ghost use Rattle.lexical_util.specs.Validity.{fault};
ghost use Rattle.lexical_parse_integer.specs.Answer.{view_of, with_place};
ghost use Rattle.lexical_parse_integer.specs.Fronts.{number_in_front};
ghost use Rattle.lexical_parse_integer.specs.Grammar.{digits_required};
ghost use Rattle.lexical_fixed.specs.Fraction.{fraction_length, front_end, whole_end};
ghost use Rattle.lexical_fixed.specs.Grammar.{complete_fixed, front_behind, integer_part, is_negative, partial_fixed, units_behind, whole_behind, whole_fault};
ghost use Rattle.lexical_fixed.specs.Quick.{IsBare};
ghost use Rattle.lexical_fixed.specs.Validity.{fixed_fault};

use crate::by_point::complete_by_point;
use crate::format::FixedFormat;
use crate::fraction::{digits_behind, fraction, has_point_at, read_digits, read_zeros};
use crate::parted::{value_if_decimal, whole_at_once};
use crate::quick::plain_part;
use lexical_parse_integer::parse::ParseInteger;
use lexical_parse_integer::quick::is_decimal;
use lexical_parse_integer::{number_in_front, options};
use lexical_util::error::Error;
use lexical_util::format::NumberFormat;
use lexical_util::num::Integer;
use lexical_util::result::Result;

// Whether the format asks for a digit.
fn digits_required(format: &NumberFormat) -> bool
    ensures { result ≡ digits_required format.now }
{
    format.required_integer_digits() || format.required_mantissa_digits()
}

// The number in front of a text, and the place behind it.
fn number_with_digit<T: Integer>(text: &[u8], format: &NumberFormat) -> Result<(T, usize)>
    requires valid { IsNone (fault format.now) }
    ensures { view_of (with_place T.number) result ≡ number_in_front format.now T.TYPE text.now }
{
    number_in_front::<T>(text, format)
}

// The integer part in front of a text, and the place behind it, for a text that `plain_part` doesn't read.
#[tactic(auto, unfolding(crate::specs::Grammar::integer_part))]
#[inline(never)]
fn part_by_format<T: Integer>(text: &[u8], format: &NumberFormat) -> Result<(T, usize)>
    requires valid { IsNone (fault format.now) }
    ensures answer { view_of (with_place T.number) result
        ≡ integer_part format.now T.TYPE text.now }
    ensures within { IfOk result (λ found. found.1 ≤ length text.now) }
    ensures sign { IfOk result (λ found. HasSign (is_negative T.TYPE text.now) (T.number found.0)) }
{
    if digits_required(format) {
        number_with_digit::<T>(text, format)
    } else {
        T::parse_partial(text, format, &options::STANDARD)
    }
}

// The integer part in front of a text, and the place behind it: most are digits alone.
#[inline(always)]
fn integer_part<T: Integer>(text: &[u8], format: &FixedFormat) -> Result<(T, usize)>
    requires valid { IsNone (fixed_fault format.now) }
    ensures answer { view_of (with_place T.number) result
        ≡ integer_part format.now.integer T.TYPE text.now }
    ensures within { IfOk result (λ found. found.1 ≤ length text.now) }
    ensures sign { IfOk result (λ found. HasSign (is_negative T.TYPE text.now) (T.number found.0)) }
{
    match plain_part::<T>(text, format) {
        Some(found) => Ok(found),
        None => part_by_format::<T>(text, format.integer()),
    }
}

// Whether a text has a minus.
#[tactic(auto, unfolding(crate::specs::Grammar::is_negative, lexical_parse_integer::specs::Runs::are_same))]
#[inline(always)]
pub(crate) fn is_negative<T: Integer>(text: &[u8]) -> bool
    ensures { result ≡ is_negative T.TYPE text.now }
{
    T::IS_SIGNED && text.first() == Some(&b'-')
}

// A fault of the integer part, as that of a whole text of this size: `Empty` before the text's end becomes
// `InvalidDigit`, since a byte stands there.
fn whole_fault(size: usize, error: Error) -> Error
    ensures { result ≡ whole_fault size error }
{
    match error {
        Error::Empty(place) if place < size => Error::InvalidDigit(place),
        other => other,
    }
}

// The number in units behind an integer part that ends at a place, where the fraction has `count` digits. Reading stops at
// `stop`, where a byte can't stand or a digit is missing.
#[inline(always)]
fn units_behind<T: Integer>(
    text: &[u8],
    format: &FixedFormat,
    whole: T,
    place: usize,
    count: usize,
    stop: usize,
    cannot_stand: bool,
    is_missing: bool,
) -> Result<T>
    requires within { place ≤ length text.now }
    requires sign { HasSign (is_negative T.TYPE text.now) (T.number whole) }
    requires count { count ≡ fraction_length format.now text.now place }
    requires room { count ≢ 0 → place + 1 + count ≤ length text.now }
    ensures { view_of T.number result
        ≡ units_behind format.now T.TYPE text.now (T.number whole) place
        stop cannot_stand is_missing }
{
    let is_negative = is_negative::<T>(text);
    let digits = fraction(text, format, place, count);
    let written = match read_digits::<T>(whole, digits, place + 1, is_negative) {
        Ok(written) => written,
        Err(error) => return Err(error),
    };
    if cannot_stand {
        return Err(Error::InvalidDigit(stop));
    }
    if is_missing {
        return Err(Error::Empty(stop));
    }
    let zeros = format.places() - count;
    read_zeros::<T>(written, zeros, stop, is_negative)
}

// Where a number ends that has to be the whole text, where the fraction has `count` digits.
#[inline(always)]
#[tactic(auto, unfolding(crate::specs::Fraction::whole_end))]
fn whole_end(text: &[u8], format: &FixedFormat, place: usize, count: usize) -> usize
    requires within { place ≤ length text.now }
    requires count { count ≡ fraction_length format.now text.now place }
    requires room { count ≢ 0 → place + 1 + count ≤ length text.now }
    ensures { result ≡ whole_end format.now text.now place }
{
    if has_point_at(text, format, place) {
        place + 1 + count
    } else {
        place
    }
}

// Where a number in front ends, where the fraction has `count` digits.
#[inline(always)]
#[tactic(auto, unfolding(crate::specs::Fraction::front_end))]
fn front_end(text: &[u8], format: &FixedFormat, place: usize, count: usize) -> usize
    requires within { place ≤ length text.now }
    requires count { count ≡ fraction_length format.now text.now place }
    requires room { count ≢ 0 → place + 1 + count ≤ length text.now }
    ensures { result ≡ front_end format.now text.now place }
{
    if format.takes_fewer() && count == 0 {
        place
    } else {
        whole_end(text, format, place, count)
    }
}

// Whether a fraction of `count` digits has fewer than asked for.
#[inline(always)]
fn lacks_places(format: &FixedFormat, count: usize) -> bool
    ensures { result ≡ (not format.now.takes_fewer && nat_lt count format.now.places) }
{
    !format.takes_fewer() && count < format.places()
}

// What the whole text stands for, behind its integer part.
#[inline(always)]
#[tactic(auto, unfolding(crate::specs::Grammar::whole_behind, crate::specs::Fraction::has_bare_point, crate::specs::Fraction::lacks_places))]
pub(crate) fn whole_behind<T: Integer>(
    text: &[u8],
    format: &FixedFormat,
    whole: T,
    place: usize,
) -> Result<T>
    requires within { place ≤ length text.now }
    requires sign { HasSign (is_negative T.TYPE text.now) (T.number whole) }
    ensures { view_of T.number result
        ≡ whole_behind format.now T.TYPE text.now (T.number whole) place }
{
    let count = format.places().min(digits_behind(text, format, place));
    let stop = whole_end(text, format, place, count);
    let is_left = stop < text.len();
    let is_bare = has_point_at(text, format, place) && count == 0;
    let is_missing = is_bare || lacks_places(format, count);
    units_behind::<T>(text, format, whole, place, count, stop, is_left, is_missing)
}

// What the front of the text stands for, behind its integer part, and the place at which reading stops.
#[inline(always)]
#[tactic(auto, unfolding(crate::specs::Grammar::front_behind, crate::specs::Fraction::lacks_places))]
fn front_behind<T: Integer>(
    text: &[u8],
    format: &FixedFormat,
    whole: T,
    place: usize,
) -> Result<(T, usize)>
    requires within { place ≤ length text.now }
    requires sign { HasSign (is_negative T.TYPE text.now) (T.number whole) }
    ensures { view_of (with_place T.number) result
        ≡ front_behind format.now T.TYPE text.now (T.number whole) place }
{
    let digits = digits_behind(text, format, place);
    let is_cut = digits > format.places();
    let count = format.places().min(digits);
    let stop = front_end(text, format, place, count);
    let is_missing = lacks_places(format, count);
    match units_behind::<T>(text, format, whole, place, count, stop, is_cut, is_missing) {
        Ok(value) => Ok((value, stop)),
        Err(error) => Err(error),
    }
}

// What the whole text stands for, where the fast path gave up.
#[tactic(auto, unfolding(crate::specs::Grammar::complete_fixed))]
#[inline(never)]
pub(crate) fn read_whole<T: Integer>(text: &[u8], format: &FixedFormat) -> Result<T>
    requires valid { IsNone (fixed_fault format.now) }
    ensures { view_of T.number result ≡ complete_fixed format.now T.TYPE text.now }
{
    match integer_part::<T>(text, format) {
        Ok((whole, place)) => whole_behind::<T>(text, format, whole, place),
        Err(error) => Err(whole_fault(text.len(), error)),
    }
}

/// The number in front of the text, and the place at which reading stops: best called after `front_at_once`.
#[tactic(auto, unfolding(crate::specs::Grammar::partial_fixed))]
#[inline(never)]
pub fn partial_if_left<T: Integer>(text: &[u8], format: &FixedFormat) -> Result<(T, usize)>
    requires valid { IsNone (fixed_fault format.now) }
    ensures { view_of (with_place T.number) result ≡ partial_fixed format.now T.TYPE text.now }
{
    match integer_part::<T>(text, format) {
        Ok((whole, place)) => front_behind::<T>(text, format, whole, place),
        Err(error) => Err(error),
    }
}

/// The number that the whole text stands for: best called after `value_if_short` and `value_if_fewer`.
#[inline(always)]
pub fn complete_if_long<T: Integer>(text: &[u8], format: &FixedFormat) -> Result<T>
    requires valid { IsNone (fixed_fault format.now) }
    requires bare { IsBare format.now.integer }
    ensures { view_of T.number result ≡ complete_fixed format.now T.TYPE text.now }
{
    match whole_at_once::<T>(text, format) {
        Some(units) => Ok(units),
        None => read_whole::<T>(text, format),
    }
}

/// The number that the whole text stands for: best called after `value_if_short`.
#[inline(always)]
pub fn complete_if_not_short<T: Integer>(text: &[u8], format: &FixedFormat) -> Result<T>
    requires valid { IsNone (fixed_fault format.now) }
    ensures { view_of T.number result ≡ complete_fixed format.now T.TYPE text.now }
{
    if is_decimal(format.integer()) {
        if let Some(units) = value_if_decimal::<T>(text, format) {
            return Ok(units);
        }
    }
    complete_by_point::<T>(text, format)
}
