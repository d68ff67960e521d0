// Whole texts, read by their last point. Short ones are read by words. In others the bytes before the point are read as
// an integer under the integer part's format, which may have a separator, or rules on zeros and signs. A fault in them
// is that of the text.
ghost use Rattle.std.specs.Prelude.{◌≡◌, ◌<◌, ◌≤◌, ◌^◌, IfSome, IsNone, IsTrue, None, Ok, false, length, true};
ghost use Rattle.lexical_util.specs.Digit.{digit};
ghost use Rattle.lexical_util.specs.Number.{HasSign, IntegerType, IsNumber, integer_type};
ghost use Rattle.lexical_digits.specs.Value.{with_sign};
ghost use Rattle.lexical_parse_integer.specs.Answer.{view_of};
ghost use Rattle.lexical_fixed.specs.Around.{IsShortAmount};
ghost use Rattle.lexical_fixed.specs.Grammar.{complete_fixed, integer_part, is_negative, whole_behind};
ghost use Rattle.lexical_fixed.specs.Parted.{IsParted, IsToldBefore, point_place};
ghost use Rattle.lexical_fixed.specs.Validity.{fixed_fault};

use crate::append::append_digits;
use crate::around::value_around_point;
use crate::format::FixedFormat;
use crate::fraction::{read_zeros, stands_at};
use crate::parse::{is_negative, read_whole, whole_behind};
use crate::parted::{places_written, point_place};
use crate::quick::callers;
use crate::short::{behind_minus, point_before};
use lexical_laws::foreign_bytes;
use lexical_parse_integer::laws::grammar::complete_by_partial;
use lexical_parse_integer::quick::{complete_valid, keeps_zero_rule};
use lexical_util::digit::char_is_digit;
use lexical_util::error::Error;
use lexical_util::num::Integer;
use lexical_util::result::Result;

// How many bytes stand behind the point that ends the integer part, 0 where there is no point. `None` says nothing of
// the text: no point is in its place, the point is a letter, or the type has fewer than 32 bits.
#[inline(always)]
fn count_behind_point<T: Integer>(text: &[u8], format: &FixedFormat) -> Option<usize>
    ensures parted { IfSome result (IsParted format.now text.now) }
    ensures foreign { IfSome result (λ count. digit 36 format.now.point ≡ None) }
    ensures bits { IfSome result (λ count. 32 ≤ T.TYPE.bits) }
{
    if T::BITS < 32 || char_is_digit(format.point(), 36) {
        return None;
    }
    places_written(text, format)
}

// The number in units, for an integer part that is followed by a point and `count` digits alone, or by nothing if
// `count` is 0.
#[inline(always)]
fn units_at_once<T: Integer>(text: &[u8], format: &FixedFormat, whole: T, count: usize) -> Option<T>
    requires bits { 32 ≤ T.TYPE.bits }
    requires parted { IsParted format.now text.now count }
    requires sign { HasSign (is_negative T.TYPE text.now) (T.number whole) }
    ensures { IfSome result (λ units. whole_behind format.now T.TYPE text.now (T.number whole)
        (point_place text.now count) ≡ Ok (T.number units)) }
{
    let is_negative = is_negative::<T>(text);
    let size = text.len();
    let Some(written) = append_digits::<T>(whole, &text[size - count..], is_negative) else {
        return None;
    };
    let zeros = format.places() - count;
    match read_zeros::<T>(written, zeros, size, is_negative) {
        Ok(units) => Some(units),
        Err(_) => None,
    }
}

// What the text stands for, whose integer part ends at a place, with `count` bytes behind its point.
#[inline(always)]
fn units_behind_part<T: Integer>(
    text: &[u8],
    format: &FixedFormat,
    whole: T,
    count: usize,
    place: usize,
) -> Result<T>
    requires bits { 32 ≤ T.TYPE.bits }
    requires parted { IsParted format.now text.now count }
    requires place { place ≡ point_place text.now count }
    requires part { integer_part format.now.integer T.TYPE text.now ≡ Ok (T.number whole, place) }
    ensures { view_of T.number result ≡ complete_fixed format.now T.TYPE text.now }
{
    match units_at_once::<T>(text, format, whole, count) {
        Some(units) => Ok(units),
        None => whole_behind::<T>(text, format, whole, place),
    }
}

// Whether a fault before the point is surely that of the text: no digit is missing, and no other point stands at its place.
fn is_told_before(text: &[u8], format: &FixedFormat, error: Error) -> bool
    ensures { IsTrue result → IsToldBefore format.now text.now error }
{
    match error {
        Error::InvalidDigit(place) => !stands_at(text, format.point(), place),
        Error::Empty(_) => false,
        _ => true,
    }
}

// The number in units of up to sixteen bytes: digits around a point, with `count` of them behind it, at most seven. If
// there are at most three, the digits before the point may stand in groups of three.
#[inline(always)]
fn value_by_words<T: Integer, const CALLER: u8>(
    digits: &[u8],
    format: &FixedFormat,
    count: usize,
    is_negative: bool,
) -> Option<T>
    requires valid { IsNone (fixed_fault format.now) }
    requires room { count ≤ format.now.places }
    requires minus { IsTrue is_negative → IsTrue T.TYPE.is_signed }
    ensures { IfSome result (λ value. IsShortAmount format.now T.TYPE is_negative digits.now count
        (T.number value)) }
{
    if count == 0 || count > 7 {
        return None;
    }
    if format.integer().required_mantissa_sign() {
        return None;
    }
    let size = digits.len();
    if size < 4 || size < count + 2 || size > 16 {
        return None;
    }
    let place = size - 1 - count;
    if !keeps_zero_rule(format.integer(), &digits[..place]) {
        return None;
    }
    let written = value_around_point::<T, CALLER>(digits, format.integer(), place, is_negative)?;
    match read_zeros::<T>(written, format.places() - count, 0, is_negative) {
        Ok(units) => Some(units),
        Err(_) => None,
    }
}

// The number of a short text, as `value_by_words` reads it.
#[inline(always)]
fn units_by_words<T: Integer>(text: &[u8], format: &FixedFormat, count: usize) -> Option<T>
    requires valid { IsNone (fixed_fault format.now) }
    requires foreign { digit 36 format.now.point ≡ None }
    requires parted { IsParted format.now text.now count }
    ensures { IfSome result
        (λ units. complete_fixed format.now T.TYPE text.now ≡ Ok (T.number units)) }
{
    // The laws by which the point ends the integer part.
    foreign_bytes();
    complete_by_partial();
    let (is_negative, digits) = behind_minus::<T>(text);
    value_by_words::<T, { callers::TEXT }>(digits, format, count, is_negative)
}

// The number of a cell's digits, as `value_by_words` reads it. Out of line: inlined, it makes the reader of the cell too large.
#[inline(never)]
fn number_of_cell(digits: &[u8], format: &FixedFormat, count: usize) -> Option<i64>
    requires valid { IsNone (fixed_fault format.now) }
    requires room { count ≤ format.now.places }
    ensures { IfSome result
        (λ value. IsShortAmount format.now (integer_type 64 true) false digits.now count value) }
{
    value_by_words::<i64, { callers::CELL }>(digits, format, count, false)
}

// How many bytes stand behind the point. It is looked for first where it would have all places behind it.
#[inline(always)]
fn places_in_cell(text: &[u8], format: &FixedFormat) -> Option<usize>
    requires { 2 ≤ length text.now }
    ensures { IfSome result (IsParted format.now text.now) }
{
    let places = format.places();
    if point_before(text, format, places).is_some() {
        return Some(places);
    }
    places_written(text, format)
}

/// The number that a whole text stands for, in each type that has it, and whether a minus stands in front. It reads
/// most texts that are, behind an optional minus, up to sixteen bytes of digits around a point. All places stand behind
/// the point, or fewer if the description takes that, and at most seven; if there are at most three, the digits before
/// the point may stand in groups of three. `None` says nothing of the text.
#[inline(always)]
pub fn units_in_groups(text: &[u8], format: &FixedFormat) -> Option<(bool, u64)>
    requires valid { IsNone (fixed_fault format.now) }
    ensures stands { IfSome result (λ found. (type : IntegerType)
        → (IsTrue found.0 → type.is_signed ≡ true) → IsNumber type (with_sign found.0 found.1)
        → complete_fixed format.now type text.now ≡ Ok (with_sign found.0 found.1)) }
    ensures small { IfSome result (λ found. found.1 < 2 ^ 63) }
{
    // The laws by which the point ends the integer part.
    foreign_bytes();
    complete_by_partial();
    if text.len() < 2 || char_is_digit(format.point(), 36) {
        return None;
    }
    let count = places_in_cell(text, format)?;
    let (is_negative, digits) = behind_minus::<i64>(text);
    let number = number_of_cell(digits, format, count)?;
    Some((is_negative, number as u64))
}

// What the text stands for, with `count` bytes behind the point that ends its integer part.
#[inline(never)]
fn read_by_point<T: Integer>(text: &[u8], format: &FixedFormat, count: usize) -> Result<T>
    requires valid { IsNone (fixed_fault format.now) }
    requires bits { 32 ≤ T.TYPE.bits }
    requires foreign { digit 36 format.now.point ≡ None }
    requires parted { IsParted format.now text.now count }
    ensures { view_of T.number result ≡ complete_fixed format.now T.TYPE text.now }
{
    if let Some(units) = units_by_words::<T>(text, format, count) {
        return Ok(units);
    }
    // The laws by which the point ends the integer part, and by which a fault before it is known.
    foreign_bytes();
    complete_by_partial();
    let place = point_place(text, count);
    match complete_valid::<T>(&text[..place], format.integer()) {
        Ok(whole) => units_behind_part::<T>(text, format, whole, count, place),
        Err(error) => {
            if is_told_before(text, format, error) {
                return Err(error);
            }
            read_whole::<T>(text, format)
        }
    }
}

// What the whole text stands for. A text whose point isn't in its place costs one more look.
#[inline(always)]
pub(crate) fn complete_by_point<T: Integer>(text: &[u8], format: &FixedFormat) -> Result<T>
    requires valid { IsNone (fixed_fault format.now) }
    ensures { view_of T.number result ≡ complete_fixed format.now T.TYPE text.now }
{
    match count_behind_point::<T>(text, format) {
        Some(count) => read_by_point::<T>(text, format, count),
        None => read_whole::<T>(text, format),
    }
}
