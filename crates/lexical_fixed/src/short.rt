// The fast path for whole texts of up to sixteen bytes, digits around a point or alone. `None` says nothing of the
// text.
ghost use Rattle.std.specs.Prelude.{◌≡◌, ◌≢◌, ◌+◌, ◌-◌, ◌<◌, ◌≤◌, IfSome, IsNone, IsTrue, Ok, length, slice_index, take};
ghost use Rattle.lexical_parse_integer.specs.Plain.{IsBehind};
ghost use Rattle.lexical_fixed.specs.Grammar.{complete_fixed, is_negative};
ghost use Rattle.lexical_fixed.specs.Parted.{IsParted};
ghost use Rattle.lexical_fixed.specs.Quick.{HasPoint, IsBare, IsInUnits, IsJoined, IsValueWithout, begins_with_zero, leads_with_zero, without, without_point};
ghost use Rattle.lexical_fixed.specs.Validity.{fixed_fault};

use crate::append::{append_number, power_of_ten};
use crate::format::FixedFormat;
use crate::joined::{number_without, numbers_without};
use lexical_digits::values::{value_of_parts, value_to_8, value_to_16};
use lexical_parse_integer::laws::grammar::front_digits;
use lexical_parse_integer::quick::is_decimal;
use lexical_util::num::Integer;

/// Whether the first byte is a zero that another byte than the point follows: then the digits are a fault where the
/// integer part's format forbids leading zeros.
#[inline(always)]
pub fn begins_with_zero(digits: &[u8], point: u8) -> bool
    ensures { result ≡ begins_with_zero point digits.now }
{
    digits.len() >= 2 && digits[0] == b'0' && digits[1] != point
}

// Whether the digits begin with such a zero, and the integer part's format forbids it.
#[inline(always)]
pub(crate) fn leads_with_zero(digits: &[u8], format: &FixedFormat) -> bool
    ensures { result ≡ leads_with_zero format.now digits.now }
{
    format.integer().no_integer_leading_zeros() && begins_with_zero(digits, format.point())
}

// What stands behind a minus that is a sign, and whether there is one.
#[inline(always)]
pub(crate) fn behind_minus<T: Integer>(text: &[u8]) -> (bool, &[u8])
    requires { 1 ≤ length text.now }
    ensures behind { IsBehind result.0 T.TYPE text.now result.1.now }
    ensures minus { result.0 ≡ is_negative T.TYPE text.now }
    ensures signed { IsTrue result.0 → IsTrue T.TYPE.is_signed }
{
    let is_negative = T::IS_SIGNED & (text[0] == b'-');
    (is_negative, &text[usize::from(is_negative)..])
}

// The value of the digits of nine to sixteen bytes but for the byte at `place`, which is among the
// last eight, if the type has that value.
#[inline(always)]
fn value_from_9<T: Integer>(digits: &[u8], place: usize, is_negative: bool) -> Option<T>
    requires some { 9 ≤ length digits.now }
    requires few { length digits.now ≤ 16 }
    requires behind { length digits.now ≤ place + 8 }
    requires within { place < length digits.now }
    requires minus { IsTrue is_negative → IsTrue T.TYPE.is_signed }
    ensures { IfSome result
        (λ value. IsValueWithout T.TYPE is_negative place digits.now (T.number value)) }
{
    // Ten digits or more that begin with 5 or above don't fit 32 bits: so a fault is known before
    // they are read.
    if T::BITS <= 32 && digits.len() > 10 && digits[0] > b'4' {
        return None;
    }
    let Some((high, low)) = numbers_without(digits, place) else {
        return None;
    };
    value_of_parts::<T>(high, low, 10_000_000, is_negative)
}

// The value of the digits of four to eight bytes but for the byte at `place`, if the type has it.
#[inline(always)]
fn value_from_4<T: Integer>(digits: &[u8], place: usize, is_negative: bool) -> Option<T>
    requires some { 4 ≤ length digits.now }
    requires few { length digits.now ≤ 8 }
    requires within { place < length digits.now }
    requires minus { IsTrue is_negative → IsTrue T.TYPE.is_signed }
    ensures { IfSome result
        (λ value. IsValueWithout T.TYPE is_negative place digits.now (T.number value)) }
{
    match number_without(digits, place) {
        Some(number) => value_to_8::<T>(number, is_negative),
        None => None,
    }
}

// The value of the digits of four to sixteen bytes but for the byte at `place`, which is among the
// last eight.
#[inline(always)]
pub(crate) fn value_around<T: Integer>(digits: &[u8], place: usize, is_negative: bool) -> Option<T>
    requires some { 4 ≤ length digits.now }
    requires few { length digits.now ≤ 16 }
    requires behind { length digits.now ≤ place + 8 }
    requires within { place < length digits.now }
    requires minus { IsTrue is_negative → IsTrue T.TYPE.is_signed }
    ensures { IfSome result
        (λ value. IsValueWithout T.TYPE is_negative place digits.now (T.number value)) }
{
    if digits.len() <= 8 {
        return value_from_4::<T>(digits, place, is_negative);
    }
    value_from_9::<T>(digits, place, is_negative)
}

// The place of the point, if `count` bytes stand behind it, at least one, and at least one before it.
#[inline(always)]
pub(crate) fn point_before(digits: &[u8], format: &FixedFormat, count: usize) -> Option<usize>
    requires { 2 ≤ length digits.now }
    ensures point { IfSome result (λ place. HasPoint format.now digits.now count) }
    ensures place { IfSome result (λ place. place ≡ length digits.now - 1 - count) }
{
    let size = digits.len();
    if count == 0 || count > size - 2 {
        return None;
    }
    let place = size - 1 - count;
    if digits[place] != format.point() {
        return None;
    }
    Some(place)
}

// How many bytes stand behind the point, if there are at most nine places, and fewer bytes may stand there: 0 is a text
// without a point. It doesn't look for a point with all places behind it.
#[inline(always)]
fn count_behind(digits: &[u8], format: &FixedFormat) -> Option<usize>
    ensures parted { IfSome result (λ count. IsParted format.now digits.now count) }
    ensures few { IfSome result (λ count. format.now.places ≤ 9) }
{
    let places = format.places();
    if !format.takes_fewer() || digits.is_empty() || places > 9 {
        return None;
    }
    let mut count = 1;
    while count < places && count + 2 <= digits.len() {
        if digits[digits.len() - 1 - count] == format.point() {
            return Some(count);
        }
        count += 1;
    }
    Some(0)
}

// The number of the first and the last of three bytes, if they are digits. Written out here, since a call to a reader
// of more digits would cost every text of `value_if_short` registers.
#[inline(always)]
fn number_of_3(digits: &[u8]) -> Option<u32>
    requires three { length digits.now ≡ 3 }
    ensures { IfSome result (IsJoined (without 1 digits.now)) }
{
    let (first, last) = (digits[0], digits[2]);
    if !first.is_ascii_digit() || !last.is_ascii_digit() {
        return None;
    }
    Some(10 * (first - b'0') as u32 + (last - b'0') as u32)
}

// The number of one to eight bytes: digits around the point, which has `count` behind it, or digits alone, if that is 0.
#[inline(always)]
fn number_of_few(digits: &[u8], count: usize) -> Option<u32>
    requires some { 1 ≤ length digits.now }
    requires few { length digits.now ≤ 8 }
    requires before { 1 ≤ count → count + 2 ≤ length digits.now }
    ensures joined { IfSome result (IsJoined (without_point count digits.now)) }
    ensures small { IfSome result (λ number. number < 100000000) }
{
    if count == 0 {
        return value_to_16::<u32>(digits, false);
    }
    if digits.len() == 3 {
        return number_of_3(digits);
    }
    number_without(digits, digits.len() - 1 - count)
}

// The number in units of up to eight bytes, with all places, or fewer if the description takes that.
#[inline(always)]
fn value_of_few<T: Integer, const CALLER: u8>(
    digits: &[u8],
    format: &FixedFormat,
    is_negative: bool,
) -> Option<T>
    requires few { length digits.now ≤ 8 }
    requires minus { IsTrue is_negative → IsTrue T.TYPE.is_signed }
    ensures { IfSome result
        (λ value. IsInUnits format.now T.TYPE is_negative digits.now (T.number value)) }
{
    let places = format.places();
    if digits.len() >= 4 {
        if let Some(place) = point_before(digits, format, places) {
            let number = number_without(digits, place)?;
            return value_to_8::<T>(number, is_negative);
        }
    }
    let count = count_behind(digits, format)?;
    let number = number_of_few(digits, count)?;
    value_of_parts::<T>(number, 0, power_of_ten(places - count), is_negative)
}

// The number in units of nine to sixteen bytes with all places, which are seven at most.
#[inline(always)]
fn value_of_many<T: Integer, const CALLER: u8>(
    digits: &[u8],
    format: &FixedFormat,
    is_negative: bool,
) -> Option<T>
    requires some { 9 ≤ length digits.now }
    requires minus { IsTrue is_negative → IsTrue T.TYPE.is_signed }
    ensures { IfSome result
        (λ value. IsInUnits format.now T.TYPE is_negative digits.now (T.number value)) }
{
    let places = format.places();
    if digits.len() > 16 || places > 7 {
        return None;
    }
    let place = point_before(digits, format, places)?;
    value_from_9::<T>(digits, place, is_negative)
}

// The number in units of nine to sixteen bytes that lack places or the point, if the description takes that.
#[inline(always)]
pub(crate) fn value_filled<T: Integer>(
    digits: &[u8],
    format: &FixedFormat,
    is_negative: bool,
) -> Option<T>
    requires minus { IsTrue is_negative → IsTrue T.TYPE.is_signed }
    ensures { IfSome result
        (λ value. IsInUnits format.now T.TYPE is_negative digits.now (T.number value)) }
{
    if T::BITS < 32 || digits.len() < 9 || digits.len() > 16 {
        return None;
    }
    let count = count_behind(digits, format)?;
    let zeros = format.places() - count;
    if count == 0 {
        let written = value_to_16::<T>(digits, is_negative)?;
        return append_number::<T>(written, 0, zeros, is_negative);
    }
    if count > 7 {
        return None;
    }
    let written = value_from_9::<T>(digits, digits.len() - 1 - count, is_negative)?;
    append_number::<T>(written, 0, zeros, is_negative)
}

/// The number that the whole text stands for. It reads most texts that have, behind an optional minus, nine to sixteen
/// bytes, and fewer digits behind the point than there are places, or no point, if the description takes that. `None`
/// says nothing of the text.
#[inline(always)]
pub fn value_if_fewer<T: Integer>(text: &[u8], format: &FixedFormat) -> Option<T>
    requires valid { IsNone (fixed_fault format.now) }
    requires bare { IsBare format.now.integer }
    ensures { IfSome result
        (λ units. complete_fixed format.now T.TYPE text.now ≡ Ok (T.number units)) }
{
    // The law by which the front has a digit.
    front_digits();
    if text.is_empty() {
        return None;
    }
    let (is_negative, digits) = behind_minus::<T>(text);
    value_filled::<T>(digits, format, is_negative)
}

/// The number that the whole text stands for. It reads most texts that are, behind an optional minus, up to sixteen
/// bytes of digits around a point, with all places, at most seven. If the description takes fewer places, texts of up
/// to eight bytes may have fewer, or no point. `None` says nothing of the text.
///
/// `CALLER` is one of [`callers`](crate::quick::callers), and changes no answer.
#[inline(always)]
pub fn value_if_short<T: Integer, const CALLER: u8>(text: &[u8], format: &FixedFormat) -> Option<T>
    requires valid { IsNone (fixed_fault format.now) }
    ensures { IfSome result
        (λ units. complete_fixed format.now T.TYPE text.now ≡ Ok (T.number units)) }
{
    // The law by which the front has a digit.
    front_digits();
    if !is_decimal(format.integer()) || text.is_empty() {
        return None;
    }
    let (is_negative, digits) = behind_minus::<T>(text);
    if leads_with_zero(digits, format) {
        return None;
    }
    if digits.len() > 8 {
        return value_of_many::<T, CALLER>(digits, format, is_negative);
    }
    value_of_few::<T, CALLER>(digits, format, is_negative)
}
