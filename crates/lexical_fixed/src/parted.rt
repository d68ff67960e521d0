// The fast path for whole texts of any length: digits around a point, with all places behind it, or fewer where the
// description takes that, or digits alone. `None` says nothing of the text.
ghost use Rattle.std.specs.Prelude.{◌≡◌, ◌+◌, ◌≤◌, ℕ, List, IfSome, IsNone, IsTrue, Ok, false, length};
ghost use Rattle.lexical_parse_integer.specs.Plain.{IsBehind, IsPlain};
ghost use Rattle.lexical_fixed.specs.Grammar.{complete_fixed, is_negative};
ghost use Rattle.lexical_fixed.specs.Parted.{IsParted, IsSummed, point_place};
ghost use Rattle.lexical_fixed.specs.Quick.{leads_with_zero};
ghost use Rattle.lexical_fixed.specs.Validity.{fixed_fault};

use crate::append::append_digits;
use crate::format::FixedFormat;
use crate::fraction::read_zeros;
use crate::short::{behind_minus, leads_with_zero, value_filled};
use lexical_digits::fronts::value_of_digits;
use lexical_parse_integer::laws::grammar::front_digits;
use lexical_util::num::Integer;

// How many bytes stand behind the point, the last of them a digit: as many as there are places, or fewer if the description
// takes that. 0 says that none stands there.
#[inline(always)]
pub(crate) fn places_written(digits: &[u8], format: &FixedFormat) -> Option<usize>
    ensures { IfSome result (IsParted format.now digits.now) }
{
    let size = digits.len();
    // Most faults are bytes behind a number. Without this test the digits before them would be read
    // in vain.
    if size == 0 || !digits[size - 1].is_ascii_digit() {
        return None;
    }
    let places = format.places();
    let most = places.min(size.saturating_sub(2));
    let mut count = if format.takes_fewer() { 1 } else { places };
    while 0 < count && count <= most {
        if digits[size - 1 - count] == format.point() {
            return Some(count);
        }
        count += 1;
    }
    if places > 0 && !format.takes_fewer() {
        return None;
    }
    Some(0)
}

// Where the bytes before the point end, if it has `count` bytes behind it. If `count` is 0, there is no point.
#[inline(always)]
pub(crate) fn point_place(digits: &[u8], count: usize) -> usize
    requires { 1 ≤ count → count + 2 ≤ length digits.now }
    ensures answer { result ≡ point_place digits.now count }
    ensures within { result ≤ length digits.now }
{
    if count == 0 {
        return digits.len();
    }
    digits.len() - 1 - count
}

// The value of the digits as they are written: those of an integer part, and a fraction of `count`
// digits.
#[inline(always)]
fn value_as_written<T: Integer>(digits: &[u8], count: usize, is_negative: bool) -> Option<T>
    requires bits { 32 ≤ T.TYPE.bits }
    requires minus { IsTrue is_negative → IsTrue T.TYPE.is_signed }
    requires some { 1 ≤ length digits.now }
    requires before { 1 ≤ count → count + 2 ≤ length digits.now }
    ensures { IfSome result
        (λ value. IsSummed T.TYPE is_negative digits.now count (T.number value)) }
{
    let size = digits.len();
    let place = point_place(digits, count);
    let Some(whole) = value_of_digits::<T>(&digits[..place], is_negative) else {
        return None;
    };
    append_digits::<T>(whole, &digits[size - count..], is_negative)
}

// The number that the whole text stands for. Each range of lengths has a reader of its own.
#[inline(always)]
pub(crate) fn whole_at_once<T: Integer>(text: &[u8], format: &FixedFormat) -> Option<T>
    requires valid { IsNone (fixed_fault format.now) }
    requires plain { IsPlain format.now.integer }
    requires zeros { (digits : List ℕ)
        → IsBehind (is_negative T.TYPE text.now) T.TYPE text.now digits
        → leads_with_zero format.now digits ≡ false }
    ensures { IfSome result
        (λ units. complete_fixed format.now T.TYPE text.now ≡ Ok (T.number units)) }
{
    // The law by which the front has a digit.
    front_digits();
    if T::BITS < 32 || text.is_empty() {
        return None;
    }
    let (is_negative, digits) = behind_minus::<T>(text);
    let Some(count) = places_written(digits, format) else {
        return None;
    };
    let Some(written) = value_as_written::<T>(digits, count, is_negative) else {
        return None;
    };
    let zeros = format.places() - count;
    match read_zeros::<T>(written, zeros, text.len(), is_negative) {
        Ok(units) => Some(units),
        Err(_) => None,
    }
}

// The number that the whole text stands for, with all places or fewer. Out of line, so that its callers stay small.
#[inline(never)]
pub(crate) fn value_if_decimal<T: Integer>(text: &[u8], format: &FixedFormat) -> Option<T>
    requires valid { IsNone (fixed_fault format.now) }
    requires plain { IsPlain format.now.integer }
    ensures { IfSome result
        (λ units. complete_fixed format.now T.TYPE text.now ≡ Ok (T.number units)) }
{
    // The law by which the front has a digit.
    front_digits();
    if text.is_empty() {
        return None;
    }
    let (is_negative, digits) = behind_minus::<T>(text);
    if leads_with_zero(digits, format) {
        return None;
    }
    match value_filled::<T>(digits, format, is_negative) {
        Some(units) => Some(units),
        None => whole_at_once::<T>(text, format),
    }
}
