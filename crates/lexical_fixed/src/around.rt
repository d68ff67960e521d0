// Short amounts under any format: digits around a point, with or without groups of three. A separator is removed from a
// word, or from two, as the point is.
ghost use Rattle.std.specs.Prelude.{◌≡◌, ◌+◌, ◌-◌, ◌*◌, ◌<◌, ◌≤◌, ◌^◌, IfSome, IsTrue, None, Some, length, slice_index, true};
ghost use Rattle.lexical_digits.specs.Value.{positional_value};
ghost use Rattle.lexical_util.specs.Digit.{digit};
ghost use Rattle.lexical_parse_integer.specs.Grouped.{AreGrouped, digits_among};
ghost use Rattle.lexical_fixed.specs.Around.{IsAround, IsValueAround};
ghost use Rattle.lexical_fixed.specs.Quick.{without};

use crate::joined::{number_without, number_without_two};
use crate::short::value_around;
use lexical_digits::values::{value_of_parts, value_to_8, value_to_16};
use lexical_util::format::NumberFormat;
use lexical_util::num::Integer;

// Whether a byte is the separator, and may stand between digits.
#[inline(always)]
fn is_between(format: &NumberFormat, byte: u8) -> bool
    ensures separator { IsTrue result → format.now.digit_separator ≡ Some byte }
    ensures internal { IsTrue result → format.now.integer_internal_digit_separator ≡ true }
{
    format.digit_separator() == Some(byte) && format.integer_internal_digit_separator()
}

// The number of the digits around a point in up to eight bytes, with a separator in front of the three digits before the point.
#[inline(always)]
fn number_in_groups<const CALLER: u8>(
    bytes: &[u8],
    format: &NumberFormat,
    place: usize,
) -> Option<u32>
    requires few { length bytes.now ≤ 8 }
    requires before { 5 ≤ place }
    requires within { place < length bytes.now }
    requires separator { format.now.digit_separator ≡ Some (slice_index bytes.now (place - 4)) }
    requires internal { format.now.integer_internal_digit_separator ≡ true }
    requires no_digit { IfSome format.now.digit_separator (λ byte. digit 10 byte ≡ None) }
    ensures around { IfSome result (λ number. IsAround format.now place bytes.now number) }
    ensures digits { IfSome result
        (λ number. length (digits_among 10 (without place bytes.now)) ≡ length bytes.now - 2) }
    ensures small { IfSome result (λ number. number < 100000000) }
{
    number_without_two(bytes, place)
}

// The number of one to eight bytes that are digits, alone or in groups of three before the last `tail` of them.
#[inline(always)]
fn number_before<const CALLER: u8>(bytes: &[u8], format: &NumberFormat, tail: usize) -> Option<u32>
    requires some { 1 ≤ length bytes.now }
    requires few { length bytes.now ≤ 8 }
    requires tail { 1 ≤ tail }
    requires no_digit { IfSome format.now.digit_separator (λ byte. digit 10 byte ≡ None) }
    ensures grouped { IfSome result (λ number. AreGrouped format.now 10 bytes.now) }
    ensures worth { IfSome result
        (λ number. number ≡ positional_value 10 (digits_among 10 bytes.now)) }
    ensures small { IfSome result (λ number. number < 100000000) }
{
    let size = bytes.len();
    if size >= 4 && tail < size - 1 {
        let place = size - 1 - tail;
        if is_between(format, bytes[place]) {
            if place > 4 && is_between(format, bytes[place - 4]) {
                return number_without_two(bytes, place);
            }
            return number_without(bytes, place);
        }
    }
    value_to_16::<u32>(bytes, false)
}

// The numbers of the digits in nine to sixteen bytes: of those before the last eight bytes, and of those among these, which hold
// the point and the separator.
#[inline(always)]
fn numbers_in_groups<const CALLER: u8>(
    bytes: &[u8],
    format: &NumberFormat,
    place: usize,
) -> Option<(u32, u32)>
    requires some { 9 ≤ length bytes.now }
    requires few { length bytes.now ≤ 16 }
    requires near { length bytes.now ≤ place + 4 }
    requires behind { place + 2 ≤ length bytes.now }
    requires separator { format.now.digit_separator ≡ Some (slice_index bytes.now (place - 4)) }
    requires internal { format.now.integer_internal_digit_separator ≡ true }
    requires no_digit { IfSome format.now.digit_separator (λ byte. digit 10 byte ≡ None) }
    ensures around { IfSome result (λ found. IsAround format.now place bytes.now
        (found.0 * 1000000 + found.1)) }
    ensures high { IfSome result (λ found. found.0 < 100000000) }
    ensures low { IfSome result (λ found. found.1 < 100000000) }
{
    // With `p` digits behind the point, the last eight bytes are `3 - p` digits of a group, the separator, three
    // digits, the point and the `p` digits. So the bytes before them end with the other `p` digits of the group.
    let first = bytes.len() - 8;
    let high = number_before::<CALLER>(&bytes[..first], format, bytes.len() - 1 - place)?;
    let low = if place == first + 4 {
        number_without(&bytes[first + 1..], 3)?
    } else {
        number_in_groups::<CALLER>(&bytes[first..], format, place - first)?
    };
    Some((high, low))
}

// The value of the digits around a point in up to sixteen bytes, with a separator in front of the three digits before the point.
#[inline(always)]
fn value_in_groups<T: Integer, const CALLER: u8>(
    bytes: &[u8],
    format: &NumberFormat,
    place: usize,
    is_negative: bool,
) -> Option<T>
    requires few { length bytes.now ≤ 16 }
    requires before { 5 ≤ place }
    requires near { length bytes.now ≤ place + 4 }
    requires behind { place + 2 ≤ length bytes.now }
    requires separator { format.now.digit_separator ≡ Some (slice_index bytes.now (place - 4)) }
    requires internal { format.now.integer_internal_digit_separator ≡ true }
    requires no_digit { IfSome format.now.digit_separator (λ byte. digit 10 byte ≡ None) }
    requires minus { IsTrue is_negative → IsTrue T.TYPE.is_signed }
    ensures { IfSome result
        (λ value. IsValueAround T.TYPE is_negative format.now place bytes.now (T.number value)) }
{
    if bytes.len() <= 8 {
        let number = number_in_groups::<CALLER>(bytes, format, place)?;
        return value_to_8::<T>(number, is_negative);
    }
    let (high, low) = numbers_in_groups::<CALLER>(bytes, format, place)?;
    value_of_parts::<T>(high, low, 1_000_000, is_negative)
}

// The value of the digits around a point in four to sixteen bytes, if the type has it. The point is among the last eight, and
// isn't the first byte nor the last.
#[inline(always)]
pub(crate) fn value_around_point<T: Integer, const CALLER: u8>(
    bytes: &[u8],
    format: &NumberFormat,
    place: usize,
    is_negative: bool,
) -> Option<T>
    requires some { 4 ≤ length bytes.now }
    requires few { length bytes.now ≤ 16 }
    requires before { 1 ≤ place }
    requires near { length bytes.now ≤ place + 8 }
    requires behind { place + 2 ≤ length bytes.now }
    requires no_digit { IfSome format.now.digit_separator (λ byte. digit 10 byte ≡ None) }
    requires minus { IsTrue is_negative → IsTrue T.TYPE.is_signed }
    ensures { IfSome result
        (λ value. IsValueAround T.TYPE is_negative format.now place bytes.now (T.number value)) }
{
    if place > 4 && is_between(format, bytes[place - 4]) {
        if bytes.len() > place + 4 {
            return None;
        }
        return value_in_groups::<T, CALLER>(bytes, format, place, is_negative);
    }
    value_around::<T>(bytes, place, is_negative)
}
