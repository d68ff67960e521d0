// Decimal digits with a separator before the last three of them, or before each three but the first digits.
ghost use Rattle.std.specs.Prelude.{◌≡◌, ◌+◌, ◌-◌, ◌*◌, ◌<◌, ◌≤◌, IfSome, IsTrue, None, Some, get_or, length, pos, true};
ghost use Rattle.lexical_util.specs.Ascii.{digit_zero};
ghost use Rattle.lexical_util.specs.Digit.{digit};
ghost use Rattle.lexical_util.specs.Number.{HasSign, IsNumber, mul_add};
ghost use Rattle.lexical_parse_integer.specs.Grouped.{AreGrouped, AreWorth};

use lexical_digits::digits::number_of_4digits;
use lexical_digits::fronts::value_of_digits;
use lexical_digits::words::is_4digits;
use lexical_util::format::NumberFormat;
use lexical_util::num::Integer;

// How many digits probably stand before the first separator: a guess from the length and from two bytes.
#[inline(always)]
fn guess_of_first(bytes: &[u8], separator: u8) -> usize
    requires { 1 ≤ length bytes.now }
    ensures some { 1 ≤ result }
    ensures within { result ≤ length bytes.now }
{
    let n = bytes.len();
    if n < 5 || bytes[n - 4] != separator {
        return n;
    }
    if n < 9 || bytes[n - 8] != separator {
        return n - 4;
    }
    let few = n % 4;
    if few == 0 { n } else { few }
}

// The number of the three digits behind a separator: with a digit 0 in the place of the separator, the four bytes are
// one word of digits.
#[inline(always)]
fn group_value(separator: u8, first: u8, second: u8, third: u8) -> Option<u32>
    ensures first { IfSome result (λ number. digit 10 first ≡ Some (first - digit_zero)) }
    ensures second { IfSome result (λ number. digit 10 second ≡ Some (second - digit_zero)) }
    ensures third { IfSome result (λ number. digit 10 third ≡ Some (third - digit_zero)) }
    ensures value { IfSome result (λ number. number ≡ (first - digit_zero) * 100
        + (second - digit_zero) * 10 + (third - digit_zero)) }
    ensures small { IfSome result (λ number. number < 1000) }
{
    let parted = u32::from_le_bytes([separator, first, second, third]);
    let word = parted - separator as u32 + b'0' as u32;
    if !is_4digits(word, 10) {
        return None;
    }
    Some(number_of_4digits(word))
}

// The number of the three digits behind a separator at a place.
#[inline(always)]
fn three_at(bytes: &[u8], place: usize, separator: u8) -> Option<u32>
    requires { place + 4 ≤ length bytes.now }
    ensures parted { IfSome result (λ number. get_or bytes.now place 0 ≡ separator) }
    ensures first { IfSome result (λ number. digit 10 (get_or bytes.now (place + 1) 0)
        ≡ Some (get_or bytes.now (place + 1) 0 - digit_zero)) }
    ensures second { IfSome result (λ number. digit 10 (get_or bytes.now (place + 2) 0)
        ≡ Some (get_or bytes.now (place + 2) 0 - digit_zero)) }
    ensures third { IfSome result (λ number. digit 10 (get_or bytes.now (place + 3) 0)
        ≡ Some (get_or bytes.now (place + 3) 0 - digit_zero)) }
    ensures value { IfSome result (λ number. number
        ≡ (get_or bytes.now (place + 1) 0 - digit_zero) * 100
        + (get_or bytes.now (place + 2) 0 - digit_zero) * 10
        + (get_or bytes.now (place + 3) 0 - digit_zero)) }
    ensures small { IfSome result (λ number. number < 1000) }
{
    let t = &bytes[place..place + 4];
    if t[0] != separator {
        return None;
    }
    group_value(t[0], t[1], t[2], t[3])
}

// The value with three more digits, where the type has it.
#[inline(always)]
fn with_three<T: Integer>(value: T, three: u32, is_negative: bool) -> Option<T>
    requires bits { 32 ≤ T.TYPE.bits }
    requires small { three < 1000 }
    requires sign { HasSign is_negative (T.number value) }
    ensures value { IfSome result (λ next. T.number next ≡ mul_add is_negative (T.number value)
        (pos 1000) (pos three)) }
    ensures fits { IfSome result (λ next. IsNumber T.TYPE (T.number next)) }
{
    value.checked_mul_add(T::from_u32(1000), T::from_u32(three), is_negative)
}

// The value of digits with a separator before each three, with a minus where `is_negative`. Out of line, so that few
// digits need no stack frame.
#[inline(never)]
pub(super) fn value_of_threes<T: Integer>(
    bytes: &[u8],
    format: &NumberFormat,
    separator: u8,
    is_negative: bool,
) -> Option<T>
    requires bits { 32 ≤ T.TYPE.bits }
    requires some { 1 ≤ length bytes.now }
    requires separator { format.now.digit_separator ≡ Some separator }
    requires internal { format.now.integer_internal_digit_separator ≡ true }
    requires no_digit { digit 10 separator ≡ None }
    requires minus { IsTrue is_negative → IsTrue T.TYPE.is_signed }
    ensures grouped { IfSome result (λ value. AreGrouped format.now 10 bytes.now) }
    ensures worth { IfSome result
        (λ value. AreWorth T.TYPE 10 is_negative bytes.now (T.number value)) }
{
    let mut place = guess_of_first(bytes, separator);
    let mut value = value_of_digits::<T>(&bytes[..place], is_negative)?;
    while place + 4 <= bytes.len() {
        match three_at(bytes, place, separator) {
            Some(three) => match with_three::<T>(value, three, is_negative) {
                Some(next) => value = next,
                None => return None,
            },
            None => return None,
        }
        place += 4;
    }
    if place < bytes.len() {
        return None;
    }
    Some(value)
}
