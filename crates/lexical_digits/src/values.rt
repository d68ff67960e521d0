//! The values of decimal digits, where the type has them.
ghost use Rattle.std.specs.Prelude.{◌≤ℤ◌, ◌∷◌, [], neg_ℤ, if◌then◌else◌, false, ◌≡◌, ◌+◌, ◌*◌, ◌<◌, ◌≤◌, true, IfSome, IsTrue, get_or, length, pos, take};
ghost use Rattle.lexical_util.specs.Ascii.{minus};
ghost use Rattle.lexical_util.specs.Number.{IsNumber, mul_add, number_limit};
ghost use Rattle.lexical_digits.specs.WrittenNumbers.{StandsFor};
ghost use Rattle.lexical_digits.specs.Value.{with_sign};

use crate::digits::{number_to_4, number_to_8, numbers_to_16};
use lexical_util::num::Integer;

// How many numbers from 0 up a type has.
#[inline(always)]
pub(crate) fn number_limit<T: Integer>() -> u64
    requires { T.TYPE.bits ≤ 32 }
    ensures { result ≡ number_limit T.TYPE }
{
    1 << (T::BITS - u32::from(T::IS_SIGNED))
}

// The value with the sign.
#[inline(always)]
pub(crate) fn signed_value<T: Integer>(value: T, is_negative: bool) -> T
    requires minus { IsTrue is_negative → IsTrue T.TYPE.is_signed }
    requires positive { pos 0 ≤ℤ T.number value }
    requires fits { IsNumber T.TYPE (T.number value) }
    ensures value { T.number result
        ≡ (if is_negative then neg_ℤ (T.number value) else T.number value) }
    ensures fits { IsNumber T.TYPE (T.number result) }
{
    if T::IS_SIGNED && is_negative {
        T::ZERO.mul_add(T::from_u32(1), value, true)
    } else {
        value
    }
}

/// The value of a number of up to eight digits, where the type has it.
#[inline(always)]
pub fn value_to_8<T: Integer>(number: u32, is_negative: bool) -> Option<T>
    requires minus { IsTrue is_negative → IsTrue T.TYPE.is_signed }
    requires small { number < 100000000 }
    ensures value { IfSome result (λ value. T.number value ≡ with_sign is_negative number) }
    ensures fits { IfSome result (λ value. IsNumber T.TYPE (T.number value)) }
{
    if T::BITS < 32 {
        if number as u64 >= number_limit::<T>() {
            return None;
        }
    }
    Some(signed_value::<T>(T::from_u32(number), is_negative))
}

/// Two parts of a number joined.
#[inline(always)]
pub fn join_parts<T: Integer>(high: u32, scale: u32, low: u32) -> T
    requires bits { 32 < T.TYPE.bits }
    requires high { high ≤ 100000000 }
    requires some { 1 ≤ scale }
    requires scale { scale ≤ 1000000000 }
    requires low { low ≤ 100000000 }
    ensures value { T.number result ≡ pos (high * scale + low) }
    ensures positive { pos 0 ≤ℤ T.number result }
    ensures fits { IsNumber T.TYPE (T.number result) }
{
    T::from_u32(high).mul_add(T::from_u32(scale), T::from_u32(low), false)
}

/// The value of two parts of a number, where the type has it.
#[inline(always)]
pub fn value_of_parts<T: Integer>(
    first: u32,
    second: u32,
    scale: u32,
    is_negative: bool,
) -> Option<T>
    requires minus { IsTrue is_negative → IsTrue T.TYPE.is_signed }
    requires first { first < 100000000 }
    requires second { second < 100000000 }
    requires some { 1 ≤ scale }
    requires scale { scale ≤ 1000000000 }
    ensures value { IfSome result
        (λ value. T.number value ≡ with_sign is_negative (first * scale + second)) }
    ensures fits { IfSome result (λ value. IsNumber T.TYPE (T.number value)) }
{
    if T::BITS <= 32 {
        let number = first as u64 * scale as u64 + second as u64;
        if number >= number_limit::<T>() {
            return None;
        }
        return Some(signed_value::<T>(T::from_u32(number as u32), is_negative));
    }
    Some(signed_value::<T>(join_parts::<T>(first, scale, second), is_negative))
}

/// The value of one to sixteen digits, with a minus where `is_negative`.
#[inline(always)]
pub fn value_to_16<T: Integer>(digits: &[u8], is_negative: bool) -> Option<T>
    requires some { 1 ≤ length digits.now }
    requires few { length digits.now ≤ 16 }
    requires minus { IsTrue is_negative → IsTrue T.TYPE.is_signed }
    ensures { IfSome result (λ value. StandsFor T.TYPE 10 is_negative digits.now (T.number value)) }
{
    let n = digits.len();
    if n <= 4 {
        return value_to_8::<T>(number_to_4(digits)?, is_negative);
    }
    if n <= 8 {
        return value_to_8::<T>(number_to_8(digits)?, is_negative);
    }
    if T::BITS < 32 {
        return None;
    }
    let (high, low) = numbers_to_16(digits)?;
    value_of_parts::<T>(high, low, 100_000_000, is_negative)
}

// The value with sixteen digits more, from a place on, where the type has it. A type of 128 bits has all numbers of up
// to thirty-eight digits.
#[inline(always)]
fn with_sixteen<T: Integer>(digits: &[u8], place: usize, value: T) -> Option<T>
    requires bits { 32 < T.TYPE.bits }
    requires within { place + 16 ≤ length digits.now }
    requires before { StandsFor T.TYPE 10 false (take place digits.now) (T.number value) }
    ensures { IfSome result
        (λ next. StandsFor T.TYPE 10 false (take (place + 16) digits.now) (T.number next)) }
{
    let Some((high, low)) = numbers_to_16(&digits[place..place + 16]) else {
        return None;
    };
    let rest = join_parts::<T>(high, 100_000_000, low);
    let scale = join_parts::<T>(100_000_000, 100_000_000, 0);
    if T::BITS > 64 && place <= 22 {
        return Some(value.mul_add(scale, rest, false));
    }
    value.checked_mul_add(scale, rest, false)
}

/// The value of seventeen digits and more, with a minus where `is_negative`: a few digits are read first, and then
/// sixteen at a time. Out of line, so that shorter numbers don't pay for it.
#[inline(never)]
pub fn value_from_17<T: Integer>(digits: &[u8], is_negative: bool) -> Option<T>
    requires bits { 32 < T.TYPE.bits }
    requires some { 1 ≤ length digits.now }
    requires minus { IsTrue is_negative → IsTrue T.TYPE.is_signed }
    ensures { IfSome result (λ value. StandsFor T.TYPE 10 is_negative digits.now (T.number value)) }
{
    let n = digits.len();
    // No number of a signed type of 64 bits has twenty digits.
    let most = if T::BITS > 64 {
        48
    } else if T::IS_SIGNED {
        19
    } else {
        20
    };
    if n <= 16 || n > most {
        return None;
    }
    let place = if n <= 32 { n - 16 } else { n - 32 };
    let few = value_to_16::<T>(&digits[..place], false)?;
    let value = with_sixteen::<T>(digits, place, few)?;
    if n <= 32 {
        return Some(signed_value::<T>(value, is_negative));
    }
    let longer = with_sixteen::<T>(digits, place + 16, value)?;
    Some(signed_value::<T>(longer, is_negative))
}
