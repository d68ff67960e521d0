//! The values of hexadecimal digits: a few are read by bytes, more by two blocks that overlap. No branch depends on a
//! digit: a table has the value of each byte, and for a byte that is no digit a value so large that the sum shows it.
ghost use Rattle.std.specs.Prelude.{◌≡◌, ◌+◌, ◌*◌, ◌^◌, ◌<◌, ◌≤◌, ◌≤ℤ◌, IfSome, IsTrue, length, pos, unwrap_or};
ghost use Rattle.lexical_util.specs.Digit.{digit};
ghost use Rattle.lexical_util.specs.Number.{number_limit};
ghost use Rattle.lexical_digits.specs.WrittenNumbers.{StandsFor, WritesFront};

mod table;

use crate::nibbles::table::VALUES;
use crate::table::value_by_table;
use crate::values::{signed_value, value_to_8};
use lexical_util::num::Integer;

// No eight digits write this number, or a greater one.
const LIMIT: u64 = 1 << 32;

// The value of a digit, and the limit where a byte is none.
#[inline(always)]
#[tactic(auto, using(crate::proofs::NibbleBlocks::value_is))]
fn value_or_more(byte: u8) -> u64
    ensures { result ≡ unwrap_or (digit 16 byte) 4294967296 }
{
    VALUES[byte as usize]
}

// The number of up to eight digits, or a number from `LIMIT` on where a byte is no digit.
#[inline(always)]
fn number_or_more(text: &[u8]) -> u64
    requires few { length text.now ≤ 8 }
    ensures { result < 4294967296 → WritesFront 16 text.now (length text.now) (pos result) }
{
    let mut number = 0;
    for byte in text {
        number = number * 16 + value_or_more(*byte);
    }
    number
}

// The number of the digits before the last `size`, of which there are at most `size`, and the number of the last
// `size`. The former is read from the first `size` digits: those that are among the last too are shifted out.
#[inline(always)]
fn numbers_of_blocks(text: &[u8], size: usize) -> Option<(u32, u32)>
    requires small { size ≤ 8 }
    requires many { size ≤ length text.now }
    requires few { length text.now ≤ 2 * size }
    ensures { IfSome result (λ parts. WritesFront 16 text.now (length text.now)
        (pos (parts.0 * 16 ^ size + parts.1))) }
{
    let n = text.len();
    let last = number_or_more(&text[n - size..]);
    let first = number_or_more(&text[..size]);
    if (first < LIMIT) & (last < LIMIT) {
        let shift = 4 * (2 * size - n) as u32;
        Some(((first >> shift) as u32, last as u32))
    } else {
        None
    }
}

// The value of the digits that two such blocks make up, with a minus where `is_negative`.
#[inline(always)]
fn value_of_blocks<T: Integer>(digits: &[u8], size: usize, is_negative: bool) -> Option<T>
    requires small { size ≤ 8 }
    requires many { size ≤ length digits.now }
    requires few { length digits.now ≤ 2 * size }
    requires scale { 16 ^ size < number_limit T.TYPE }
    requires room { 16 ^ length digits.now ≤ number_limit T.TYPE }
    requires minus { IsTrue is_negative → IsTrue T.TYPE.is_signed }
    ensures { IfSome result (λ value. StandsFor T.TYPE 16 is_negative digits.now (T.number value)) }
{
    let root = T::from_u32(1 << (2 * size) as u32);
    let scale = root.mul_add(root, T::ZERO, false);
    match numbers_of_blocks(digits, size) {
        Some((high, low)) => {
            let value = T::from_u32(high).mul_add(scale, T::from_u32(low), false);
            Some(signed_value::<T>(value, is_negative))
        }
        None => None,
    }
}

// The value of two digits as `i8`, or of four as `i16`, if the type has it: it lacks half of their
// numbers.
#[inline(always)]
fn value_of_few<T: Integer>(digits: &[u8], is_negative: bool) -> Option<T>
    requires few { length digits.now ≤ 4 }
    requires minus { IsTrue is_negative → IsTrue T.TYPE.is_signed }
    ensures { IfSome result (λ value. StandsFor T.TYPE 16 is_negative digits.now (T.number value)) }
{
    let size = (T::BITS / 8) as usize;
    if !T::IS_SIGNED || digits.len() != 2 * size {
        return None;
    }
    match numbers_of_blocks(digits, size) {
        Some((high, low)) => value_to_8::<T>((high << (4 * size) as u32) + low, is_negative),
        None => None,
    }
}

// The value of up to four digits.
#[inline(always)]
fn value_to_four<T: Integer>(digits: &[u8], is_negative: bool) -> Option<T>
    requires some { 1 ≤ length digits.now }
    requires few { length digits.now ≤ 4 }
    requires minus { IsTrue is_negative → IsTrue T.TYPE.is_signed }
    ensures { IfSome result (λ value. StandsFor T.TYPE 16 is_negative digits.now (T.number value)) }
{
    let n = digits.len();
    if n > T::overflow_digits(16) {
        return value_of_few::<T>(digits, is_negative);
    }
    if n <= 2 {
        return value_of_blocks::<T>(digits, 1, is_negative);
    }
    value_of_blocks::<T>(digits, 2, is_negative)
}

// The value of five to eight digits.
#[inline(always)]
fn value_to_eight<T: Integer>(digits: &[u8], is_negative: bool) -> Option<T>
    requires some { 4 < length digits.now }
    requires few { length digits.now ≤ 8 }
    requires minus { IsTrue is_negative → IsTrue T.TYPE.is_signed }
    ensures { IfSome result (λ value. StandsFor T.TYPE 16 is_negative digits.now (T.number value)) }
{
    let n = digits.len();
    if n > T::overflow_digits(16) {
        return None;
    }
    value_of_blocks::<T>(digits, 4, is_negative)
}

// The value of nine digits and more.
#[inline(always)]
fn value_from_nine<T: Integer>(digits: &[u8], is_negative: bool) -> Option<T>
    requires some { 8 < length digits.now }
    requires minus { IsTrue is_negative → IsTrue T.TYPE.is_signed }
    ensures { IfSome result (λ value. StandsFor T.TYPE 16 is_negative digits.now (T.number value)) }
{
    let n = digits.len();
    if n > T::overflow_digits(16) {
        return None;
    }
    if n > 16 {
        return value_by_table::<T>(digits, 16, is_negative);
    }
    value_of_blocks::<T>(digits, 8, is_negative)
}

/// The value of hexadecimal digits, with a minus where `is_negative`, if the type surely has room for that many. `i8`
/// and `i16` may have one digit more. Each range of lengths returns on its own, so that no text pays for what another
/// one needs. Out of line, so that decimal texts don't pay either.
#[inline(never)]
pub fn value_of_nibbles<T: Integer>(digits: &[u8], is_negative: bool) -> Option<T>
    requires some { 1 ≤ length digits.now }
    requires minus { IsTrue is_negative → IsTrue T.TYPE.is_signed }
    ensures { IfSome result (λ value. StandsFor T.TYPE 16 is_negative digits.now (T.number value)) }
{
    let n = digits.len();
    if n <= 4 {
        return value_to_four::<T>(digits, is_negative);
    }
    if n <= 8 {
        return value_to_eight::<T>(digits, is_negative);
    }
    value_from_nine::<T>(digits, is_negative)
}
