// Fields of digits, where marks of the separators in front say where each ends.
ghost use Rattle.std.specs.Prelude.{◌≡◌, ◌≢◌, ◌==◌, ◌+◌, ◌<◌, ◌≤◌, ◌^◌, ℕ, List, IfSome, IsNone, IsTrue, Ok, length, slice_index, take, drop};
ghost use Rattle.lexical_util.specs.Ascii.{minus};
ghost use Rattle.lexical_util.specs.Validity.{fault};
ghost use Rattle.lexical_digits.specs.WrittenNumbers.{StandsFor, WritesDecimal};
ghost use Rattle.lexical_parse_integer.specs.Grammar.{complete};
ghost use Rattle.lexical_parse_integer.specs.Plain.{IsBehind, keeps_zero_rule};
ghost use Rattle.lexical_parse_integer.specs.Separated.{IsSeparated};
ghost use Rattle.lexical_fields.specs.Fields.{field_length};
ghost use Rattle.lexical_fields.specs.Numerals.{IsNumeral};
ghost use Rattle.lexical_fields.specs.ReadSoFar.{IsReadSoFar};
ghost use Rattle.lexical_fields.specs.Search.{AreMarks};

use crate::search::{lowest_mark, marks_in_front};
use crate::threes::numbers_to_12;
use lexical_digits::values::{join_parts, value_of_parts};
use lexical_parse_integer::NumberFormat;
use lexical_parse_integer::parse::ParseInteger;
use lexical_parse_integer::quick::{is_separated, keeps_zero_rule};

// What stands behind a minus that is a sign, and whether there is one.
#[inline(always)]
fn behind_minus<T: ParseInteger>(text: &[u8]) -> (bool, &[u8])
    requires { 1 ≤ length text.now }
    ensures behind { IsBehind result.0 T.TYPE text.now result.1.now }
    ensures minus { IsTrue result.0 → IsTrue T.TYPE.is_signed }
{
    let is_negative = T::IS_SIGNED & (text[0] == b'-');
    (is_negative, &text[usize::from(is_negative)..])
}

// The value of up to twelve digits with room behind them.
#[inline(always)]
fn value_to_12<T: ParseInteger>(digits: &[u8], count: usize, is_negative: bool) -> Option<T>
    requires few { count ≤ 12 }
    requires room { 16 ≤ length digits.now }
    requires minus { IsTrue is_negative → IsTrue T.TYPE.is_signed }
    ensures { IfSome result
        (λ value. StandsFor T.TYPE 10 is_negative (take count digits.now) (T.number value)) }
{
    let (high, low) = numbers_to_12(digits, count)?;
    value_of_parts::<T>(high, low, 1_000_000, is_negative)
}

// The value of thirteen to twenty digits with room behind them: the last twelve, and those before.
#[inline(always)]
fn value_from_13<T: ParseInteger>(digits: &[u8], count: usize, is_negative: bool) -> Option<T>
    requires least { 13 ≤ count }
    requires most { count ≤ 20 }
    requires room { count + 16 ≤ length digits.now }
    requires minus { IsTrue is_negative → IsTrue T.TYPE.is_signed }
    ensures { IfSome result
        (λ value. StandsFor T.TYPE 10 is_negative (take count digits.now) (T.number value)) }
{
    if T::BITS <= 32 {
        return None;
    }
    let first = value_to_12::<T>(digits, count - 12, is_negative)?;
    let (high, low) = numbers_to_12(&digits[count - 12..], 12)?;
    let scale = join_parts::<T>(1_000_000, 1_000_000, 0);
    let rest = join_parts::<T>(high, 1_000_000, low);
    match first.checked_mul_add(scale, rest, is_negative) {
        Some(value) => Some(value),
        None => None,
    }
}

// The value of a field of one to twenty digits alone or behind a minus, with room behind it. `None` says nothing of it.
#[inline(always)]
fn value_with_room<T: ParseInteger>(
    text: &[u8],
    size: usize,
    separator: u8,
    format: &NumberFormat,
) -> Option<T>
    requires room { size + 17 ≤ length text.now }
    requires separated { IsSeparated format.now separator }
    ensures { IfSome result
        (λ value. complete format.now T.TYPE (take size text.now) ≡ Ok (T.number value)) }
{
    let (is_negative, digits) = behind_minus::<T>(text);
    if size <= usize::from(is_negative) {
        return None;
    }
    let count = size - usize::from(is_negative);
    if count > 20 || !keeps_zero_rule(format, &digits[..count]) {
        return None;
    }
    if count > 12 {
        return value_from_13::<T>(digits, count, is_negative);
    }
    value_to_12::<T>(digits, count, is_negative)
}

/// The number that the first `size` bytes of a text write, if they are up to twenty decimal digits, perhaps behind a minus,
/// the format has no punctuation, and seventeen more bytes follow. `None` says nothing about them.
#[inline(always)]
pub fn value_in_front<T: ParseInteger>(text: &[u8], size: usize, format: &NumberFormat) -> Option<T>
    ensures { IfSome result
        (λ value. complete format.now T.TYPE (take size text.now) ≡ Ok (T.number value)) }
{
    if size > text.len() {
        return None;
    }
    value_of_front::<T>(text, size, format)
}

/// The number of a text's first `size` bytes, as [`value_in_front`] has it, of a text that has them.
#[inline(always)]
pub fn value_of_front<T: ParseInteger>(text: &[u8], size: usize, format: &NumberFormat) -> Option<T>
    requires within { size ≤ length text.now }
    ensures { IfSome result
        (λ value. complete format.now T.TYPE (take size text.now) ≡ Ok (T.number value)) }
{
    if text.len() - size < 17 || !is_separated(format, b' ') {
        return None;
    }
    value_with_room::<T>(text, size, b' ', format)
}

/// The number that a text's first `count` bytes write, where they are up to twelve decimal digits. `None` says nothing of
/// them. The text has to have sixteen bytes.
#[inline(always)]
pub fn number_to_12(digits: &[u8], count: usize) -> Option<u64>
    requires few { count ≤ 12 }
    requires room { 16 ≤ length digits.now }
    ensures writes { IfSome result (λ number. WritesDecimal 0 (take count digits.now) number) }
    ensures small { IfSome result (λ number. number < 10 ^ 12) }
{
    let (high, low) = numbers_to_12(digits, count)?;
    Some(u64::from(high) * 1_000_000 + u64::from(low))
}

// The number of thirteen to eighteen digits with room behind them: the last twelve, and those before.
#[inline(always)]
fn number_from_13(digits: &[u8], count: usize) -> Option<u64>
    requires least { 13 ≤ count }
    requires most { count ≤ 18 }
    requires room { count + 16 ≤ length digits.now }
    ensures writes { IfSome result (λ number. WritesDecimal 0 (take count digits.now) number) }
    ensures small { IfSome result (λ number. number < 10 ^ 18) }
{
    let first = number_to_12(digits, count - 12)?;
    let last = number_to_12(&digits[count - 12..], 12)?;
    Some(first * 1_000_000_000_000 + last)
}

// The number of one to eighteen digits with room behind them.
#[inline(always)]
fn number_to_18(digits: &[u8], count: usize) -> Option<u64>
    requires room { count ≤ 18 → count + 16 ≤ length digits.now }
    ensures some { IfSome result (λ number. 1 ≤ count) }
    ensures few { IfSome result (λ number. count ≤ 18) }
    ensures writes { IfSome result (λ number. WritesDecimal 0 (take count digits.now) number) }
    ensures small { IfSome result (λ number. number < 10 ^ 18) }
{
    if count.wrapping_sub(1) > 11 {
        if count.wrapping_sub(13) > 5 {
            return None;
        }
        return number_from_13(digits, count);
    }
    number_to_12(digits, count)
}

/// The number that a text's first `size` bytes write, and whether a minus stands in front, where they are one to
/// eighteen decimal digits alone or behind a minus. `None` says nothing of them. Seventeen bytes have to follow them.
#[inline(always)]
pub fn number_of_front(text: &[u8], size: usize) -> Option<(bool, u64)>
    requires room { size + 17 ≤ length text.now }
    ensures writes { IfSome result (λ found. IsNumeral found.0 found.1 (take size text.now)) }
    ensures sign { IfSome result (λ found. found.0 ≡ (slice_index text.now 0 == minus)) }
    ensures small { IfSome result (λ found. found.1 < 10 ^ 18) }
{
    let is_negative = text[0] == b'-';
    let digits = &text[usize::from(is_negative)..];
    let count = size.wrapping_sub(usize::from(is_negative));
    let number = number_to_18(digits, count)?;
    Some((is_negative, number))
}

/// The remaining marks, or, if there is none, those of the next 64 bytes.
#[inline(always)]
pub fn next_marks(text: &[u8], marks: u64, separator: u8) -> u64
    requires { AreMarks separator text.now marks }
    ensures { AreMarks separator text.now result }
{
    if marks == 0 {
        marks_in_front(text, separator)
    } else {
        marks
    }
}

/// How many bytes the first field has where its end is marked, what is behind its separator, and the marks of that.
#[inline(always)]
pub fn split_marked(text: &[u8], marks: u64, separator: u8) -> (usize, &[u8], u64)
    requires some { marks ≢ 0 }
    requires marks { AreMarks separator text.now marks }
    ensures size { result.0 ≡ field_length separator text.now }
    ensures room { result.0 + 17 ≤ length text.now }
    ensures behind { result.1.now ≡ drop (result.0 + 1) text.now }
    ensures marks { AreMarks separator result.1.now result.2 }
{
    let size = lowest_mark(marks);
    (size, &text[size + 1..], marks >> size >> 1)
}

// Reads fields into a slice behind the numbers that it has, as long as their ends are marked and each is digits alone
// or behind a minus. Returns how many numbers the slice then has, and what is left of the text. Out of line, so that
// the loop has all registers.
#[inline(never)]
pub(crate) fn read_marked<'a, T: ParseInteger>(
    text: &'a [u8],
    separator: u8,
    format: &NumberFormat,
    values: &mut [T],
    count: usize,
) -> (usize, &'a [u8])
    requires valid { IsNone (fault format.now) }
    requires separated { IsSeparated format.now separator }
    requires room { count ≤ length values.old }
    ensures reading { (whole : List ℕ) (initial : List T)
        → IsReadSoFar T T.number format.now T.TYPE separator whole initial values.old count text.now
        → IsReadSoFar T T.number format.now T.TYPE separator whole initial values.new
        result.0 result.1.now }
    ensures more { count ≤ result.0 }
    ensures room { result.0 ≤ length values.new }
    ensures size { length values.new ≡ length values.old }
{
    let mut rest = text;
    let mut marks = 0;
    for i in count..values.len() {
        marks = next_marks(rest, marks, separator);
        if marks == 0 {
            return (i, rest);
        }
        let (size, behind, more) = split_marked(rest, marks, separator);
        let Some(value) = value_with_room::<T>(rest, size, separator, format) else {
            return (i, rest);
        };
        values[i] = value;
        rest = behind;
        marks = more;
    }
    (values.len(), rest)
}
