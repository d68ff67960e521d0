//! The decimal digits that a text begins with, and how many they are.
//!
//! They are found by words of eight bytes, with no branch for a digit: the lowest bit that a test of the word sets says
//! where they end, and the bytes behind them are shifted out.
ghost use Rattle.std.specs.Prelude.{◌≡◌, ◌+◌, ◌%◌, ◌<◌, ◌≤◌, IfSome, IsTrue, get_or, length, slice_range, take};
ghost use Rattle.lexical_digits.specs.WrittenNumbers.{StandsFor, WritesFirst, bytes_number};
ghost use Rattle.lexical_digits.specs.Words.{AreDigits, word_bytes, word_value};

use crate::digits::{ZEROS, first_word, number_of_front, word_at};
use crate::values::{value_from_17, value_to_16};
use lexical_util::num::Integer;

// How many digits a word begins with: the lowest byte comes first. Carries and borrows run upwards alone, so that the
// lowest bit that is set stands for the first byte that is no digit.
#[inline(always)]
fn digits_ahead(word: u64) -> u32
    ensures few { result ≤ 8 }
    ensures digits { AreDigits 10 (take result (word_bytes 8 word)) }
    ensures stops { result < 8
        → 10 ≤ (get_or (word_bytes 8 word) result 0 + 208) % 256 }
{
    let stops = word.wrapping_add(0x4646_4646_4646_4646) | word.wrapping_sub(ZEROS);
    (stops & 0x8080_8080_8080_8080).trailing_zeros() / 8
}

// The number of the digits that a text begins with, and how many they are, where its first eight bytes are this word.
// Without a digit the answer is 0 at once: a shift by all 64 bits would overflow.
#[inline(always)]
fn front_in_word(text: &[u8], word: u64) -> (u32, usize)
    requires { word ≡ bytes_number (take 8 text.now) }
    ensures front { WritesFirst text.now result.0 result.1 }
    ensures small { result.0 < 100000000 }
{
    let count = digits_ahead(word);
    if count == 0 {
        return (0, 0);
    }
    (number_of_front(word, count), count as usize)
}

// One to three bytes of a text as a word, with no branch for their count: a byte that is read twice is put twice into
// the same place of the word.
#[inline(always)]
fn short_word(text: &[u8]) -> u64
    requires some { 1 ≤ length text.now }
    requires few { length text.now ≤ 3 }
    ensures { result ≡ bytes_number (take 8 text.now) }
{
    let n = text.len();
    let middle = (text[n / 2] as u64) << (8 * (n / 2) as u32);
    let last = (text[n - 1] as u64) << (8 * (n - 1) as u32);
    text[0] as u64 | middle | last
}

/// The number of the digits that the first eight bytes of a text begin with, and how many they are.
#[inline(always)]
pub fn number_in_front(text: &[u8]) -> (u32, usize)
    requires { 1 ≤ length text.now }
    ensures front { WritesFirst text.now result.0 result.1 }
    ensures small { result.0 < 100000000 }
{
    if text.len() >= 4 {
        front_in_word(text, first_word(text))
    } else {
        front_in_word(text, short_word(text))
    }
}

// Eight bytes of a text from a place on, which has at least eight before it. What is missing behind the text is 0.
#[inline(always)]
fn next_word(text: &[u8], at: usize) -> u64
    requires behind { 8 ≤ at }
    requires within { at < length text.now }
    ensures { result ≡ bytes_number (take 8 (slice_range text.now at (length text.now))) }
{
    let n = text.len();
    let rest = n - at;
    if rest >= 8 {
        return word_at(text, at);
    }
    word_at(text, n - 8) >> (64 - 8 * rest as u32)
}

/// The number of the digits that the eight bytes from a place on begin with, and how many they are. The place has to
/// have at least eight bytes before it, and may be the text's end.
#[inline(always)]
pub fn number_behind(text: &[u8], at: usize) -> (u32, usize)
    requires behind { 8 ≤ at }
    requires within { at ≤ length text.now }
    ensures front { WritesFirst (slice_range text.now at (length text.now)) result.0 result.1 }
    ensures small { result.0 < 100000000 }
{
    if at == text.len() {
        return (0, 0);
    }
    front_in_word(&text[at..], next_word(text, at))
}

/// The value of one digit and more, with a minus where `is_negative`.
#[inline(always)]
pub fn value_of_digits<T: Integer>(digits: &[u8], is_negative: bool) -> Option<T>
    requires some { 1 ≤ length digits.now }
    requires minus { IsTrue is_negative → IsTrue T.TYPE.is_signed }
    ensures { IfSome result (λ value. StandsFor T.TYPE 10 is_negative digits.now (T.number value)) }
{
    if digits.len() <= 16 {
        return value_to_16::<T>(digits, is_negative);
    }
    if T::BITS <= 32 {
        return None;
    }
    value_from_17::<T>(digits, is_negative)
}
