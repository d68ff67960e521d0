// Words of four and eight digits, taken at once.
ghost use Rattle.std.specs.Prelude.{◌≡◌, ◌+◌, ◌≤◌, ◌↔◌, ◌^◌, pos, false, IsNone, IsSome, IsTrue, IfSome, MatchOption, slice_range};
ghost use Rattle.lexical_util.specs.Number.{HasRoom};
ghost use Rattle.lexical_parse_integer.specs.CursorView.{AreDigitsAhead, IsSound};
ghost use Rattle.lexical_parse_integer.specs.Folded.{Folded};
ghost use Rattle.lexical_parse_integer.specs.Reading.{IsReading, ReadsWords};
ghost use Rattle.lexical_parse_integer.specs.Turns.{digits_per_word};
ghost use Rattle.lexical_digits.specs.Words.{word_value};

use crate::cursor::Cursor;
use lexical_digits::lanes::{value_of_4lanes, value_of_8lanes};
use lexical_util::num::Integer;

/// The value of the next four bytes and a step over them, where all of them are digits; else `None`, and the
/// cursor stays as it is.
#[inline(always)]
pub fn try_parse_4digits<T: Integer>(c: &mut Cursor<'_>) -> Option<T>
    requires bits { 32 ≤ T.BITS }
    requires radix { c.old.radix ≤ 10 }
    requires contiguous { IsNone c.old.format.digit_separator }
    requires is_open { c.old.closed ≡ false }
    ensures moved { MatchOption result (c.new ≡ c.old)
        (λ _. c.new
        ≡ record c.old {
          position = c.old.position + 4;
          digits = c.old.digits + 4;
          turns = c.old.turns + 1;
        }) }
    ensures digits { IsSome result ↔ AreDigitsAhead c.old 4 }
    ensures value { IfSome result
        (λ word. T.number word
        ≡ pos (word_value c.old.radix
        (slice_range c.old.bytes c.old.position (c.old.position + 4)))) }
{
    c.assert_invariant();
    let bytes = match c.peek_word(4) {
        Some(bytes) => bytes,
        None => return None,
    };
    match value_of_4lanes(bytes, c.radix()) {
        Some(value) => {
            c.take_digits(4);
            Some(T::from_u32(value))
        }
        None => None,
    }
}

/// The value of the next eight bytes and a step over them, where all of them are digits; else `None`, and the
/// cursor stays as it is.
#[inline(always)]
pub fn try_parse_8digits<T: Integer>(c: &mut Cursor<'_>) -> Option<T>
    requires bits { 64 ≤ T.BITS }
    requires radix { c.old.radix ≤ 10 }
    requires contiguous { IsNone c.old.format.digit_separator }
    requires is_open { c.old.closed ≡ false }
    ensures moved { MatchOption result (c.new ≡ c.old)
        (λ _. c.new
        ≡ record c.old {
          position = c.old.position + 8;
          digits = c.old.digits + 8;
          turns = c.old.turns + 1;
        }) }
    ensures digits { IsSome result ↔ AreDigitsAhead c.old 8 }
    ensures value { IfSome result
        (λ word. T.number word
        ≡ pos (word_value c.old.radix
        (slice_range c.old.bytes c.old.position (c.old.position + 8)))) }
{
    c.assert_invariant();
    let bytes = match c.peek_word(8) {
        Some(bytes) => bytes,
        None => return None,
    };
    match value_of_8lanes(bytes, c.radix()) {
        Some(value) => {
            c.take_digits(8);
            Some(T::from_u32(value))
        }
        None => None,
    }
}

// A word of the length that the type takes.
#[inline(always)]
#[tactic(auto, unfolding(crate::specs::Turns::digits_per_word))]
fn try_parse_word<T: Integer>(c: &mut Cursor<'_>) -> Option<T>
    requires bits { 32 ≤ T.BITS }
    requires radix { c.old.radix ≤ 10 }
    requires contiguous { IsNone c.old.format.digit_separator }
    requires is_open { c.old.closed ≡ false }
    ensures moved { MatchOption result (c.new ≡ c.old)
        (λ _. c.new
        ≡ record c.old {
          position = c.old.position + digits_per_word T.BITS;
          digits = c.old.digits + digits_per_word T.BITS;
          turns = c.old.turns + 1;
        }) }
    ensures digits { IsSome result ↔ AreDigitsAhead c.old (digits_per_word T.BITS) }
    ensures sound { Folded (IsSound c.new) }
    ensures value { IfSome result
        (λ word. T.number word
        ≡ pos (word_value c.old.radix
        (slice_range c.old.bytes c.old.position (c.old.position + digits_per_word T.BITS)))) }
{
    let word = if T::BITS >= 64 {
        try_parse_8digits::<T>(c)
    } else {
        try_parse_4digits::<T>(c)
    };
    c.assert_invariant();
    word
}

// What the number of the digits before a word is multiplied by to append the word.
#[inline(always)]
#[tactic(auto, unfolding(crate::specs::Turns::digits_per_word))]
fn word_scale<T: Integer>(radix: u32) -> T
    requires bits { 32 ≤ T.BITS }
    requires radix { radix ≤ 10 }
    ensures { T.number result ≡ pos (radix ^ digits_per_word T.BITS) }
{
    if T::BITS >= 64 {
        T::from_u32(radix.pow(8))
    } else {
        T::from_u32(radix.pow(4))
    }
}

// Whether one more word behind the first `digits` digits makes at most `most`.
#[inline(always)]
#[tactic(auto, unfolding(crate::specs::Turns::digits_per_word))]
fn has_room<T: Integer>(digits: usize, most: usize) -> bool
    ensures { IsTrue result ↔ (digits + digits_per_word T.BITS ≤ most) }
{
    let word = if T::BITS >= 64 { 8 } else { 4 };
    most >= word && digits <= most - word
}

// Takes words of digits while there is room for them: no number of `most` digits leaves the type.
#[inline(always)]
pub(crate) fn read_words<T: Integer>(
    c: &mut Cursor<'_>,
    value: T,
    is_negative: bool,
    most: usize,
) -> T
    requires bits { 32 ≤ T.BITS }
    requires radix { c.old.radix ≤ 10 }
    requires contiguous { IsNone c.old.format.digit_separator }
    requires ready { IsReading T.TYPE is_negative c.old (T.number value) }
    requires room { HasRoom T.TYPE c.old.radix most }
    ensures words { ReadsWords T.TYPE is_negative (digits_per_word T.BITS) most
        c.old c.new (T.number result) }
{
    let scale = word_scale::<T>(c.radix());
    let mut value = value;
    while has_room::<T>(c.digits(), most) {
        match try_parse_word::<T>(c) {
            Some(word) => value = value.mul_add(scale, word, is_negative),
            None => return value,
        }
    }
    value
}
