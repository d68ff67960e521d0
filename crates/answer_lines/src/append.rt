//! Writes answer lines, and parts of them, into the caller's buffer `place`, behind what it holds already. The buffer
//! has to have room.

ghost use Rattle.std.specs.Prelude.{◌≡◌, ◌+◌, ◌≤◌, ◌∷◌, [], ◌++◌, codes, length, take};
ghost use Rattle.lexical_util.specs.Ascii.{line_feed};
ghost use Rattle.answer_lines.specs.Decimal.{signed_text};
ghost use Rattle.answer_lines.specs.Output.{fault_answer, fault_name, kind_text, place_text, token_text};
ghost use Rattle.lexical_literals.specs.Tokens.{view_of_token};
ghost use Rattle.lexical_util.specs.Faults.{place_of};

use crate::decimal::{add_byte, add_decimal, add_number};
use crate::literals::{Kind, Token};
use crate::number::Number;
use lexical_parse_integer::Error;

/// Adds `ok V`, a space and the place where there is one, and a line feed, and answers where they end.
#[inline(always)]
pub fn add_value_line(value: &Number, at: Option<usize>, place: &mut [u8], end: usize) -> usize
    requires room { end + 66 ≤ length place.old }
    ensures size { length place.new ≡ length place.old }
    ensures within { result ≤ end + 66 }
    ensures written { take result place.new ≡ take end place.old
        ++ (codes "ok " ++ signed_text value.now ++ place_text at ++ line_feed ∷ []) }
{
    let start = add_ok(place, end);
    let behind = add_value(value, place, start);
    let last = add_place(at, place, behind);
    add_byte(b'\n', place, last)
}

/// Adds `err NAME PLACE` and a line feed, and answers where they end. A fault without a place has its name alone.
#[inline(always)]
pub fn add_fault_line(fault: Error, place: &mut [u8], end: usize) -> usize
    requires room { end + 48 ≤ length place.old }
    ensures size { length place.new ≡ length place.old }
    ensures within { result ≤ end + 48 }
    ensures written { take result place.new
        ≡ take end place.old ++ (fault_answer fault ++ line_feed ∷ []) }
{
    let last = add_fault(b"err ", fault, place, end);
    add_byte(b'\n', place, last)
}

/// Adds what a token is, where it starts and stops, and a line feed, and answers where they end. No other answer line
/// needs as much room.
#[inline(always)]
pub fn add_token_line(token: &Token<'_>, place: &mut [u8], end: usize) -> usize
    requires room { end + 92 ≤ length place.old }
    ensures size { length place.new ≡ length place.old }
    ensures within { result ≤ end + 92 }
    ensures written { take result place.new
        ≡ take end place.old ++ (token_text (view_of_token token.now) ++ line_feed ∷ []) }
{
    let start = add_kind(&token.kind, place, end);
    let behind = add_place(Some(token.start), place, start);
    let last = add_place(Some(token.stop), place, behind);
    add_byte(b'\n', place, last)
}

// Adds `number V`, `word`, `byte` or `fault NAME PLACE`.
#[inline(always)]
fn add_kind(kind: &Kind, place: &mut [u8], end: usize) -> usize
    requires room { end + 49 ≤ length place.old }
    ensures size { length place.new ≡ length place.old }
    ensures within { result ≤ end + 49 }
    ensures written { take result place.new ≡ take end place.old ++ kind_text kind.now }
{
    match kind {
        Kind::Number(value) => {
            let start = add_text(b"number ", place, end);
            add_decimal(*value, place, start)
        }
        Kind::Word => add_text(b"word", place, end),
        Kind::Byte => add_text(b"byte", place, end),
        Kind::Fault(fault) => add_fault(b"fault ", *fault, place, end),
    }
}

// Adds a word, the name of a fault, and a space and its place where it has one.
#[inline(always)]
fn add_fault(word: &[u8], fault: Error, place: &mut [u8], end: usize) -> usize
    requires room { end + length word.now + 43 ≤ length place.old }
    ensures size { length place.new ≡ length place.old }
    ensures within { result ≤ end + length word.now + 43 }
    ensures written { take result place.new ≡ take end place.old
        ++ (word.now ++ fault_name fault ++ place_text (place_of fault)) }
{
    let start = add_text(word, place, end);
    let behind = add_name(fault, place, start);
    add_place(fault.index(), place, behind)
}

// Adds the name of a fault. Each has an arm of its own: copying a few bytes whose number is known needs no call.
#[inline(always)]
fn add_name(fault: Error, place: &mut [u8], end: usize) -> usize
    requires room { end + 22 ≤ length place.old }
    ensures size { length place.new ≡ length place.old }
    ensures within { result ≤ end + 22 }
    ensures written { take result place.new ≡ take end place.old ++ fault_name fault }
{
    match fault {
        Error::Overflow(_) => add_text(b"Overflow", place, end),
        Error::Underflow(_) => add_text(b"Underflow", place, end),
        Error::InvalidDigit(_) => add_text(b"InvalidDigit", place, end),
        Error::Empty(_) => add_text(b"Empty", place, end),
        Error::MissingSign(_) => add_text(b"MissingSign", place, end),
        Error::InvalidPositiveSign(_) => add_text(b"InvalidPositiveSign", place, end),
        Error::InvalidLeadingZeros(_) => add_text(b"InvalidLeadingZeros", place, end),
        Error::InvalidMantissaRadix => add_text(b"InvalidMantissaRadix", place, end),
        Error::InvalidDigitSeparator => add_text(b"InvalidDigitSeparator", place, end),
        Error::InvalidBasePrefix => add_text(b"InvalidBasePrefix", place, end),
        Error::InvalidBaseSuffix => add_text(b"InvalidBaseSuffix", place, end),
        Error::InvalidPunctuation => add_text(b"InvalidPunctuation", place, end),
        Error::InvalidLiteralPrefixes => add_text(b"InvalidLiteralPrefixes", place, end),
    }
}

// Adds a space and a place, where there is one.
#[inline(always)]
fn add_place(at: Option<usize>, place: &mut [u8], end: usize) -> usize
    requires room { end + 21 ≤ length place.old }
    ensures size { length place.new ≡ length place.old }
    ensures within { result ≤ end + 21 }
    ensures written { take result place.new ≡ take end place.old ++ place_text at }
{
    match at {
        Some(at) => {
            let start = add_byte(b' ', place, end);
            add_number(at as u64, place, start)
        }
        None => end,
    }
}

/// Adds bytes, and answers where they end.
#[inline(always)]
pub fn add_text(text: &[u8], place: &mut [u8], end: usize) -> usize
    requires room { end + length text.now ≤ length place.old }
    ensures size { length place.new ≡ length place.old }
    ensures end { result ≡ end + length text.now }
    ensures written { take result place.new ≡ take end place.old ++ text.now }
{
    let behind = end + text.len();
    place[end..behind].copy_from_slice(text);
    behind
}

// Adds the digits of a number, behind a minus where it is below 0.
#[inline(always)]
fn add_value(value: &Number, place: &mut [u8], end: usize) -> usize
    requires room { end + 41 ≤ length place.old }
    ensures size { length place.new ≡ length place.old }
    ensures within { result ≤ end + 41 }
    ensures written { take result place.new ≡ take end place.old ++ signed_text value.now }
{
    if value.is_negative() {
        let start = add_byte(b'-', place, end);
        return add_decimal(value.magnitude(), place, start);
    }
    add_decimal(value.magnitude(), place, end)
}

// Adds `ok` and a space, byte by byte: then nothing tests whether text and buffer overlap.
#[inline(always)]
fn add_ok(place: &mut [u8], end: usize) -> usize
    requires room { end + 3 ≤ length place.old }
    ensures size { length place.new ≡ length place.old }
    ensures end { result ≡ end + 3 }
    ensures written { take result place.new ≡ take end place.old ++ codes "ok " }
{
    let first = add_byte(b'o', place, end);
    let second = add_byte(b'k', place, first);
    add_byte(b' ', place, second)
}
