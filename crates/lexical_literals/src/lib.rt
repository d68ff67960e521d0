//! The numbers, words and other bytes that a source is made of.
//!
//! | A token that begins with | is | and reaches |
//! |---|---|---|
//! | a digit, where a number can be read | a number | as far as that is read |
//! | a digit, where none can | a fault | over all ASCII letters, `0` to `9` and `_` that follow |
//! | another ASCII letter, `0` to `9` or `_` | a word | over all ASCII letters, `0` to `9` and `_` that follow |
//! | any other byte | a byte | over itself |
//!
//! A digit is one of the format's radix: `0` to `9` for [`Tokens::new`]. A number begins with a digit and with
//! nothing else, whatever its format allows. So a sign and a separator before the first digit are tokens of their
//! own: `-5` is a byte and a number. A number is what the partial parser reads: under a format with a prefix and no
//! separator `0x;` is the number 0, from 0 to 2, and a byte, and only at the source's end is `0x` a fault. Spaces,
//! tabs, line feeds and carriage returns between tokens are skipped.
#![tactic(auto)]

mod bytes;
mod decimal;
mod groups;
mod lanes;
mod literal;
mod suffixes;
mod typed;

ghost use Rattle.std.specs.Prelude.{◌≡◌, ◌+◌, ◌<◌, ◌≤◌, ◌^◌, List, All, IfOk, IsNone, IsTrue, Ok, false, is_some, length, pos, slice_index, true};
ghost use Rattle.std.specs.Iterator.{YieldsFirstBy, item_count};
ghost use Rattle.lexical_util.specs.Digit.{digit};
ghost use Rattle.lexical_util.specs.Number.{integer_type};
ghost use Rattle.lexical_util.specs.Validity.{fault};
ghost use Rattle.lexical_parse_integer.specs.Grammar.{partial};
ghost use Rattle.lexical_literals.specs.Decimal.{ReadsDecimals};
ghost use Rattle.lexical_literals.specs.Tokens.{FollowInTurn, FollowUnder, IsPartOf, TokenView, front_of, literals, number_of, view_of_token, tokens, tokens_from, tokens_if_valid};

use bytes::{is_word_byte, skipped_length, word_length};
use decimal::{front_of_decimal, reads_decimals, seems_prefixed, zero_leads};
use groups::front_behind_zero;
use lexical_parse_integer::algorithm::algorithm_partial;
use lexical_parse_integer::laws::grammar::{front_end, wider_types};
use lexical_parse_integer::parse::ParseInteger;
use lexical_parse_integer::{Error, NumberFormat, NumberFormatBuilder, Result, options};
use lexical_util::digit::char_is_digit;
use lexical_util::format::FormatKind;
pub use literal::{Literal, literal_in_front};
use std::marker::Model;
pub use suffixes::{IntegerKind, Suffix, SuffixEntry};
pub use typed::{LiteralError, TypedLiteral, typed_literal_in_front};

/// What a token is.
///
/// `12_3` is `Number(123)`, `x1` is `Word`, `+` is `Byte`, and `0xg` is `Fault(Error::Empty(2))`.
#[derive(Debug, PartialEq, Eq, Drop)]
pub enum Kind {
    /// A number, by its value: decimal, or after `0x`, `0o` or `0b`, as [`literal_format`] has it,
    /// or as the source's own format has it. Under one with a prefix and no separator, `0x` before another
    /// byte than a digit is 0.
    Number(u128),
    /// An ASCII letter or `_`, and the ASCII letters, `0` to `9` and `_` that follow. Where a format's radix
    /// lacks some of `0` to `9`, a word may begin with one of these.
    Word,
    /// Any other byte.
    Byte,
    /// What begins with a digit and is no number of `u128`: `Overflow` where it is too great, and
    /// `Empty` where no digit comes after `0x`, `0o` or `0b`; under a format of the caller's choice
    /// any fault of its partial parser. Its place counts the bytes from the token's start, from 0.
    Fault(Error),
}

/// A part of a source. Places count the source's bytes from 0.
#[derive(Debug, PartialEq, Eq, Drop)]
pub struct Token<'a> {
    /// What it is.
    pub kind: Kind,
    /// The place of its first byte.
    pub start: usize,
    /// The place after its last byte, which is greater than `start`.
    pub stop: usize,
    /// Its bytes, borrowed from the source.
    pub text: &'a [u8],
}

/// The format of the numbers in a source: the standard one, with any number of `_` between two
/// digits, and with `0x`, `0o` and `0b`. `1_000` and `0xF_F` are numbers under it.
pub fn literal_format() -> NumberFormat
    ensures { result ≡ literals }
{
    NumberFormatBuilder::new()
        .digit_separator(Some(b'_'))
        .integer_internal_digit_separator(true)
        .integer_consecutive_digit_separator(true)
        .literal_prefixes(true)
        .build_of_kind(FormatKind::Other)
}

// The number that a text begins with, or its fault, and how many bytes that has.
#[inline(always)]
fn number(text: &[u8], format: &NumberFormat, decimal: bool) -> (Kind, usize)
    requires first { is_some (digit format.now.mantissa_radix (slice_index text.now 0)) ≡ true }
    requires valid { IsNone (fault format.now) }
    requires decimal { IsTrue decimal → ReadsDecimals format.now }
    ensures { result ≡ number_of format.now text.now }
{
    let (value, length) = number_if_short(text, format, decimal);
    if length > 0 {
        return (Kind::Number(value as u128), length);
    }
    wide_number(text, format)
}

// The number that a text begins with, if it fits in 64 bits, as most do, and how many bytes it has; 0 bytes where this
// isn't sure. Each text has one reader: what that one doesn't read has more bits, or a fault.
#[inline(always)]
fn number_if_short(text: &[u8], format: &NumberFormat, decimal: bool) -> (u64, usize)
    requires first { is_some (digit format.now.mantissa_radix (slice_index text.now 0)) ≡ true }
    requires valid { IsNone (fault format.now) }
    requires decimal { IsTrue decimal → ReadsDecimals format.now }
    ensures { 0 < result.1
        → partial format.now (integer_type 128 false) text.now ≡ Ok (pos result.0, result.1) }
{
    if !decimal || zero_leads(text, format) {
        return punctuated_number(text, format);
    }
    if seems_prefixed(text) {
        return front_behind_zero(text, format);
    }
    front_of_decimal(text, format)
}

// Such a number under any format. Out of line, to keep the reader of plain numbers small. A format with a separator is
// copied, so that the separator stays in a register.
#[inline(never)]
fn punctuated_number(text: &[u8], format: &NumberFormat) -> (u64, usize)
    requires valid { IsNone (fault format.now) }
    ensures { 0 < result.1
        → partial format.now (integer_type 128 false) text.now ≡ Ok (pos result.0, result.1) }
{
    match format.digit_separator() {
        Some(_) => {
            let own = *format;
            short_number(text, &own)
        }
        None => number_without_separator(text, format),
    }
}

// Such a number under a format without a separator. Out of line: few sources have one.
#[inline(never)]
fn number_without_separator(text: &[u8], format: &NumberFormat) -> (u64, usize)
    requires valid { IsNone (fault format.now) }
    ensures { 0 < result.1
        → partial format.now (integer_type 128 false) text.now ≡ Ok (pos result.0, result.1) }
{
    short_number(text, format)
}

// Such a number under any format, in place.
#[inline(always)]
fn short_number(text: &[u8], format: &NumberFormat) -> (u64, usize)
    requires valid { IsNone (fault format.now) }
    ensures { 0 < result.1
        → partial format.now (integer_type 128 false) text.now ≡ Ok (pos result.0, result.1) }
{
    // The law by which a number of 64 bits is read alike as one of 128.
    wider_types();
    match algorithm_partial::<u64>(text, format, &options::STANDARD) {
        Ok(found) => found,
        Err(_) => (0, 0),
    }
}

// A number of up to 128 bits that a text begins with, or its fault, and how many bytes that has.
#[inline(never)]
fn wide_number(text: &[u8], format: &NumberFormat) -> (Kind, usize)
    requires valid { IsNone (fault format.now) }
    ensures { result ≡ number_of format.now text.now }
{
    match u128::parse_partial(text, format, &options::LARGE_NUMBERS) {
        Ok((value, length)) => (Kind::Number(value), length),
        Err(fault) => (Kind::Fault(fault), word_length(text)),
    }
}

// What a text begins with, by its first byte, and how many bytes that has.
#[inline(always)]
fn front(first: u8, text: &[u8], format: &NumberFormat, decimal: bool) -> (Kind, usize)
    requires first { slice_index text.now 0 ≡ first }
    requires valid { IsNone (fault format.now) }
    requires decimal { IsTrue decimal → ReadsDecimals format.now }
    ensures { result ≡ front_of format.now text.now }
{
    if char_is_digit(first, format.radix()) {
        number(text, format, decimal)
    } else if is_word_byte(first) {
        (Kind::Word, word_length(text))
    } else {
        (Kind::Byte, 1)
    }
}

/// The tokens of a source, in order. It is an iterator, and contracts see it as the list of the
/// tokens that are still to come.
///
/// It allocates nothing. How long it takes is in no contract.
#[derive(Drop)]
pub struct Tokens<'a> {
    // What the numbers look like, and whether decimal digits alone are read as under the standard format, but for zeros in
    // front.
    format: NumberFormat,
    decimal: bool,
    // The source behind the last token, and the place in the source at which it begins.
    rest: &'a [u8],
    place: usize,
}

impl<'a> Model for Tokens<'a> {
    ghost Value = { List TokenView };

    ghost view = { λ t. tokens_from t.format t.place 0 t.rest.now };

    ghost invariant = { λ t. (t.place + length t.rest.now < 2 ^ 64) × IsNone (fault t.format)
        × (IsTrue t.decimal → ReadsDecimals t.format) };
}

impl<'a> Tokens<'a> {
    /// The tokens of a source, with the numbers of [`literal_format`]. `x1 = 0x1F` has a word from 0 to 2,
    /// a byte from 3 to 4, and the number 31 from 5 to 9.
    ///
    /// Each begins at the least place after the one before it that isn't skipped, and is what the
    /// source begins with there (`order`); none is empty, and its bytes are those of the source
    /// (`parts`); there are no more than the source has bytes (`count`).
    pub fn new(source: &'a [u8]) -> Tokens<'a>
        ensures tokens { result ≡ tokens source.now }
        ensures order { FollowInTurn source.now 0 (tokens source.now) }
        ensures parts { All (IsPartOf source.now) (tokens source.now) }
        ensures count { length (tokens source.now) ≤ length source.now }
    {
        // The law by which no number is empty, and each ends within the source.
        front_end();
        Tokens {
            decimal: true,
            format: literal_format(),
            rest: source,
            place: 0,
        }
    }

    /// The tokens of a source, with the numbers of a format. Where the format is invalid, the fault is the
    /// first rule that it breaks.
    ///
    /// A number begins with a digit of the format's radix, and is what the partial parser reads from there on as
    /// `u128`. A token begins with no sign and no separator, though the format may allow or require them: under a
    /// format that requires a sign each number is the fault `MissingSign(0)`. In a radix above 10 letters are digits.
    ///
    /// In radix 16, `fox 1G` has the number 15 from 0 to 1, a word from 1 to 3, the number 1 from 4 to 5, and a
    /// word from 5 to 6. The clauses say of these tokens what those of [`Tokens::new`] say.
    pub fn with_format(source: &'a [u8], format: &NumberFormat) -> Result<Tokens<'a>>
        ensures tokens { result ≡ tokens_if_valid format.now source.now }
        ensures order { IfOk result (FollowUnder format.now source.now 0) }
        ensures parts { IfOk result (All (IsPartOf source.now)) }
        ensures count { IfOk result (λ all. length all ≤ length source.now) }
    {
        front_end();
        if let Some(fault) = format.error() {
            return Err(fault);
        }
        Ok(Tokens {
            format: *format,
            decimal: reads_decimals(format),
            rest: source,
            place: 0,
        })
    }
}

impl<'a> Iterator for Tokens<'a> {
    type Item = Token<'a>;

    ghost next_gives = { YieldsFirstBy view_of_token (λ left. left) };

    ghost remaining = { item_count (λ left. left) };

    /// The next token, and `None` where only skipped bytes are left, now and at each later call.
    #[inline(always)]
    fn next(&mut self) -> Option<Token<'a>> {
        // The law by which a number isn't empty, and `length` is within the text.
        front_end();
        let (skipped, rest) = self.rest.split_at(skipped_length(self.rest));
        let first = *rest.first()?;
        let (kind, length) = front(first, rest, &self.format, self.decimal);
        let (text, behind) = rest.split_at(length);
        let start = self.place + skipped.len();
        let stop = start + length;
        self.rest = behind;
        self.place = stop;
        Some(Token {
            kind,
            start,
            stop,
            text,
        })
    }
}
