//! A place in a text, from which a numeral is read: sign, prefix, digits and suffix.
//!
//! A cursor borrows the text and keeps the format. It goes forward alone, and lends no more of the text than the
//! next word. The parsers of [`algorithm`](crate::algorithm) use its calls; a reader written by hand can too:
//! after `new` come `step_sign`, `read_prefix`, `read_octal_zero`, the digits by `next_digit` or `take_digits`, and
//! `read_suffix`, each where it is wanted.
//!
//! Contracts see a cursor as a record: the text, the format, the effective radix, where the numeral's region starts,
//! the position, how many digits were read, whether the suffix was read, how many turns that took, and which cursor it
//! is. A turn is one digit taken alone, or one word of four or eight digits taken at once. Their count and the identity
//! take no byte at run time.
ghost use Rattle.std.specs.Prelude.{◌≡◌, ◌+◌, ◌<◌, ◌≤◌, ◌↔◌, ◌⊎◌, IsTrue, IsNone, MatchOption, Some, false, true, if◌then◌else◌, is_some, length, slice_get, slice_range};
ghost use Rattle.lexical_util.specs.Ascii.{minus, plus};
ghost use Rattle.lexical_util.specs.Validity.{fault};
ghost use Rattle.lexical_parse_integer.specs.Affixes.{numeral_stop, octal_zero_at, prefix_radix};
ghost use Rattle.lexical_parse_integer.specs.CursorView.{AreDigitsAhead, IsSound, ReachesEnd, TakesDigit, behind_prefix, closes, numeral_end};
ghost use Rattle.lexical_parse_integer.specs.Folded.{Folded};

use crate::affixes::{octal_zero_at, prefix_radix, suffix_at};
use crate::seek::{Found, seek};
use crate::turns::Turns;
use lexical_util::format::NumberFormat;
use std::marker::Model;

/// A place in a text.
#[derive(Drop)]
pub struct Cursor<'a> {
    bytes: &'a [u8],
    format: NumberFormat,
    radix: u32,
    start: usize,
    position: usize,
    digits: usize,
    closed: bool,
    turns: Turns,
    identity: Turns,
}

impl<'a> Model for Cursor<'a> {
    ghost use Rattle.lexical_parse_integer.specs.CursorView.{CursorView, IsSound};
    ghost use Rattle.lexical_parse_integer.specs.Seeking.{starts_behind_prefix};

    ghost Value = { CursorView };

    ghost view = { λ c. record {
      bytes = c.bytes.now;
      format = c.format;
      is_prefixed = starts_behind_prefix c.start;
      radix = c.radix;
      start = c.start;
      position = c.position;
      digits = c.digits;
      closed = c.closed;
      turns = c.turns;
      identity = c.identity;
    } };

    ghost invariant = { λ c. IsSound
        (record {
          bytes = c.bytes.now;
          format = c.format;
          is_prefixed = starts_behind_prefix c.start;
          radix = c.radix;
          start = c.start;
          position = c.position;
          digits = c.digits;
          closed = c.closed;
          turns = c.turns;
          identity = c.identity;
        }) };
}

impl<'a> Cursor<'a> {
    /// A cursor at the text's front: nothing has been read.
    ///
    /// The format has to be valid; `NumberFormat::is_valid` is the test.
    #[inline(always)]
    pub fn new(bytes: &'a [u8], format: &NumberFormat) -> Cursor<'a>
        requires valid { IsNone (fault format.now) }
        ensures { result ≡ record {
          bytes = bytes.now;
          format = format.now;
          is_prefixed = false;
          radix = format.now.mantissa_radix;
          start = 0;
          position = 0;
          digits = 0;
          closed = false;
          turns = 0;
          identity = result.identity;
        } }
    {
        Cursor {
            bytes,
            format: *format,
            radix: format.radix(),
            start: 0,
            position: 0,
            digits: 0,
            closed: false,
            turns: Turns::new(),
            identity: Turns::unknown(),
        }
    }

    /// The position: how many bytes of the text come before it.
    ///
    /// Its contract also says what is true of each cursor: the region starts at the position or before it, no
    /// more turns than digits were taken, and `digits` counts the digits from the region's start to the position.
    /// Until the suffix is read, the position is in the numeral or at its end; then it is where reading stops, and
    /// all digits are counted. So at position 0 nothing was read.
    #[inline(always)]
    pub fn cursor(&self) -> usize
        ensures place { result ≡ self.now.position }
        ensures sound { IsSound self.now }
    {
        self.position
    }

    // Does nothing at run time: its contract says what is true of each cursor, for the proofs of callers.
    #[inline(always)]
    pub(crate) fn assert_invariant(&self)
        ensures { Folded (IsSound self.now) }
    {
        let _position = &self.position;
    }

    // The position alone, for proofs that don't ask what is true of each cursor.
    #[inline(always)]
    pub(crate) fn place(&self) -> usize
        ensures { result ≡ self.now.position }
    {
        self.position
    }

    /// Where the numeral's region starts: after the sign and the prefix that were read.
    #[inline(always)]
    pub fn start(&self) -> usize
        ensures { result ≡ self.now.start }
    {
        self.start
    }

    /// How many digits were read.
    #[inline(always)]
    pub fn digits(&self) -> usize
        ensures { result ≡ self.now.digits }
    {
        self.digits
    }

    /// How many bytes the text has.
    #[inline(always)]
    pub fn buffer_length(&self) -> usize
        ensures { result ≡ length self.now.bytes }
    {
        self.bytes.len()
    }

    /// Whether the position is the text's end.
    #[inline(always)]
    pub fn is_buffer_empty(&self) -> bool
        ensures { IsTrue result ↔ (self.now.position ≡ length self.now.bytes) }
    {
        self.position == self.bytes.len()
    }

    /// Whether the suffix was read. Then the cursor reads nothing more.
    #[inline(always)]
    pub fn is_closed(&self) -> bool
        ensures { result ≡ self.now.closed }
    {
        self.closed
    }

    /// Whether the format has no separator byte, so that the digits are in a row.
    #[inline(always)]
    pub fn is_contiguous(&self) -> bool
        ensures { IsTrue result ↔ IsNone self.now.format.digit_separator }
    {
        self.format.digit_separator().is_none()
    }

    /// The effective radix.
    #[inline(always)]
    pub fn radix(&self) -> u32
        ensures { result ≡ self.now.radix }
    {
        self.radix
    }

    /// The format that the cursor was made with.
    #[inline(always)]
    pub fn format(&self) -> NumberFormat
        ensures { result ≡ self.now.format }
    {
        self.format
    }

    /// The byte at the position, whatever it is, and `None` at the text's end.
    #[inline(always)]
    pub fn first(&self) -> Option<u8>
        ensures { result ≡ slice_get self.now.bytes self.now.position }
    {
        self.bytes.get(self.position).copied()
    }

    /// The next `n` bytes, and `None` where fewer are left. `n` is 4 or 8.
    ///
    /// They are borrowed from the text, for its lifetime. No call lends more of it.
    #[inline(always)]
    pub fn peek_word(&self, n: usize) -> Option<&'a [u8]>
        requires { (n ≡ 4) ⊎ (n ≡ 8) }
        ensures { MatchOption result (length self.now.bytes < self.now.position + n)
            (λ word. (self.now.position + n ≤ length self.now.bytes)
            × (word.now ≡ slice_range self.now.bytes self.now.position (self.now.position + n))) }
    {
        let bytes = self.bytes;
        if bytes.len() - self.position < n {
            return None;
        }
        Some(&bytes[self.position..self.position + n])
    }

    /// Steps over a sign at the text's front: position and region start are 1.
    ///
    /// The position has to be 0, and the first byte `+` or `-`.
    #[inline(always)]
    pub fn step_sign(&mut self)
        requires front { self.old.position ≡ 0 }
        requires sign { (slice_get self.old.bytes 0 ≡ Some plus)
            ⊎ (slice_get self.old.bytes 0 ≡ Some minus) }
        ensures { self.new ≡ record self.old { start = 1; position = 1 } }
    {
        self.start = 1;
        self.position = 1;
    }

    /// Steps over the prefix where it is at the position, and answers whether it does; else the cursor stays.
    ///
    /// The prefix is a `0` and the format's prefix byte directly after it. Where the format has literal prefixes,
    /// `0x`, `0o` and `0b` are prefixes too, and make 16, 8 or 2 the effective radix. The region starts after the
    /// prefix. The position has to be where the region starts, at most 1, and no digit may have been read.
    #[inline(always)]
    pub fn read_prefix(&mut self) -> bool
        requires front { self.old.position ≤ 1 }
        requires at_start { self.old.position ≡ self.old.start }
        requires no_digit { self.old.digits ≡ 0 }
        ensures answer { result ≡ is_some
            (prefix_radix self.old.format self.old.bytes self.old.position) }
        ensures after { self.new ≡ behind_prefix self.old
            (prefix_radix self.old.format self.old.bytes self.old.position) }
    {
        match prefix_radix(self.bytes, &self.format, self.position) {
            None => false,
            Some(radix) => {
                self.radix = radix;
                self.position += 2;
                self.start = self.position;
                true
            }
        }
    }

    /// Makes 8 the effective radix where an octal zero is at the position, and answers whether one is. The cursor
    /// stays, since that zero is the numeral's first digit.
    ///
    /// An octal zero is a `0` where the format has `literal_octal_zero`; a prefix has to be looked for before. The
    /// position has to be where the region starts, at most 1, and no digit may have been read.
    #[inline(always)]
    pub fn read_octal_zero(&mut self) -> bool
        requires front { self.old.position ≤ 1 }
        requires at_start { self.old.position ≡ self.old.start }
        requires no_digit { self.old.digits ≡ 0 }
        ensures answer { result ≡ octal_zero_at self.old.format self.old.bytes self.old.position }
        ensures after { self.new ≡ (if result then record self.old { radix = 8 } else self.old) }
    {
        if !octal_zero_at(self.bytes, &self.format, self.position) {
            return false;
        }
        self.radix = 8;
        true
    }

    /// Takes the next digit of the numeral, after permitted separators, and answers its value; `None` where no
    /// digit is left, and the cursor is then at the numeral's end.
    ///
    /// A digit takes one turn. A run of separators is judged whole, by the digits beside it, with one look over it.
    /// The suffix may not have been read.
    #[inline(always)]
    pub fn next_digit(&mut self) -> Option<u32>
        requires is_open { self.old.closed ≡ false }
        ensures step { MatchOption result (ReachesEnd self.old self.new)
            (λ value. TakesDigit self.old self.new value) }
        ensures sound { IsSound self.new }
    {
        match seek(
            self.bytes,
            &self.format,
            self.radix,
            self.start,
            self.position,
        ) {
            Found::Digit(place, value) => {
                self.position = place + 1;
                self.digits += 1;
                self.turns.tick();
                Some(value)
            }
            Found::End(place) => {
                self.position = place;
                None
            }
        }
    }

    // Takes the next digit. Its clauses keep what is true of the cursor folded, for the proofs of loops.
    #[inline(always)]
    pub(crate) fn read_digit(&mut self) -> Option<u32>
        requires is_open { self.old.closed ≡ false }
        ensures step { MatchOption result (ReachesEnd self.old self.new)
            (λ value. TakesDigit self.old self.new value) }
        ensures sound { Folded (IsSound self.new) }
    {
        self.next_digit()
    }

    /// Takes the next `n` bytes, which are digits, as one turn. `n` is 4 or 8.
    ///
    /// Each of the bytes has to be a digit of the effective radix, the format without a separator byte, and the
    /// suffix not read.
    #[inline(always)]
    pub fn take_digits(&mut self, n: usize)
        requires word { (n ≡ 4) ⊎ (n ≡ 8) }
        requires is_open { self.old.closed ≡ false }
        requires contiguous { IsNone self.old.format.digit_separator }
        requires digits { AreDigitsAhead self.old n }
        ensures { self.new ≡ record self.old {
          position = self.old.position + n;
          digits = self.old.digits + n;
          turns = self.old.turns + 1;
        } }
    {
        self.position += n;
        self.digits += n;
        self.turns.tick();
    }

    // Whether the suffix stands at the position and a digit was read.
    #[inline(always)]
    fn is_at_suffix(&self) -> bool
        ensures { result ≡ closes self.now }
    {
        self.digits > 0 && suffix_at(self.bytes, &self.format, self.position)
    }

    /// Steps over the suffix where it is at the position and a digit was read, closes the cursor, and answers
    /// whether it did; else the cursor stays.
    ///
    /// At the numeral's end the cursor is then where reading stops. The suffix may not have been read before.
    #[inline(always)]
    pub fn read_suffix(&mut self) -> bool
        requires is_open { self.old.closed ≡ false }
        ensures answer { result ≡ closes self.old }
        ensures at_end { self.old.position ≡ numeral_end self.old
            → self.new.position ≡ numeral_stop self.old.format self.old.is_prefixed
            self.old.radix self.old.bytes self.old.start }
        ensures before_end { self.old.position < numeral_end self.old → self.new ≡ self.old }
        ensures sound { IsSound self.new }
        ensures after { self.new ≡ (if result
            then record self.old { position = self.old.position + 1; closed = true }
            else self.old) }
    {
        if !self.is_at_suffix() {
            return false;
        }
        self.position += 1;
        self.closed = true;
        true
    }
}
