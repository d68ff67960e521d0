//! The columns of a table that have fixed-point numbers.

ghost use Rattle.std.specs.Prelude.{◌≡◌, ◌≢◌, ◌+◌, ◌<◌, ◌≤◌, ◌^◌, ℕ, IsTrue, None, false, length, take, true, option_map};
ghost use Rattle.lexical_fixed.specs.Validity.{fixed_fault};
ghost use Rattle.lexical_tables.specs.Amounts.{HasAmounts, HasAmountsIfFixed, IsAmountText};
ghost use Rattle.lexical_tables.specs.ByColumn.{IsUsable};
ghost use Rattle.lexical_tables.specs.Codes.{IsCode};
ghost use Rattle.lexical_tables.specs.Targets.{has_numbers, keeps_text, text_fault};
ghost use Rattle.jadvolni.specs.Fixed.{fixed_of};
ghost use Rattle.jadvolni.specs.Tables.{put_number, target_of};

use crate::table_columns::ColumnFields;
use lexical_fixed::FixedFormat;
use lexical_fixed::quick::units_in_groups;
use lexical_parse_integer::Error;
use lexical_tables::codes::{AT_ONCE, PARSED};
use lexical_tables::{breaks_zero_rule, is_quick, units_of_front};

impl ColumnFields<'_> {
    // The description of its fixed-point numbers. Its integer part isn't built field by field if that is the standard
    // format, or that format with a separator.
    #[inline(always)]
    #[tactic(auto, using(crate::proofs::ColumnNumbers::standard_is))]
    fn fixed_format(&self) -> FixedFormat
        requires { fixed_fault (fixed_of self.now.description) ≡ None }
        ensures { result ≡ fixed_of self.now.description }
    {
        if self.description.has_standard_integer() {
            return self.description.standard();
        }
        if self.description.has_separator_alone() {
            return self.description.separated();
        }
        self.description.valid_format()
    }

    // The code of a column of fixed-point numbers: those of decimal formats with few places are read at once, others parsed.
    #[inline(always)]
    pub(crate) fn fixed_code(&self) -> u8
        requires numbers { has_numbers (target_of self.now) ≡ true }
        ensures { IsCode result (target_of self.now) }
    {
        if self.description.places <= 11 && self.description.has_decimal_integer() {
            AT_ONCE
        } else {
            PARSED
        }
    }

    // Whether its numbers are amounts that `put_amount` reads. A call on a table asks this once.
    #[inline(never)]
    pub(crate) fn has_quick_amounts(&self) -> bool
        ensures { IsTrue result → HasAmounts (target_of self.now) }
    {
        if self.description.places == 0 || !self.description.has_decimal_integer() {
            return false;
        }
        let Some(_) = self.arrays.number_type() else {
            return false;
        };
        is_quick(&self.description.decimal())
    }

    // Puts the amount of a text's first `size` bytes into a row's place, where it is read at once. A column of fixed-point
    // numbers has to have amounts.
    #[inline(always)]
    pub(crate) fn put_amount(&mut self, row: usize, ahead: &[u8], size: usize) -> bool
        requires amounts { HasAmountsIfFixed (target_of self.old) }
        requires usable { IsUsable (row + 1) (target_of self.old) }
        requires room { size + 17 ≤ length ahead.now }
        ensures bytes { IsTrue result → IsAmountText (take size ahead.now) }
        ensures fault { IsTrue result → (start : ℕ) → text_fault (target_of self.old)
            (record { start = start; text = take size ahead.now }) ≡ None }
        ensures target { IsTrue result → (start : ℕ) → target_of self.new
            ≡ option_map (put_number row (record { start = start; text = take size ahead.now }))
            (target_of self.old) }
        ensures kept { result ≡ false → target_of self.new ≡ target_of self.old }
    {
        if self.description.places == 0 || self.arrays.number_type().is_none() {
            return false;
        }
        let format = self.description.standard();
        let has_rule = self.description.has_zero_rule();
        if breaks_zero_rule(ahead, size, has_rule, format.point()) {
            return false;
        }
        let Some((is_negative, units)) = units_of_front(
            ahead,
            size,
            format.point(),
            format.places(),
            format.takes_fewer(),
        ) else {
            return false;
        };
        let Some(numbers) = self.arrays.number_type() else {
            return false;
        };
        self.arrays.put_coded(numbers, row, is_negative, units)
    }

    // Puts the amount of a text into a row's place, if the format of the column's integer parts is the standard one
    // with a separator, and the text is short, with or without groups of three digits.
    #[inline(never)]
    pub(crate) fn put_in_groups(&mut self, row: usize, text: &[u8]) -> bool
        requires places { self.old.description.places ≢ 0 }
        requires usable { IsUsable (row + 1) (target_of self.old) }
        ensures fault { IsTrue result → (start : ℕ) → text_fault (target_of self.old)
            (record { start = start; text = text.now }) ≡ None }
        ensures target { IsTrue result → (start : ℕ) → target_of self.new
            ≡ option_map (put_number row (record { start = start; text = text.now }))
            (target_of self.old) }
        ensures kept { result ≡ false → target_of self.new ≡ target_of self.old }
        ensures description { self.new.description ≡ self.old.description }
    {
        if !self.description.has_separator_alone() {
            return false;
        }
        let Some(numbers) = self.arrays.number_type() else {
            return false;
        };
        let Some((is_negative, units)) = units_in_groups(text, &self.description.separated()) else {
            return false;
        };
        self.arrays.put_coded(numbers, row, is_negative, units)
    }

    // Puts the fixed-point number of a text into a row's place, or returns the text's fault.
    #[inline(never)]
    pub(crate) fn put_fixed_number(
        &mut self,
        row: usize,
        start: usize,
        text: &[u8],
    ) -> Option<Error>
        requires numbers { keeps_text (target_of self.old) ≡ false }
        requires places { self.old.description.places ≢ 0 }
        requires usable { IsUsable (row + 1) (target_of self.old) }
        requires fits { start + length text.now < 2 ^ 64 }
        ensures fault { result ≡ text_fault (target_of self.old)
            (record { start = start; text = text.now }) }
        ensures target { target_of self.new ≡ option_map (put_number row
            (record { start = start; text = text.now })) (target_of self.old) }
    {
        if self.description.integer.digit_separator != 0 {
            if self.put_in_groups(row, text) {
                return None;
            }
        }
        self.put_fixed_parsed(row, start, text)
    }

    // Puts the fixed-point number of a text into a row's place, or returns the text's fault, by the parser.
    #[inline(never)]
    pub(crate) fn put_fixed_parsed(
        &mut self,
        row: usize,
        start: usize,
        text: &[u8],
    ) -> Option<Error>
        requires numbers { keeps_text (target_of self.old) ≡ false }
        requires places { self.old.description.places ≢ 0 }
        requires usable { IsUsable (row + 1) (target_of self.old) }
        requires fits { start + length text.now < 2 ^ 64 }
        ensures fault { result ≡ text_fault (target_of self.old)
            (record { start = start; text = text.now }) }
        ensures target { target_of self.new ≡ option_map (put_number row
            (record { start = start; text = text.now })) (target_of self.old) }
    {
        let Some(_) = self.arrays.number_type() else {
            return None;
        };
        let format = self.fixed_format();
        self.arrays.put_fixed(row, start, text, &format)
    }

    // Puts the fixed-point number of a text's first `size` bytes into a row's place, where it is read at once and its integer
    // part is decimal.
    #[inline(never)]
    pub(crate) fn put_fixed_at_once(&mut self, row: usize, ahead: &[u8], size: usize) -> bool
        requires places { self.old.description.places ≢ 0 }
        requires usable { IsUsable (row + 1) (target_of self.old) }
        requires within { size ≤ length ahead.now }
        ensures fault { IsTrue result → (start : ℕ) → text_fault (target_of self.old)
            (record { start = start; text = take size ahead.now }) ≡ None }
        ensures target { IsTrue result → (start : ℕ) → target_of self.new
            ≡ option_map (put_number row (record { start = start; text = take size ahead.now }))
            (target_of self.old) }
        ensures kept { result ≡ false → target_of self.new ≡ target_of self.old }
    {
        if !self.description.has_decimal_integer() {
            return false;
        }
        let format = self.description.decimal();
        let Some(numbers) = self.arrays.number_type() else {
            return false;
        };
        self.arrays
            .put_fixed_at_once(numbers, row, ahead, size, &format)
    }
}
