//! The columns of a table, as C writes them.

ghost use Rattle.std.specs.Prelude.{◌≡◌, ◌≢◌, ◌+◌, is_none, ◌<◌, ◌≤◌, ◌^◌, ℕ, IsTrue, None, Some, false, length, take, option_map, true};
ghost use Rattle.lexical_util.specs.Format.{standard};
ghost use Rattle.lexical_tables.specs.ByColumn.{IsUsable};
ghost use Rattle.lexical_tables.specs.Readings.{Text};
ghost use Rattle.lexical_tables.specs.Targets.{has_bits, keeps_text, put_value, text_fault};
ghost use Rattle.jadvolni.specs.Arrays.{array_in};
ghost use Rattle.jadvolni.specs.FormatFields.{format_of};
ghost use Rattle.jadvolni.specs.Tables.{bits_of, column_status, lacks_bits, put_number, put_presence, put_zero, target_of};

use crate::arrays::ArrayFields;
use crate::fixed::FixedFields;
use crate::text_columns::{TextFields, text_fields};
use lexical_parse_integer::{Error, Options};
use lexical_tables::codes::{NOT_READ, PARSED, TEXTS, has_bits, under_format};
use lexical_tables::{CellText, TableColumn, put_bit};

/// The status of an invalid table: no text can be read with it.
pub const INVALID_TABLE: u32 = 17;

/// A column of a table: `jadvolni_table_column` in C, where each field is described.
///
/// If an array of numbers has room, the cells are read as numbers of that array's type: fixed-point numbers if the
/// description has places, and integers otherwise. Or else, if the array of texts has room, they are texts. If no array
/// has room, the column isn't read, and its format has to have the radix 0. If there is room for bits, a number or a
/// text may be missing.
#[repr(C)]
#[derive(Drop)]
pub struct ColumnFields<'a> {
    pub description: FixedFields,
    pub arrays: ArrayFields<'a>,
    pub texts: &'a mut [TextFields],
    pub present: &'a mut [u8],
}

impl ColumnFields<'_> {
    // Whether its numbers are integers under the standard format.
    #[inline(always)]
    fn is_standard(&self) -> bool
        ensures standard { IsTrue result → format_of self.now.description.integer ≡ standard }
        ensures integers { IsTrue result → self.now.description.places ≡ 0 }
    {
        self.description.places == 0 && self.description.integer.is_standard()
    }

    // Whether no array of numbers has room. Out of line, since only columns with an array of texts ask this.
    #[inline(never)]
    fn has_no_numbers(&self) -> bool
        ensures { result ≡ is_none (array_in self.now.arrays) }
    {
        self.arrays.room().is_none()
    }

    // Whether the column has bits, and too few for `rows` rows.
    fn lacks_bits(&self, rows: usize) -> bool
        ensures { result ≡ lacks_bits rows (bits_of self.now.present.now) }
    {
        !self.present.is_empty() && rows > 0 && self.present.len() <= (rows - 1) / 8
    }

    // Sets the bit of a row, or clears it, in a column that has bits.
    #[inline(always)]
    #[tactic(auto, using(crate::proofs::TableBits::bits_put, crate::proofs::TableBits::bits_there, crate::proofs::TableBits::slice_stays))]
    fn put_row_bit(&mut self, row: usize, is_there: bool)
        requires bits { has_bits (target_of self.old) ≡ true }
        requires usable { IsUsable (row + 1) (target_of self.old) }
        ensures { target_of self.new ≡ option_map (put_presence row is_there) (target_of self.old) }
    {
        put_bit(self.present, row, is_there);
    }

    // Sets the bit of a row, or clears it, if the column is read and has bits.
    #[inline(always)]
    #[tactic(auto, using(crate::proofs::TableBits::no_bit))]
    fn put_presence(&mut self, row: usize, is_there: bool)
        requires usable { IsUsable (row + 1) (target_of self.old) }
        ensures { target_of self.new ≡ option_map (put_presence row is_there) (target_of self.old) }
    {
        if self.may_miss() {
            self.put_row_bit(row, is_there);
        }
    }

    // Puts 0, or a text of no bytes, into a row's place.
    fn put_zero(&mut self, row: usize)
        requires usable { IsUsable (row + 1) (target_of self.old) }
        ensures { target_of self.new ≡ option_map (put_zero row) (target_of self.old) }
    {
        if self.is_text() {
            self.put_no_text(row);
        } else {
            self.arrays.put_zero(row);
        }
    }

    // Puts the integer of a text that isn't read at once into a row's place, or returns the text's fault, under the standard
    // format.
    #[inline(always)]
    fn put_standard_number(&mut self, row: usize, start: usize, text: &[u8]) -> Option<Error>
        requires numbers { keeps_text (target_of self.old) ≡ false }
        requires standard { format_of self.old.description.integer ≡ standard }
        requires integers { self.old.description.places ≡ 0 }
        requires usable { IsUsable (row + 1) (target_of self.old) }
        requires fits { start + length text.now < 2 ^ 64 }
        ensures fault { result ≡ text_fault (target_of self.old)
            (record { start = start; text = text.now }) }
        ensures target { target_of self.new ≡ option_map (put_number row
            (record { start = start; text = text.now })) (target_of self.old) }
    {
        self.arrays.put_standard_parsed(row, start, text)
    }

    // Puts the number of a text that the fast path left into a row's place, or returns the text's fault. Under the
    // standard format, which most columns have, the fast path isn't tried again; under another one it hasn't been tried
    // yet.
    #[inline(always)]
    fn put_parsed_number(
        &mut self,
        row: usize,
        start: usize,
        text: &[u8],
        ahead: &[u8],
        options: &Options,
    ) -> Option<Error>
        requires numbers { keeps_text (target_of self.old) ≡ false }
        requires usable { IsUsable (row + 1) (target_of self.old) }
        requires front { text.now ≡ take (length text.now) ahead.now }
        requires fits { start + length text.now < 2 ^ 64 }
        ensures fault { result ≡ text_fault (target_of self.old)
            (record { start = start; text = text.now }) }
        ensures target { target_of self.new ≡ option_map (put_number row
            (record { start = start; text = text.now })) (target_of self.old) }
    {
        if self.description.places != 0 {
            return self.put_fixed_number(row, start, text);
        }
        if self.is_standard() {
            return self.put_standard_number(row, start, text);
        }
        self.put_other_number(row, start, text, ahead, options)
    }

    // Puts the number of a text's first `size` bytes into a row's place, where it is read at once.
    #[inline(always)]
    fn put_number_at_once(&mut self, row: usize, ahead: &[u8], size: usize) -> bool
        requires usable { IsUsable (row + 1) (target_of self.old) }
        requires within { size ≤ length ahead.now }
        ensures fault { IsTrue result → (start : ℕ) → text_fault (target_of self.old)
            (record { start = start; text = take size ahead.now }) ≡ None }
        ensures target { IsTrue result → (start : ℕ) → target_of self.new
            ≡ option_map (put_number row (record { start = start; text = take size ahead.now }))
            (target_of self.old) }
        ensures kept { result ≡ false → target_of self.new ≡ target_of self.old }
    {
        if self.description.places != 0 {
            return self.put_fixed_at_once(row, ahead, size);
        }
        if !self.is_standard() {
            return false;
        }
        self.put_standard_at_once(row, ahead, size)
    }

    // Puts the integer of a text's first `size` bytes into a row's place, where it is read at once under the standard format.
    #[inline(always)]
    fn put_standard_at_once(&mut self, row: usize, ahead: &[u8], size: usize) -> bool
        requires standard { format_of self.old.description.integer ≡ standard }
        requires integers { self.old.description.places ≡ 0 }
        requires usable { IsUsable (row + 1) (target_of self.old) }
        requires within { size ≤ length ahead.now }
        ensures fault { IsTrue result → (start : ℕ) → text_fault (target_of self.old)
            (record { start = start; text = take size ahead.now }) ≡ None }
        ensures target { IsTrue result → (start : ℕ) → target_of self.new
            ≡ option_map (put_number row (record { start = start; text = take size ahead.now }))
            (target_of self.old) }
        ensures kept { result ≡ false → target_of self.new ≡ target_of self.old }
    {
        if self.is_text() {
            return false;
        }
        self.arrays.put_at_once(row, ahead, size)
    }

    /// What is wrong with the column, if it is to hold this many rows.
    pub fn status(&self, rows: usize) -> u32
        ensures { result ≡ column_status rows self.now }
    {
        match self.arrays.room() {
            Some(room) => self.number_status(room, rows),
            None if !self.texts.is_empty() => self.text_status(rows),
            None if rows == 0 || self.description.integer.mantissa_radix == 0 => 0,
            None => INVALID_TABLE,
        }
    }

    // What is wrong with a column of numbers that has an array of some room, if `rows` rows are asked for.
    fn number_status(&self, room: usize, rows: usize) -> u32
        requires room { option_map (λ array. length array.numbers) (array_in self.now.arrays)
            ≡ Some room }
        ensures { result ≡ column_status rows self.now }
    {
        if room < rows {
            return INVALID_TABLE;
        }
        if self.lacks_bits(rows) {
            return INVALID_TABLE;
        }
        self.description.number_status()
    }

    // What is wrong with a column of texts, if `rows` rows are asked for.
    fn text_status(&self, rows: usize) -> u32
        requires texts { array_in self.now.arrays ≡ None }
        requires some { length self.now.texts.now ≢ 0 }
        ensures { result ≡ column_status rows self.now }
    {
        if self.texts.len() < rows || self.lacks_bits(rows) {
            INVALID_TABLE
        } else {
            0
        }
    }
}

impl TableColumn for ColumnFields<'_> {
    ghost target = { target_of };

    #[inline(always)]
    fn is_read(&self) -> bool {
        !self.texts.is_empty() || self.arrays.number_type().is_some()
    }

    #[inline(always)]
    fn is_text(&self) -> bool {
        !self.texts.is_empty() && self.has_no_numbers()
    }

    #[inline(always)]
    fn may_miss(&self) -> bool {
        !self.present.is_empty() && self.is_read()
    }

    #[inline(never)]
    fn put_missing(&mut self, row: usize) {
        self.put_zero(row);
        self.put_presence(row, false);
    }

    #[inline(always)]
    fn put_text(&mut self, code: u8, row: usize, text: CellText) {
        if code == TEXTS {
            self.put_place(row, text_fields(text));
            self.put_presence(row, true);
        }
    }

    fn read(
        &mut self,
        row: usize,
        start: usize,
        text: &[u8],
        ahead: &[u8],
        options: &Options,
    ) -> Option<Error> {
        if self.read_at_once(row, ahead, text.len()) {
            return None;
        }
        self.read_left(row, start, text, ahead, options)
    }

    // Doesn't try a column of another format: `read_left` builds that format, once.
    #[inline(always)]
    fn read_at_once(&mut self, row: usize, ahead: &[u8], size: usize) -> bool {
        if !self.put_number_at_once(row, ahead, size) {
            return false;
        }
        self.put_presence(row, true);
        true
    }

    #[inline(always)]
    fn read_left(
        &mut self,
        row: usize,
        start: usize,
        text: &[u8],
        ahead: &[u8],
        options: &Options,
    ) -> Option<Error> {
        if self.is_text() {
            self.put_whole_text(row, start, text.len());
            return None;
        }
        if let Some(error) = self.put_parsed_number(row, start, text, ahead, options) {
            return Some(error);
        }
        self.put_presence(row, true);
        None
    }

    // Out of line, so that the loop over cells stays small.
    #[inline(never)]
    fn read_parsed(&mut self, row: usize, ahead: &[u8], size: usize, options: &Options) -> bool {
        self.put_bare_number(row, &ahead[..size])
    }

    #[inline(always)]
    fn code(&self) -> u8 {
        let Some(numbers) = self.arrays.number_type() else {
            return if self.texts.is_empty() {
                NOT_READ
            } else {
                TEXTS
            };
        };
        if self.description.places != 0 {
            return self.fixed_code();
        }
        let code = self.standard_code(numbers);
        if self.is_standard() {
            return code;
        }
        let fields = &self.description.integer;
        if !fields.is_plain_decimal() {
            return PARSED;
        }
        under_format(code, &fields.decimal_format())
    }

    #[inline(always)]
    fn has_amounts(&self) -> bool {
        self.has_quick_amounts()
    }

    #[inline(always)]
    fn read_amount(&mut self, row: usize, ahead: &[u8], size: usize) -> bool {
        if !self.put_amount(row, ahead, size) {
            return false;
        }
        self.put_presence(row, true);
        true
    }

    #[inline(always)]
    fn put_number(&mut self, code: u8, row: usize, is_negative: bool, number: u64) -> bool {
        if !self.put_coded_number(code, row, is_negative, number) {
            return false;
        }
        if has_bits(code) {
            self.put_row_bit(row, true);
        }
        true
    }
}
