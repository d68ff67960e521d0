//! Where the numbers of a table's columns go.

ghost use Rattle.std.specs.Prelude.{◌≡◌, ◌≢◌, ◌+◌, ◌*◌, ◌<◌, ◌≤◌, ◌^◌, ℕ, Ok, Option, None, Some, false, length, take, map, set, is_some, option_map, pos, IfSome, IsNone, IsTrue, true};
ghost use Rattle.lexical_digits.specs.Value.{with_sign};
ghost use Rattle.lexical_util.specs.Format.{standard};
ghost use Rattle.lexical_util.specs.Number.{IsNumber};
ghost use Rattle.lexical_util.specs.Validity.{fault};
ghost use Rattle.lexical_fields.specs.ReadFields.{field_answer};
ghost use Rattle.lexical_tables.specs.Amounts.{HasAmounts, HasAmountsIfFixed, IsAmountText};
ghost use Rattle.lexical_tables.specs.ByColumn.{IsUsable};
ghost use Rattle.lexical_tables.specs.Codes.{IsCode, IsReadAs, coded_type};
ghost use Rattle.lexical_tables.specs.Readings.{Number, Text};
ghost use Rattle.lexical_tables.specs.Targets.{TargetView, error_in, has_bits, has_numbers, keeps_text, put_text, put_value, slice_of, text_answer, text_fault, view_of_target, view_of_text, with_number, with_row_bit};

mod target_cells;

use crate::at_once::put_at_once;
use crate::cell_text::CellText;
use crate::codes::{NOT_READ, TEXTS, UNKNOWN};
use crate::numbers::Numbers;
use crate::parsed::{put_parsed, put_standard_parsed};
use lexical_parse_integer::parse::ParseInteger;
use lexical_parse_integer::{Error, NumberFormat, Options, format};

/// What is read of a column: numbers under a format, into a slice.
#[derive(Drop)]
pub struct Target<'a> {
    /// The format of its cells.
    pub format: NumberFormat,
    /// Where its numbers go, each at its row's number.
    pub numbers: Numbers<'a>,
    /// Where the bits go that are 1 for rows that have a number, and 0 for those where it is missing: for row
    /// `k` the bit `k & 7` of byte `k >> 3`, the lowest bit being 0. Without it no number may be missing.
    pub present: Option<&'a mut [u8]>,
}

/// Puts the number of a cell that starts at a place into a row's place of a slice, or returns the cell's fault.
///
/// It is for implementations of [`TableColumn`]. The format has to be valid, and the slice has to have that place.
/// `ahead` begins with the cell: if enough bytes follow there, digits are read as words.
#[inline(always)]
pub fn put_cell<T: ParseInteger>(
    values: &mut [T],
    row: usize,
    start: usize,
    cell: &[u8],
    ahead: &[u8],
    format: &NumberFormat,
    options: &Options,
) -> Option<Error>
    requires valid { IsNone (fault format.now) }
    requires front { cell.now ≡ take (length cell.now) ahead.now }
    requires room { row < length values.old }
    requires fits { start + length cell.now < 2 ^ 64 }
    ensures fault { result ≡ error_in (field_answer format.now T.TYPE
        (record { start = start; text = cell.now })) }
    ensures numbers { map T.number values.new ≡ with_number row (field_answer format.now T.TYPE
        (record { start = start; text = cell.now })) (map T.number values.old) }
{
    if put_at_once::<T>(values, row, ahead, cell.len(), format) {
        return None;
    }
    put_parsed(values, row, start, cell, format)
}

/// Puts the number of a cell into a row's place of a slice, as [`put_cell`] does under the standard format.
#[inline(always)]
pub fn put_standard_cell<T: ParseInteger>(
    values: &mut [T],
    row: usize,
    start: usize,
    cell: &[u8],
    ahead: &[u8],
    options: &Options,
) -> Option<Error>
    requires front { cell.now ≡ take (length cell.now) ahead.now }
    requires room { row < length values.old }
    requires fits { start + length cell.now < 2 ^ 64 }
    ensures fault { result ≡ error_in (field_answer standard T.TYPE
        (record { start = start; text = cell.now })) }
    ensures numbers { map T.number values.new ≡ with_number row (field_answer standard T.TYPE
        (record { start = start; text = cell.now })) (map T.number values.old) }
{
    if put_at_once::<T>(values, row, ahead, cell.len(), &format::STANDARD) {
        return None;
    }
    put_standard_parsed(values, row, start, cell)
}

/// Puts 0 into a row's place of a slice.
///
/// It is for implementations of [`TableColumn`]. The slice has to have that place.
pub fn put_zero<T: ParseInteger>(values: &mut [T], row: usize)
    requires room { row < length values.old }
    ensures { map T.number values.new ≡ set (map T.number values.old) row (pos 0) }
{
    values[row] = T::from_u32(0);
}

/// Sets the bit of a row, or clears it.
///
/// It is for implementations of [`TableColumn`]. The bytes have to have that bit.
#[inline]
pub fn put_bit(bytes: &mut [u8], row: usize, is_there: bool)
    requires room { row < 8 * length bytes.old }
    ensures { bytes.new ≡ with_row_bit row is_there bytes.old }
{
    let place = row / 8;
    let bit = 1_u8 << (row % 8);
    if is_there {
        bytes[place] |= bit;
    } else {
        bytes[place] &= !bit;
    }
}

// Sets a row's bit, or clears it, where there are bits.
#[inline(always)]
pub(crate) fn put_presence(present: &mut Option<&mut [u8]>, row: usize, is_there: bool)
    requires room { IfSome (option_map (λ bytes. bytes.now) present.old)
        (λ bytes. row + 1 ≤ 8 * length bytes) }
    ensures bits { option_map (λ bytes. bytes.now) present.new
        ≡ option_map (with_row_bit row is_there) (option_map (λ bytes. bytes.now) present.old) }
    ensures same { option_map slice_of present.new ≡ option_map slice_of present.old }
{
    if let Some(bytes) = present {
        put_bit(bytes, row, is_there);
    }
}

/// A column of a table: its cells are read, and their numbers put somewhere, or they aren't read.
///
/// An `Option<Target>` is one. Another type may be one too, if it meets the clauses.
pub trait TableColumn {
    // The target that the column has, if any.
    ghost target: { Self → Option TargetView };

    /// Whether its cells are read.
    fn is_read(&self) -> bool
        ensures { result ≡ is_some (target self.now) };

    /// Whether its cells are texts, of which it keeps where they stand.
    fn is_text(&self) -> bool
        ensures { result ≡ keeps_text (target self.now) };

    /// Whether a number, or a text, may be missing in it.
    fn may_miss(&self) -> bool
        ensures { result ≡ has_bits (target self.now) };

    /// Puts 0, or a text of no bytes, into a row's place, and clears the row's bit.
    fn put_missing(&mut self, row: usize)
        requires usable { IsUsable (row + 1) (target self.old) }
        ensures { target self.new ≡ option_map (put_value row None) (target self.old) };

    /// Puts where a text stands into a row's place, and sets the row's bit, if the code is `TEXTS`. The code has to be
    /// right for the column. With another code nothing changes.
    fn put_text(&mut self, code: u8, row: usize, text: CellText)
        requires code { IsCode code (target self.old) }
        requires usable { IsUsable (row + 1) (target self.old) }
        ensures text { code ≡ TEXTS → target self.new
            ≡ option_map (put_value row (Some (Text (view_of_text text)))) (target self.old) }
        ensures other { code ≢ TEXTS → target self.new ≡ target self.old };

    /// Puts the number that all of a text stands for into a row's place, and sets the row's bit, or returns the
    /// text's fault. What is ahead begins with the text.
    fn read(
        &mut self,
        row: usize,
        start: usize,
        text: &[u8],
        ahead: &[u8],
        options: &Options,
    ) -> Option<Error>
        requires usable { IsUsable (row + 1) (target self.old) }
        requires front { text.now ≡ take (length text.now) ahead.now }
        requires fits { start + length text.now < 2 ^ 64 }
        ensures fault { result ≡ text_fault (target self.old)
            (record { start = start; text = text.now }) }
        ensures target { target self.new ≡ option_map (put_text row
            (record { start = start; text = text.now })) (target self.old) };

    /// The fast path: puts the number that a text's first `size` bytes stand for into a row's place, and sets the row's
    /// bit, and returns whether it did. If not, nothing changes, and nothing is known of the bytes: `read_left` has to
    /// be called.
    ///
    /// By default it reads nothing, and the column is read by `read` alone.
    fn read_at_once(&mut self, row: usize, ahead: &[u8], size: usize) -> bool
        requires usable { IsUsable (row + 1) (target self.old) }
        requires within { size ≤ length ahead.now }
        ensures fault { IsTrue result → (start : ℕ) → text_fault (target self.old)
            (record { start = start; text = take size ahead.now }) ≡ None }
        ensures target { IsTrue result → (start : ℕ) → target self.new ≡ option_map (put_text row
            (record { start = start; text = take size ahead.now })) (target self.old) }
        ensures kept { result ≡ false → target self.new ≡ target self.old }
    {
        false
    }

    /// Does what `read` does, for a text that `read_at_once` left or wasn't called for: it needn't try that first.
    ///
    /// By default it calls `read`.
    #[inline(always)]
    fn read_left(
        &mut self,
        row: usize,
        start: usize,
        text: &[u8],
        ahead: &[u8],
        options: &Options,
    ) -> Option<Error>
        requires usable { IsUsable (row + 1) (target self.old) }
        requires front { text.now ≡ take (length text.now) ahead.now }
        requires fits { start + length text.now < 2 ^ 64 }
        ensures fault { result ≡ text_fault (target self.old)
            (record { start = start; text = text.now }) }
        ensures target { target self.new ≡ option_map (put_text row
            (record { start = start; text = text.now })) (target self.old) }
    {
        self.read(row, start, text, ahead, options)
    }

    /// Whether its cells are amounts that `read_amount` reads. This is asked once per call, of a column whose code is
    /// `AT_ONCE`.
    fn has_amounts(&self) -> bool
        ensures { IsTrue result → HasAmounts (target self.now) }
    {
        false
    }

    /// Does what `read_at_once` does, for an amount that [`units_of_front`](crate::units_of_front) reads. It is called
    /// on a column of fixed-point numbers only if `has_amounts` is true. By default it reads nothing.
    fn read_amount(&mut self, row: usize, ahead: &[u8], size: usize) -> bool
        requires amounts { HasAmountsIfFixed (target self.old) }
        requires usable { IsUsable (row + 1) (target self.old) }
        requires room { size + 17 ≤ length ahead.now }
        ensures bytes { IsTrue result → IsAmountText (take size ahead.now) }
        ensures fault { IsTrue result → (start : ℕ) → text_fault (target self.old)
            (record { start = start; text = take size ahead.now }) ≡ None }
        ensures target { IsTrue result → (start : ℕ) → target self.new ≡ option_map (put_text row
            (record { start = start; text = take size ahead.now })) (target self.old) }
        ensures kept { result ≡ false → target self.new ≡ target self.old }
    {
        false
    }

    /// Puts the number that a text's first `size` bytes stand for into a row's place, and returns whether it did. If
    /// not, nothing changes, and nothing is known of the bytes: `read` has to be called. It is called only on a column
    /// whose code is `PARSED`, and that has no bits.
    ///
    /// By default it calls `read_left`.
    #[inline(never)]
    fn read_parsed(&mut self, row: usize, ahead: &[u8], size: usize, options: &Options) -> bool
        requires numbers { has_numbers (target self.old) ≡ true }
        requires bits { has_bits (target self.old) ≡ false }
        requires usable { IsUsable (row + 1) (target self.old) }
        requires within { size ≤ length ahead.now }
        ensures fault { IsTrue result → text_fault (target self.old)
            (record { start = 0; text = take size ahead.now }) ≡ None }
        ensures target { IsTrue result → target self.new ≡ option_map (put_text row
            (record { start = 0; text = take size ahead.now })) (target self.old) }
        ensures kept { result ≡ false → target self.new ≡ target self.old }
    {
        self.read_left(row, 0, &ahead[..size], ahead, options)
            .is_none()
    }

    /// The code of the column, one of [`codes`](crate::codes), which describes all its cells. It is asked for once per
    /// call. `UNKNOWN`, the default, is always right.
    ///
    /// A column with the code of a type has to write `put_number` too, if its numbers are to be put by that.
    #[inline(always)]
    fn code(&self) -> u8
        ensures { IsCode result (target self.now) }
    {
        UNKNOWN
    }

    /// Puts a number with its sign into a row's place, and sets the row's bit, if the column's type has it, and returns
    /// whether it did. If not, nothing changes. The code has to be that of the column, and of a type.
    ///
    /// By default it puts nothing.
    #[inline(always)]
    fn put_number(&mut self, code: u8, row: usize, is_negative: bool, number: u64) -> bool
        requires code { IsReadAs code (target self.old) }
        requires read { 8 ≤ code }
        requires usable { IsUsable (row + 1) (target self.old) }
        requires small { number < 2 ^ 63 }
        ensures fits { IsTrue result → IsNumber (coded_type code) (with_sign is_negative number) }
        ensures minus { IsTrue result → IsTrue is_negative → (coded_type code).is_signed ≡ true }
        ensures target { IsTrue result → target self.new ≡ option_map
            (put_value row (Some (Number (with_sign is_negative number)))) (target self.old) }
        ensures kept { result ≡ false → target self.new ≡ target self.old }
    {
        false
    }
}

impl TableColumn for Option<Target<'_>> {
    ghost target = { option_map view_of_target };

    #[inline(always)]
    fn is_read(&self) -> bool {
        self.is_some()
    }

    #[inline(always)]
    fn is_text(&self) -> bool {
        false
    }

    #[inline(always)]
    fn may_miss(&self) -> bool {
        match self {
            Some(target) => target.present.is_some(),
            None => false,
        }
    }

    fn put_text(&mut self, code: u8, row: usize, text: CellText) {}

    fn put_missing(&mut self, row: usize) {
        match self {
            Some(target) => target.put_missing(row),
            None => {}
        }
    }

    #[inline(always)]
    fn read(
        &mut self,
        row: usize,
        start: usize,
        text: &[u8],
        ahead: &[u8],
        options: &Options,
    ) -> Option<Error> {
        if self.read_at_once(row, ahead, text.len()) {
            return None;
        }
        self.read_left(row, start, text, ahead, options)
    }

    #[inline(always)]
    fn read_at_once(&mut self, row: usize, ahead: &[u8], size: usize) -> bool {
        match self {
            Some(target) => target.read_at_once(row, ahead, size),
            None => false,
        }
    }

    #[inline(always)]
    fn read_left(
        &mut self,
        row: usize,
        start: usize,
        text: &[u8],
        ahead: &[u8],
        options: &Options,
    ) -> Option<Error> {
        match self {
            Some(target) => target.read_left(row, start, text),
            None => None,
        }
    }

    #[inline(always)]
    fn code(&self) -> u8 {
        match self {
            Some(target) => target.code(),
            None => NOT_READ,
        }
    }

    #[inline(always)]
    fn put_number(&mut self, code: u8, row: usize, is_negative: bool, number: u64) -> bool {
        match self {
            Some(target) => target.put_with_sign(row, is_negative, number),
            None => unreachable!(),
        }
    }
}
