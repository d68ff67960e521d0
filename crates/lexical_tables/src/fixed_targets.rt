//! Columns of fixed-point numbers.

ghost use Rattle.std.specs.Prelude.{◌≡◌, ◌+◌, ◌*◌, ◌<◌, ◌≤◌, ◌^◌, ℕ, IfSome, IsNone, IsTrue, None, Some, false, length, map, option_map, pos, set, take};
ghost use Rattle.lexical_fixed.specs.Validity.{fixed_fault};
ghost use Rattle.lexical_tables.specs.Amounts.{HasAmounts, IsAmountText};
ghost use Rattle.lexical_tables.specs.ByColumn.{IsUsable};
ghost use Rattle.lexical_tables.specs.Codes.{IsCode};
ghost use Rattle.lexical_tables.specs.Readings.{Number, fixed_answer};
ghost use Rattle.lexical_tables.specs.Targets.{error_in, put_text, put_value, text_answer, text_fault, view_of_fixed, with_number, with_row_bit};

use crate::amounts::{breaks_zero_rule, is_quick, units_of_front};
use crate::codes::{AT_ONCE, PARSED};
use crate::numbers::Numbers;
use crate::targets::put_presence;
use lexical_fields::error_in_text;
use lexical_fixed::laws::fault_places;
use lexical_fixed::quick::{callers, complete_if_not_short, value_if_short};
use lexical_fixed::{FixedFormat, ParseFixed};
use lexical_parse_integer::Error;

/// What is read of a column: fixed-point numbers under a description, into a slice.
#[derive(Drop)]
pub struct FixedTarget<'a> {
    /// The description of its cells. It has to be valid.
    pub format: FixedFormat,
    /// Where its numbers go, each at its row's number, in units of the last place.
    pub numbers: Numbers<'a>,
    /// Where the bits go that say which rows have a number, as those of a [`Target`](crate::Target) do. Without it no number
    /// may be missing.
    pub present: Option<&'a mut [u8]>,
}

/// Puts the fixed-point number of a cell that starts at a place into a row's place of a slice, in units of the last
/// place, or returns the cell's fault. Most are read faster by [`put_fixed_at_once`], which is best called first.
///
/// It is for implementations of [`TableColumn`](crate::TableColumn). The description has to be valid, and the slice has
/// to have that place.
#[inline(never)]
pub fn put_fixed<T: ParseFixed>(
    values: &mut [T],
    row: usize,
    start: usize,
    cell: &[u8],
    format: &FixedFormat,
) -> Option<Error>
    requires valid { IsNone (fixed_fault format.now) }
    requires room { row < length values.old }
    requires fits { start + length cell.now < 2 ^ 64 }
    ensures fault { result ≡ error_in (fixed_answer format.now T.TYPE
        (record { start = start; text = cell.now })) }
    ensures numbers { map T.number values.new ≡ with_number row (fixed_answer format.now T.TYPE
        (record { start = start; text = cell.now })) (map T.number values.old) }
{
    // The law by which a fault's place is at most the cell's length, so that the sum fits.
    fault_places();
    match complete_if_not_short::<T>(cell, format) {
        Ok(value) => {
            values[row] = value;
            None
        }
        Err(error) => Some(error_in_text(start, error)),
    }
}

/// Stores the fixed-point number that the first `size` bytes of a text write at the row's place of a slice, in units of
/// the last place, if the fast path reads it, and returns whether it did. If not, nothing changes, and nothing is known
/// of the bytes.
///
/// It reads most texts of four to sixteen bytes, alone or behind a minus, that are digits around a point with all
/// places, at most seven. If fewer places are taken, it also reads most texts of up to eight bytes with fewer digits
/// behind the point, or without a point.
///
/// It is for implementations of [`TableColumn`](crate::TableColumn). The description has to be valid, and the slice has
/// to have that place.
#[inline(always)]
pub fn put_fixed_at_once<T: ParseFixed>(
    values: &mut [T],
    row: usize,
    ahead: &[u8],
    size: usize,
    format: &FixedFormat,
) -> bool
    requires valid { IsNone (fixed_fault format.now) }
    requires room { row < length values.old }
    requires within { size ≤ length ahead.now }
    ensures fault { IsTrue result → (start : ℕ) → error_in (fixed_answer format.now T.TYPE
        (record { start = start; text = take size ahead.now })) ≡ None }
    ensures numbers { IsTrue result → (start : ℕ) → map T.number values.new
        ≡ with_number row (fixed_answer format.now T.TYPE
        (record { start = start; text = take size ahead.now })) (map T.number values.old) }
    ensures kept { result ≡ false → values.new ≡ values.old }
{
    match value_if_short::<T, { callers::CELL }>(&ahead[..size], format) {
        Some(value) => {
            values[row] = value;
            true
        }
        None => false,
    }
}

impl FixedTarget<'_> {
    // The code of the column: amounts are read at once, and other fixed-point numbers are parsed.
    pub(crate) fn code(&self) -> u8
        ensures { IsCode result (Some (view_of_fixed self.now)) }
    {
        if is_quick(&self.format) {
            AT_ONCE
        } else {
            PARSED
        }
    }

    // Puts 0 into a row's place, and clears the row's bit.
    pub(crate) fn put_missing(&mut self, row: usize)
        requires usable { IsUsable (row + 1) (Some (view_of_fixed self.old)) }
        ensures { view_of_fixed self.new ≡ put_value row None (view_of_fixed self.old) }
    {
        self.numbers.put_zero(row);
        put_presence(&mut self.present, row, false);
    }

    // Puts the number of a text's first `size` bytes into a row's place, and sets the row's bit, where it is read at once, and
    // returns whether it did.
    pub(crate) fn read_at_once(&mut self, row: usize, ahead: &[u8], size: usize) -> bool
        requires usable { IsUsable (row + 1) (Some (view_of_fixed self.old)) }
        requires within { size ≤ length ahead.now }
        ensures fault { IsTrue result → (start : ℕ) → text_fault (Some (view_of_fixed self.old))
            (record { start = start; text = take size ahead.now }) ≡ None }
        ensures target { IsTrue result → (start : ℕ) → view_of_fixed self.new ≡ put_text row
            (record { start = start; text = take size ahead.now }) (view_of_fixed self.old) }
        ensures kept { result ≡ false → view_of_fixed self.new ≡ view_of_fixed self.old }
    {
        if !self.put_number_at_once(row, ahead, size) {
            return false;
        }
        put_presence(&mut self.present, row, true);
        true
    }

    // Puts the number of a text's first `size` bytes into a row's place, where it is read at once.
    fn put_number_at_once(&mut self, row: usize, ahead: &[u8], size: usize) -> bool
        requires valid { IsNone (fixed_fault self.old.format) }
        requires room { row < length (view_of_fixed self.old).values }
        requires within { size ≤ length ahead.now }
        ensures fault { IsTrue result → (start : ℕ) → text_fault (Some (view_of_fixed self.old))
            (record { start = start; text = take size ahead.now }) ≡ None }
        ensures target { IsTrue result → (start : ℕ) → view_of_fixed self.new
            ≡ record (view_of_fixed self.old) {
              values = with_number row (text_answer (view_of_fixed self.old)
                  (record { start = start; text = take size ahead.now }))
                  (view_of_fixed self.old).values;
            } }
        ensures kept { result ≡ false → view_of_fixed self.new ≡ view_of_fixed self.old }
    {
        self.numbers
            .put_fixed_at_once(row, ahead, size, &self.format)
    }

    // Puts the amount of a text's first `size` bytes into a row's place, and sets the row's bit, where it is read at once, and
    // returns whether it did.
    #[inline(always)]
    pub(crate) fn read_amount(&mut self, row: usize, ahead: &[u8], size: usize) -> bool
        requires amounts { HasAmounts (Some (view_of_fixed self.old)) }
        requires usable { IsUsable (row + 1) (Some (view_of_fixed self.old)) }
        requires room { size + 17 ≤ length ahead.now }
        ensures bytes { IsTrue result → IsAmountText (take size ahead.now) }
        ensures fault { IsTrue result → (start : ℕ) → text_fault (Some (view_of_fixed self.old))
            (record { start = start; text = take size ahead.now }) ≡ None }
        ensures target { IsTrue result → (start : ℕ) → view_of_fixed self.new ≡ put_text row
            (record { start = start; text = take size ahead.now }) (view_of_fixed self.old) }
        ensures kept { result ≡ false → view_of_fixed self.new ≡ view_of_fixed self.old }
    {
        if !self.put_amount(row, ahead, size) {
            return false;
        }
        put_presence(&mut self.present, row, true);
        true
    }

    // Puts the amount of a text's first `size` bytes into a row's place, where it is read at once.
    #[inline(always)]
    fn put_amount(&mut self, row: usize, ahead: &[u8], size: usize) -> bool
        requires amounts { HasAmounts (Some (view_of_fixed self.old)) }
        requires usable { IsUsable (row + 1) (Some (view_of_fixed self.old)) }
        requires room { size + 17 ≤ length ahead.now }
        ensures bytes { IsTrue result → IsAmountText (take size ahead.now) }
        ensures fault { IsTrue result → (start : ℕ) → text_fault (Some (view_of_fixed self.old))
            (record { start = start; text = take size ahead.now }) ≡ None }
        ensures target { IsTrue result → (start : ℕ) → view_of_fixed self.new
            ≡ record (view_of_fixed self.old) {
              values = with_number row (text_answer (view_of_fixed self.old)
                  (record { start = start; text = take size ahead.now }))
                  (view_of_fixed self.old).values;
            } }
        ensures kept { result ≡ false → view_of_fixed self.new ≡ view_of_fixed self.old }
    {
        let format = &self.format;
        let has_rule = format.integer().no_integer_leading_zeros();
        if breaks_zero_rule(ahead, size, has_rule, format.point()) {
            return false;
        }
        let Some((is_negative, units)) = units_of_front(
            ahead,
            size,
            format.point(),
            format.places(),
            format.takes_fewer(),
        ) else {
            return false;
        };
        self.numbers.put_with_sign(row, is_negative, units)
    }

    // Puts the number of a text into a row's place, and sets the row's bit, or returns the text's fault.
    pub(crate) fn read(&mut self, row: usize, start: usize, text: &[u8]) -> Option<Error>
        requires usable { IsUsable (row + 1) (Some (view_of_fixed self.old)) }
        requires fits { start + length text.now < 2 ^ 64 }
        ensures fault { result ≡ error_in (text_answer (view_of_fixed self.old)
            (record { start = start; text = text.now })) }
        ensures target { view_of_fixed self.new ≡ put_text row
            (record { start = start; text = text.now }) (view_of_fixed self.old) }
    {
        if let Some(error) = self.put_number(row, start, text) {
            return Some(error);
        }
        put_presence(&mut self.present, row, true);
        None
    }

    // Puts the number of a text into a row's place, or returns the text's fault.
    fn put_number(&mut self, row: usize, start: usize, text: &[u8]) -> Option<Error>
        requires valid { IsNone (fixed_fault self.old.format) }
        requires room { row < length (view_of_fixed self.old).values }
        requires fits { start + length text.now < 2 ^ 64 }
        ensures fault { result ≡ error_in (text_answer (view_of_fixed self.old)
            (record { start = start; text = text.now })) }
        ensures target { view_of_fixed self.new ≡ record (view_of_fixed self.old) {
          values = with_number row (text_answer (view_of_fixed self.old)
              (record { start = start; text = text.now })) (view_of_fixed self.old).values;
        } }
    {
        self.numbers.put_fixed(row, start, text, &self.format)
    }
}
