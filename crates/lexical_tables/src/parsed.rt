//! Numbers of cells that aren't read at once, and faults of cells.

ghost use Rattle.std.specs.Prelude.{◌≡◌, ◌+◌, ◌<◌, ◌^◌, ℕ, IsNone, IsTrue, None, false, length, map};
ghost use Rattle.lexical_util.specs.Format.{standard};
ghost use Rattle.lexical_util.specs.Validity.{fault};
ghost use Rattle.lexical_fields.specs.ReadFields.{field_answer};
ghost use Rattle.lexical_tables.specs.Targets.{error_in, with_number};

use lexical_fields::error_in_text;
use lexical_parse_integer::laws::grammar::fault_places;
use lexical_parse_integer::parse::ParseInteger;
use lexical_parse_integer::quick::{complete_standard, complete_valid, value_for_format};
use lexical_parse_integer::{Error, NumberFormat, NumberFormatBuilder, format};

// Puts the number of a cell that the fast path left into a row's place, or returns the cell's fault: by the reader for
// its format's kind, or by the parser.
#[inline(never)]
pub(crate) fn put_parsed<T: ParseInteger>(
    values: &mut [T],
    row: usize,
    start: usize,
    cell: &[u8],
    format: &NumberFormat,
) -> Option<Error>
    requires valid { IsNone (fault format.now) }
    requires room { row < length values.old }
    requires fits { start + length cell.now < 2 ^ 64 }
    ensures fault { result ≡ error_in (field_answer format.now T.TYPE
        (record { start = start; text = cell.now })) }
    ensures numbers { map T.number values.new ≡ with_number row (field_answer format.now T.TYPE
        (record { start = start; text = cell.now })) (map T.number values.old) }
{
    // The law by which a fault's place is at most the cell's length, so that the sum fits.
    fault_places();
    match complete_valid::<T>(cell, format) {
        Ok(value) => {
            values[row] = value;
            None
        }
        Err(error) => Some(error_in_text(start, error)),
    }
}

/// Puts the number of a cell into a row's place of a slice, under the standard format with another radix than 10, if
/// the cell is digits alone or behind a minus and the type has their number, and returns whether it did. If not,
/// nothing changes, and nothing is known of the cell. The format is built here, so its fields aren't tested again.
///
/// It is for implementations of [`TableColumn`](crate::TableColumn). The slice has to have that place.
#[inline(never)]
pub fn put_in_radix<T: ParseInteger>(values: &mut [T], row: usize, cell: &[u8], radix: u8) -> bool
    requires room { row < length values.old }
    ensures fault { IsTrue result → (start : ℕ) → error_in (field_answer
        (record standard { mantissa_radix = radix }) T.TYPE
        (record { start = start; text = cell.now })) ≡ None }
    ensures numbers { IsTrue result → (start : ℕ) → map T.number values.new
        ≡ with_number row (field_answer (record standard { mantissa_radix = radix }) T.TYPE
        (record { start = start; text = cell.now })) (map T.number values.old) }
    ensures kept { result ≡ false → values.new ≡ values.old }
{
    if radix == 10 {
        return false;
    }
    let format = NumberFormatBuilder::from_radix(radix);
    match value_for_format::<T>(cell, &format) {
        Some(value) => {
            values[row] = value;
            true
        }
        None => false,
    }
}

/// Puts the number of a cell that [`put_at_once`](crate::put_at_once) left into a row's place of a slice, or returns
/// the cell's fault, under the standard format. The format is built here: a caller would build it for each cell. A cell
/// of up to twelve bytes that was left is seldom digits alone, so it isn't read as such again.
///
/// It is for implementations of [`TableColumn`](crate::TableColumn). The slice has to have that place.
#[inline(never)]
pub fn put_standard_parsed<T: ParseInteger>(
    values: &mut [T],
    row: usize,
    start: usize,
    cell: &[u8],
) -> Option<Error>
    requires room { row < length values.old }
    requires fits { start + length cell.now < 2 ^ 64 }
    ensures fault { result ≡ error_in (field_answer standard T.TYPE
        (record { start = start; text = cell.now })) }
    ensures numbers { map T.number values.new ≡ with_number row (field_answer standard T.TYPE
        (record { start = start; text = cell.now })) (map T.number values.old) }
{
    if cell.len() > 12 {
        if let Some(value) = value_for_format::<T>(cell, &format::STANDARD) {
            values[row] = value;
            return None;
        }
    }
    fault_places();
    match complete_standard::<T>(cell) {
        Ok(value) => {
            values[row] = value;
            None
        }
        Err(error) => Some(error_in_text(start, error)),
    }
}
