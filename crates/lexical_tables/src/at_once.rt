//! Numbers of cells that are read at once: as nearly all are.

ghost use Rattle.std.specs.Prelude.{◌≡◌, ◌<◌, ◌≤◌, ◌+◌, ℕ, IsNone, IsTrue, None, Some, false, length, map, take};
ghost use Rattle.lexical_util.specs.Validity.{fault};
ghost use Rattle.lexical_fields.specs.ReadFields.{field_answer};
ghost use Rattle.lexical_tables.specs.ByColumn.{IsUsable};
ghost use Rattle.lexical_tables.specs.Targets.{error_in, put_text, text_answer, text_fault, view_of_target, with_number};

use crate::targets::{Target, put_presence};
use lexical_fields::value_of_front;
use lexical_parse_integer::NumberFormat;
use lexical_parse_integer::parse::ParseInteger;
use lexical_parse_integer::quick::value_if_short;

// How many bytes have to follow a number that is read as words.
const ROOM_BEHIND: usize = 17;

// How many bytes the longest number has that is read near the end of a text: sixteen digits behind a minus.
const LONGEST_NEAR_END: usize = 17;

// `put_at_once` near the end of a text. All cells are, where a caller reads rows one at a time. Out of line, and the
// format by value, so that other cells keep theirs in registers.
#[inline(never)]
fn put_near_end<T: ParseInteger>(
    values: &mut [T],
    row: usize,
    ahead: &[u8],
    size: usize,
    format: NumberFormat,
) -> bool
    requires valid { IsNone (fault format) }
    requires room { row < length values.old }
    requires within { size ≤ length ahead.now }
    ensures fault { IsTrue result → (start : ℕ) → error_in (field_answer format T.TYPE
        (record { start = start; text = take size ahead.now })) ≡ None }
    ensures numbers { IsTrue result → (start : ℕ) → map T.number values.new
        ≡ with_number row (field_answer format T.TYPE
        (record { start = start; text = take size ahead.now })) (map T.number values.old) }
    ensures kept { result ≡ false → values.new ≡ values.old }
{
    match value_if_short::<T>(&ahead[..size], &format) {
        Some(value) => {
            values[row] = value;
            true
        }
        None => false,
    }
}

/// Stores the number that the first `size` bytes of a text write at the row's place of a slice, if the fast path reads
/// it, and returns whether it did. If not, nothing changes, and nothing is known of the bytes.
///
/// It reads decimal digits, alone or behind a minus, if the type has the number and the format has no punctuation.
/// There may be up to twenty digits, or twelve in a type of at most 32 bits. Where fewer than seventeen bytes follow,
/// there may be up to sixteen, or eight in a type below 32 bits.
///
/// It is for implementations of [`TableColumn`](crate::TableColumn). The format has to be valid, and the slice has to
/// have that place.
#[inline(always)]
pub fn put_at_once<T: ParseInteger>(
    values: &mut [T],
    row: usize,
    ahead: &[u8],
    size: usize,
    format: &NumberFormat,
) -> bool
    requires valid { IsNone (fault format.now) }
    requires room { row < length values.old }
    requires within { size ≤ length ahead.now }
    ensures fault { IsTrue result → (start : ℕ) → error_in (field_answer format.now T.TYPE
        (record { start = start; text = take size ahead.now })) ≡ None }
    ensures numbers { IsTrue result → (start : ℕ) → map T.number values.new
        ≡ with_number row (field_answer format.now T.TYPE
        (record { start = start; text = take size ahead.now })) (map T.number values.old) }
    ensures kept { result ≡ false → values.new ≡ values.old }
{
    if ahead.len() - size < ROOM_BEHIND {
        if size > LONGEST_NEAR_END {
            return false;
        }
        return put_near_end::<T>(values, row, ahead, size, *format);
    }
    match value_of_front::<T>(ahead, size, format) {
        Some(value) => {
            values[row] = value;
            true
        }
        None => false,
    }
}

impl Target<'_> {
    /// Puts the number of a text's first `size` bytes into a row's place, and sets the row's bit, if [`put_at_once`]
    /// reads it, and returns whether it did.
    #[inline(always)]
    pub(crate) fn read_at_once(&mut self, row: usize, ahead: &[u8], size: usize) -> bool
        requires usable { IsUsable (row + 1) (Some (view_of_target self.old)) }
        requires within { size ≤ length ahead.now }
        ensures fault { IsTrue result → (start : ℕ) → text_fault (Some (view_of_target self.old))
            (record { start = start; text = take size ahead.now }) ≡ None }
        ensures target { IsTrue result → (start : ℕ) → view_of_target self.new ≡ put_text row
            (record { start = start; text = take size ahead.now }) (view_of_target self.old) }
        ensures kept { result ≡ false → view_of_target self.new ≡ view_of_target self.old }
    {
        if !self.put_number_at_once(row, ahead, size) {
            return false;
        }
        put_presence(&mut self.present, row, true);
        true
    }

    // Puts the number of a text's first `size` bytes into a row's place, where it is read at once.
    #[inline(always)]
    fn put_number_at_once(&mut self, row: usize, ahead: &[u8], size: usize) -> bool
        requires valid { IsNone (fault self.old.format) }
        requires room { row < length (view_of_target self.old).values }
        requires within { size ≤ length ahead.now }
        ensures fault { IsTrue result → (start : ℕ) → text_fault (Some (view_of_target self.old))
            (record { start = start; text = take size ahead.now }) ≡ None }
        ensures target { IsTrue result → (start : ℕ) → view_of_target self.new
            ≡ record (view_of_target self.old) {
              values = with_number row (text_answer (view_of_target self.old)
                  (record { start = start; text = take size ahead.now }))
                  (view_of_target self.old).values;
            } }
        ensures kept { result ≡ false → view_of_target self.new ≡ view_of_target self.old }
    {
        self.numbers.put_at_once(row, ahead, size, &self.format)
    }
}
