//! Rows that are being read, and how far several were.

ghost use Rattle.std.specs.Prelude.{◌≡◌, ◌-◌, ◌<◌, ◌≤◌, length, true};

use crate::dialect::Dialect;
use crate::next_part::Left;

// A row that is being read: its number, the place where it starts, how many of its columns were read, and what is left of the
// text behind these.
#[derive(Copy, Clone)]
pub(crate) struct OpenRow<'a> {
    pub index: usize,
    pub start: usize,
    pub column: usize,
    pub left: Left<'a>,
}

// A row of which no cell was read.
#[inline(always)]
pub(crate) fn open_row<'a>(text: &[u8], index: usize, left: Left<'a>) -> OpenRow<'a>
    requires within { length left.text.now ≤ length text.now }
    ensures { result ≡ record {
      index = index;
      start = length text.now - length left.entry.text.now;
      column = 0;
      left = left.entry;
    } }
{
    OpenRow {
        index,
        start: text.len() - left.text.len(),
        column: 0,
        left,
    }
}

// How far rows were read at once: up to a row that isn't done, or to the end of one.
#[derive(Copy, Clone)]
pub(crate) struct Stopped<'a> {
    pub row: OpenRow<'a>,
    pub is_done: bool,
}

// Rows that were read at once, up to this one.
#[inline(always)]
pub(crate) fn stopped_at(
    index: usize,
    start: usize,
    column: usize,
    left: Left<'_>,
    is_done: bool,
) -> Stopped<'_>
    ensures { result ≡ record {
      row = record { index = index; start = start; column = column; left = left.entry };
      is_done = is_done;
    } }
{
    Stopped {
        row: OpenRow {
            index,
            start,
            column,
            left,
        },
        is_done,
    }
}

// The last of the rows that were read: its number, the place where it starts, and what is left of the text behind it.
#[derive(Copy, Clone)]
pub(crate) struct LastRow<'a> {
    pub index: usize,
    pub start: usize,
    pub behind: Left<'a>,
}

// The number of the last row that may be read without a look at what stands behind a row. Where empty rows are skipped,
// this is the row `index`, since empty rows may stand behind it.
#[inline(always)]
pub(crate) fn last_at_once(index: usize, rows: usize, dialect: &Dialect<'_>) -> usize
    requires more { index < rows }
    ensures one { dialect.now.skips_empty_rows ≡ true → result ≡ index }
    ensures behind { index ≤ result }
    ensures few { result < rows }
{
    if dialect.skips_empty_rows {
        return index;
    }
    rows - 1
}
