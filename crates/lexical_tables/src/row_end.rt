//! The end of a row whose cells were read.

ghost use Rattle.std.specs.Prelude.{◌≡◌, ◌==◌, ◌&&◌, ◌+◌, ◌<◌, ◌≤◌, ◌^◌, None, false, length, slice_index, true};
ghost use Rattle.lexical_tables.specs.ByColumn.{column_count, end_fault};
ghost use Rattle.lexical_tables.specs.RowSoFar.{IsPart};
ghost use Rattle.lexical_tables.specs.Rows.{first_row, line_feed};

use crate::answers::TableError;
use crate::by_column::put_end_fault;
use crate::dialect::Dialect;
use crate::next_part::{Left, Part, lacks_return};

// How far a row was read: at least `column` of its columns. `left` is the text from its next cell
// on, or, if the row is done and nothing is wrong with it, the text behind the row.
#[derive(Copy, Clone)]
pub(crate) struct ReadOn<'a> {
    pub left: Left<'a>,
    pub column: usize,
    pub is_done: bool,
}

// A row that isn't done. Its first `column` columns were read.
#[inline(always)]
pub(crate) fn not_done(left: Left<'_>, column: usize) -> ReadOn<'_>
    ensures { result ≡ record { left = left.entry; column = column; is_done = false } }
{
    ReadOn {
        left,
        column,
        is_done: false,
    }
}

// A row that is done. At least its first `column` columns were read.
#[inline(always)]
pub(crate) fn done(behind: Left<'_>, column: usize) -> ReadOn<'_>
    ensures { result ≡ record { left = behind.entry; column = column; is_done = true } }
{
    ReadOn {
        left: behind,
        column,
        is_done: true,
    }
}

// Whether the cell of a column is its row's last, and something is wrong with the row's end.
#[inline(always)]
pub(crate) fn ends_wrong(
    left: &[u8],
    part: Part,
    column: usize,
    columns: usize,
    dialect: &Dialect<'_>,
) -> bool
    requires within { part.size < length left.now }
    requires few { column < columns }
    ensures count { result ≡ false → part.is_last ≡ true → column + 1 ≡ columns }
    ensures returned { result ≡ false → part.is_last ≡ true
        → (dialect.now.has_returns && (slice_index left.now part.size == line_feed)) ≡ false }
{
    if !part.is_last {
        return false;
    }
    if column + 1 != columns {
        return true;
    }
    lacks_return(left, part.size, dialect.has_returns)
}

// Reports what is wrong with the end of a row, if anything is. The row's last cell, the first of
// `left`, has been read: that of a column.
#[inline(always)]
pub(crate) fn end_row(
    start: usize,
    text: &[u8],
    left: &[u8],
    part: Part,
    column: usize,
    index: usize,
    columns: usize,
    separator: u8,
    dialect: &Dialect<'_>,
    wrong: &mut Option<TableError>,
)
    requires fine { wrong.old ≡ None }
    requires columns { columns ≡ column_count dialect.now.layout }
    requires few { column < columns }
    requires within { length left.now ≤ length text.now }
    requires part { IsPart dialect.now separator text.now left.now part }
    requires last { part.is_last ≡ true }
    requires fits { start + length text.now < 2 ^ 64 }
    ensures { wrong.new ≡ end_fault columns index (first_row dialect.now start text.now)
        (column + 1) None }
{
    if !ends_wrong(left, part, column, columns, dialect) {
        return;
    }
    let row = &text[..text.len() - left.len() + part.size];
    let lacks_return = lacks_return(left, part.size, dialect.has_returns);
    put_end_fault(start, row, lacks_return, index, columns, column + 1, wrong);
}
