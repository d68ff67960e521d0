//! Where the cells of a row are.

ghost use Rattle.std.specs.Prelude.{◌≡◌, ◌∷◌, ◌+◌, ◌-◌, ◌<◌, ◌≤◌, ℕ, [], false, length, take, drop, map, set, nat_lt, if◌then◌else◌};
ghost use Rattle.lexical_tables.specs.ByColumn.{cells_by_width, cells_left, cells_of, lacks_cell, lacks_width};
ghost use Rattle.lexical_tables.specs.RowCells.{cells_in_front, place_of_cell};
ghost use Rattle.lexical_tables.specs.Rows.{view_of_row};
ghost use Rattle.lexical_tables.specs.Skipping.{put_in_front};

use crate::cells::{NextCell, lacks_cell, parted_cell, sized_cell, wide_cell};
use crate::dialect::{Dialect, Layout};
use crate::rows::{Row, first_row};

/// Where a cell is, with its quotes and blanks.
#[repr(C)]
#[derive(Debug, Copy, Clone, PartialEq, Eq)]
pub struct CellPlace {
    /// The place in the text at which it starts, counted from 0.
    pub start: usize,
    /// How many bytes it has.
    pub size: usize,
}

// The first cell of what is left of a row behind its first `column` cells: as many bytes as the
// column's width, or all that is left behind the last width.
#[inline(always)]
fn wide_or_left<'a>(rest: &'a [u8], column: usize, widths: &[usize]) -> NextCell<'a>
    requires there { lacks_width (drop column widths.now) rest.now ≡ false }
    ensures cells { (place : ℕ) → cells_by_width (drop column widths.now) place rest.now
        ≡ record { start = place; text = result.text.now } ∷ (if result.ended then []
        else cells_by_width (drop (column + 1) widths.now)
        (place + (length rest.now - length result.behind.now)) result.behind.now) }
    ensures ended { result.ended
        ≡ lacks_width (drop (column + 1) widths.now) result.behind.now }
    ensures left { length result.behind.now ≤ length rest.now }
{
    if column < widths.len() {
        return wide_cell(rest, column, widths);
    }
    sized_cell(rest, rest.len(), false)
}

// The first cell of what is left of a row behind its first `column` cells, also where it has no
// column.
#[inline(always)]
fn any_cell<'a>(rest: &'a [u8], column: usize, dialect: &Dialect<'_>) -> NextCell<'a>
    requires there { lacks_cell dialect.now.layout column rest.now ≡ false }
    ensures cells { (place : ℕ)
        → cells_left dialect.now.layout dialect.now.has_quotes column place rest.now
        ≡ record { start = place; text = result.text.now } ∷ (if result.ended then []
        else cells_left dialect.now.layout dialect.now.has_quotes (column + 1)
        (place + (length rest.now - length result.behind.now)) result.behind.now) }
    ensures ended { result.ended ≡ false
        → lacks_cell dialect.now.layout (column + 1) result.behind.now ≡ false }
    ensures left { length result.behind.now ≤ length rest.now }
{
    match dialect.layout {
        Layout::Separated { separator, .. } => {
            parted_cell(rest, rest, separator, dialect.has_quotes)
        }
        Layout::Widths { widths } | Layout::Records { widths } => {
            wide_or_left(rest, column, widths)
        }
    }
}

// Stores where the cell of a column is, if the column is one of those from `first` on, and if there
// is room.
#[inline(always)]
fn put_place(cells: &mut [CellPlace], first: usize, column: usize, cell: CellPlace)
    ensures { cells.new ≡ (if nat_lt column first then cells.old
        else set cells.old (column - first) cell) }
{
    if column >= first && column - first < cells.len() {
        cells[column - first] = cell;
    }
}

// Stores where the cells of a row are, from the column `first` on, as far as there is room, and
// returns how many cells the row has. The row starts at place 0.
fn put_row_cells(
    row: &Row<'_>,
    dialect: &Dialect<'_>,
    first: usize,
    cells: &mut [CellPlace],
) -> usize
    requires start { row.now.start ≡ 0 }
    ensures count { result ≡ length (cells_of dialect.now (view_of_row row.now)) }
    ensures cells { cells.new ≡ put_in_front (drop first (map place_of_cell
        (cells_of dialect.now (view_of_row row.now)))) cells.old }
{
    let mut rest = row.text;
    let mut ended = lacks_cell(rest, 0, dialect);
    let mut column = 0;
    while !ended {
        let cell = any_cell(rest, column, dialect);
        let place = CellPlace {
            start: row.text.len() - rest.len(),
            size: cell.text.len(),
        };
        put_place(cells, first, column, place);
        ended = cell.ended;
        rest = cell.behind;
        column += 1;
    }
    column
}

/// Stores where the cells of a text's first row are at the front of the slice `cells`, from the
/// column `first` on, as far as there is room, and returns how many cells the row has.
///
/// A cell includes its quotes and blanks, but not what ends the row. With widths, the cells are those that are wholly
/// there, and one more if bytes are left behind the last width. With a separator, a row without a byte has one cell,
/// which is empty; a text without a byte has no row. Empty rows count here, even if the dialect skips them: so let the
/// text begin at the start of the row that you want, which [`row_place`](crate::row_place) returns. All else in the
/// slice stays as it was.
///
/// For the names of the columns, read the cells of a header. For the cell of a fault, let `first` be its column, and
/// `cells` have room for one.
///
/// With commas and quotes `ab,,"c,d"\n` has 3 cells, and from the column 1 on they are at 3 with 0 bytes and at 4 with 5.
#[inline(never)]
pub fn put_cells(text: &[u8], dialect: &Dialect<'_>, first: usize, cells: &mut [CellPlace]) -> usize
    ensures count { result ≡ length (cells_in_front dialect.now text.now) }
    ensures cells { cells.new ≡ put_in_front
        (drop first (map place_of_cell (cells_in_front dialect.now text.now))) cells.old }
{
    if text.is_empty() {
        return 0;
    }
    let (row, _behind) = first_row(0, text, dialect);
    put_row_cells(&row, dialect, first, cells)
}
