//! Tables whose columns go into slices of their own.

ghost use Rattle.std.specs.Prelude.{◌≡◌, ◌≢◌, ◌+◌, ◌-◌, ◌<◌, ◌≤◌, ◌^◌, ℕ, List, Option, length, take, drop, map, is_none, is_some, option_map, slice_index, true, IfOk, IsTrue, None};
ghost use Rattle.lexical_tables.specs.ByColumn.{AreUsable, IsUsable, StopsAt, answer_at, columns_answer, columns_put, end_fault, fault_in, kind_of, kinds_of, put_read, put_read_at, put_row, row_fault, row_values, wrong_cell};
ghost use Rattle.lexical_tables.specs.Cells.{Kind, answer_as, quote_fault, view_of_cell};
ghost use Rattle.lexical_tables.specs.Quotes.{quote};
ghost use Rattle.lexical_tables.specs.RowSoFar.{IsRowDone, IsRowPut, cells_behind};
ghost use Rattle.lexical_tables.specs.Rows.{behind_piece, first_row, view_of_row};
ghost use Rattle.lexical_tables.specs.Targets.{TargetView, keeps_text, put_text, text_fault};

use crate::answers::{CellFault, Table, TableError};
use crate::cells::{column_count, lacks_cell, next_cell};
use crate::content::{Cell, content};
use crate::dialect::Dialect;
use crate::known_cells::{had_at_once, read_text};
use crate::marked_rows::read_rows;
use crate::misplaced::quote_fault;
use crate::pass::{marked_separator, read_unmarked_rows};
use crate::rows::{Row, first_row};
use crate::targets::TableColumn;
use crate::wide_rows::{has_widths, read_wide_rows};
use lexical_parse_integer::{Error, Options};

// Puts the number of what a cell holds into the row's place, or returns its fault.
#[inline(always)]
pub(crate) fn read_held<C: TableColumn>(
    target: &mut C,
    row: usize,
    held: Cell<'_>,
    options: &Options,
) -> Option<Error>
    requires usable { IsUsable (row + 1) (C.target target.old) }
    requires front { held.text.now ≡ take (length held.text.now) held.ahead.now }
    requires fits { held.start + length held.text.now < 2 ^ 64 }
    ensures fault { result ≡ text_fault (C.target target.old) (view_of_cell held.entry) }
    ensures target { C.target target.new
        ≡ option_map (put_text row (view_of_cell held.entry)) (C.target target.old) }
{
    if had_at_once(target, row, held) {
        return None;
    }
    target.read_left(row, held.start, held.text, held.ahead, options)
}

// The fault of a cell's quotes, where these have a meaning: none where the cell was seen to have no quote.
#[inline(always)]
fn cell_fault(
    dialect: &Dialect<'_>,
    is_number: bool,
    has_no_quote: bool,
    cell: Cell<'_>,
) -> Option<CellFault>
    requires fits { cell.start + length cell.text.now < 2 ^ 64 }
    requires no_quote { IsTrue has_no_quote → (k : ℕ) → k < length cell.text.now
        → slice_index cell.text.now k ≢ quote }
    ensures { result ≡ quote_fault dialect.now.has_quotes is_number (view_of_cell cell.entry) }
{
    if has_no_quote {
        return None;
    }
    quote_fault(dialect.has_quotes, is_number, cell)
}

// Reads a cell in its column of texts as `read_text` does, or returns the fault of its quotes. Out of line, so that
// numbers don't pay for it.
#[inline(never)]
fn read_left_text<C: TableColumn>(
    target: &mut C,
    row: usize,
    cell: Cell<'_>,
    dialect: &Dialect<'_>,
) -> Option<CellFault>
    requires usable { IsUsable (row + 1) (C.target target.old) }
    requires text { keeps_text (C.target target.old) ≡ true }
    requires front { cell.text.now ≡ take (length cell.text.now) cell.ahead.now }
    requires fits { cell.start + length cell.text.now < 2 ^ 64 }
    ensures fault { result ≡ fault_in (answer_as dialect.now
        (option_map kind_of (C.target target.old)) (view_of_cell cell.entry)) }
    ensures target { C.target target.new ≡ option_map (put_read row (answer_as dialect.now
        (option_map kind_of (C.target target.old)) (view_of_cell cell.entry)))
        (C.target target.old) }
{
    if read_text(target, row, cell, dialect) {
        return None;
    }
    quote_fault(dialect.has_quotes, false, cell)
}

// Reads a cell in its column, if its quotes are in place: it holds the missing text, a number or a text, which goes to
// the row's place.
#[inline(always)]
fn read_value<C: TableColumn>(
    target: &mut C,
    row: usize,
    cell: Cell<'_>,
    has_no_quote: bool,
    dialect: &Dialect<'_>,
    options: &Options,
) -> Option<CellFault>
    requires usable { IsUsable (row + 1) (C.target target.old) }
    requires read { is_some (C.target target.old) ≡ true }
    requires front { cell.text.now ≡ take (length cell.text.now) cell.ahead.now }
    requires fits { cell.start + length cell.text.now < 2 ^ 64 }
    requires no_quote { IsTrue has_no_quote → (k : ℕ) → k < length cell.text.now
        → slice_index cell.text.now k ≢ quote }
    ensures fault { result ≡ fault_in (answer_as dialect.now
        (option_map kind_of (C.target target.old)) (view_of_cell cell.entry)) }
    ensures target { C.target target.new ≡ option_map (put_read row (answer_as dialect.now
        (option_map kind_of (C.target target.old)) (view_of_cell cell.entry)))
        (C.target target.old) }
{
    if target.is_text() {
        return read_left_text(target, row, cell, dialect);
    }
    if let Some(fault) = cell_fault(dialect, true, has_no_quote, cell) {
        return Some(fault);
    }
    let held = content(cell, dialect.has_quotes, dialect.allows_blanks);
    if target.may_miss() && held.text == dialect.missing {
        target.put_missing(row);
        return None;
    }
    match read_held(target, row, held, options) {
        Some(error) => Some(CellFault::NotNumber(error)),
        None => None,
    }
}

// Reads the cell of a column, if the column is read: the value goes to the row's place of its target.
#[inline(always)]
fn read_cell<C: TableColumn>(
    targets: &mut [C],
    column: usize,
    row: usize,
    cell: Cell<'_>,
    has_no_quote: bool,
    dialect: &Dialect<'_>,
    options: &Options,
) -> Option<CellFault>
    requires usable { AreUsable (row + 1) (map C.target targets.old) }
    requires front { cell.text.now ≡ take (length cell.text.now) cell.ahead.now }
    requires fits { cell.start + length cell.text.now < 2 ^ 64 }
    requires no_quote { IsTrue has_no_quote → (k : ℕ) → k < length cell.text.now
        → slice_index cell.text.now k ≢ quote }
    ensures fault { result ≡ fault_in (answer_at dialect.now (kinds_of (map C.target targets.old))
        column (view_of_cell cell.entry)) }
    ensures targets { map C.target targets.new ≡ put_read_at row column (answer_at dialect.now
        (kinds_of (map C.target targets.old)) column (view_of_cell cell.entry))
        (map C.target targets.old) }
{
    if column >= targets.len() {
        return cell_fault(dialect, false, has_no_quote, cell);
    }
    if targets[column].is_read() {
        return read_value(
            &mut targets[column],
            row,
            cell,
            has_no_quote,
            dialect,
            options,
        );
    }
    cell_fault(dialect, false, has_no_quote, cell)
}

// The fault of a row with too few or too many cells, or a wrong end. `count` cells have a column; one more may start at
// `extra`.
pub(crate) fn end_fault(
    row: &Row<'_>,
    index: usize,
    columns: usize,
    count: usize,
    extra: Option<usize>,
) -> Option<TableError>
    requires fits { row.now.start + length row.now.text.now < 2 ^ 64 }
    ensures { result ≡ end_fault columns index (view_of_row row.now) count extra }
{
    let end = row.start + row.text.len();
    if count < columns {
        return Some(TableError {
            row: index,
            column: count,
            fault: CellFault::TooFewCells(end),
        });
    }
    let fault = match extra {
        Some(place) => CellFault::TooManyCells(place),
        None if row.lacks_return => CellFault::MissingReturn(end),
        None => return None,
    };
    Some(TableError {
        row: index,
        column: columns,
        fault,
    })
}

// Reports what is wrong with the number of a row's cells, or with its end. Out of line: few rows have such a fault, and
// a `Row` is made only for these.
#[inline(never)]
pub(crate) fn put_end_fault(
    start: usize,
    text: &[u8],
    lacks_return: bool,
    index: usize,
    columns: usize,
    count: usize,
    wrong: &mut Option<TableError>,
)
    requires fits { start + length text.now < 2 ^ 64 }
    ensures { wrong.new ≡ end_fault columns index
        (record { start = start; text = text.now; lacks_return = lacks_return }) count None }
{
    let row = Row {
        start,
        text,
        lacks_return,
    };
    *wrong = end_fault(&row, index, columns, count, None);
}

// Reads a cell that the fast path left, the first `size` bytes of a text, as `read_cell` does. Returns whether it is
// right, and reports what is wrong. Out of line, to keep registers for the loop. `IS_WIDE` only gives each of the two
// callers an instance of its own.
#[inline(never)]
pub(crate) fn read_by_column<C: TableColumn, const IS_WIDE: bool>(
    targets: &mut [C],
    column: usize,
    row: usize,
    start: usize,
    ahead: &[u8],
    size: usize,
    dialect: &Dialect<'_>,
    options: &Options,
    wrong: &mut Option<TableError>,
) -> bool
    requires fine { wrong.old ≡ None }
    requires usable { AreUsable (row + 1) (map C.target targets.old) }
    requires within { size ≤ length ahead.now }
    requires fits { start + size < 2 ^ 64 }
    ensures right { result ≡ is_none (fault_in (answer_at dialect.now
        (kinds_of (map C.target targets.old)) column
        (record { start = start; text = take size ahead.now }))) }
    ensures fault { wrong.new ≡ option_map (wrong_cell row column) (fault_in
        (answer_at dialect.now (kinds_of (map C.target targets.old)) column
        (record { start = start; text = take size ahead.now }))) }
    ensures targets { map C.target targets.new ≡ put_read_at row column (answer_at dialect.now
        (kinds_of (map C.target targets.old)) column
        (record { start = start; text = take size ahead.now })) (map C.target targets.old) }
{
    let cell = Cell {
        start,
        text: &ahead[..size],
        ahead,
    };
    match read_cell(targets, column, row, cell, false, dialect, options) {
        Some(fault) => {
            *wrong = Some(TableError { row, column, fault });
            false
        }
        None => true,
    }
}

// Puts what is read of a row's cells into its place in the targets, up to the row's fault, which it returns. The row's
// first `first` columns and `passed` bytes have been read. `ahead` begins with the row. `IS_WIDE` is as in
// `read_by_column`.
#[inline(always)]
pub(crate) fn read_cells<C: TableColumn, const IS_WIDE: bool>(
    row: &Row<'_>,
    ahead: &[u8],
    passed: usize,
    first: usize,
    index: usize,
    dialect: &Dialect<'_>,
    options: &Options,
    targets: &mut [C],
) -> Option<TableError>
    requires passed { passed ≤ length row.now.text.now }
    requires usable { AreUsable (index + 1) (map C.target targets.old) }
    requires front { row.now.text.now ≡ take (length row.now.text.now) ahead.now }
    requires fits { row.now.start + length row.now.text.now < 2 ^ 64 }
    ensures { (kinds : List (Option Kind)) (old : List (Option TargetView))
        → IsRowPut kinds dialect.now index (view_of_row row.now) old (map C.target targets.old)
        first (cells_behind dialect.now (view_of_row row.now) first passed)
        → IsRowDone kinds dialect.now index (view_of_row row.now) old (map C.target targets.new)
        result }
{
    let columns = column_count(dialect);
    let mut rest = &row.text[passed..];
    let mut ended = lacks_cell(rest, first, dialect);
    let mut column = first;
    while column < columns && !ended {
        let place = row.text.len() - rest.len();
        let left = &ahead[place..];
        let next = next_cell(rest, left, column, dialect);
        let cell = Cell {
            start: row.start + place,
            text: next.text,
            ahead: left,
        };
        if let Some(fault) = read_cell(
            targets,
            column,
            index,
            cell,
            next.has_no_quote,
            dialect,
            options,
        ) {
            return Some(TableError {
                row: index,
                column,
                fault,
            });
        }
        ended = next.ended;
        rest = next.behind;
        column += 1;
    }
    let next = row.start + (row.text.len() - rest.len());
    let extra = (!ended).then_some(next);
    end_fault(row, index, columns, column, extra)
}

// Puts what is read of the first row of a text into its place in the targets, up to the row's
// fault, which goes to `wrong`, and returns what is behind the row. The first `first` columns and
// `passed` bytes of the row were read before. Out of line, to keep registers for the loop.
#[inline(never)]
pub(crate) fn read_rest<'a, C: TableColumn>(
    start: usize,
    text: &'a [u8],
    passed: usize,
    first: usize,
    index: usize,
    dialect: &Dialect<'_>,
    options: &Options,
    targets: &mut [C],
    wrong: &mut Option<TableError>,
) -> &'a [u8]
    requires fine { wrong.old ≡ None }
    requires some { 0 < length text.now }
    requires passed { passed ≤ length (first_row dialect.now start text.now).text }
    requires usable { AreUsable (index + 1) (map C.target targets.old) }
    requires fits { start + length text.now < 2 ^ 64 }
    ensures done { (kinds : List (Option Kind)) (old : List (Option TargetView))
        → IsRowPut kinds dialect.now index (first_row dialect.now start text.now) old
        (map C.target targets.old) first
        (cells_behind dialect.now (first_row dialect.now start text.now) first passed)
        → IsRowDone kinds dialect.now index (first_row dialect.now start text.now) old
        (map C.target targets.new) wrong.new }
    ensures behind { result.now
        ≡ behind_piece dialect.now.layout dialect.now.has_quotes text.now }
    ensures shorter { length result.now < length text.now }
{
    let (row, behind) = first_row(start, text, dialect);
    *wrong = read_cells::<C, false>(&row, text, passed, first, index, dialect, options, targets);
    behind
}

/// Reads a table's columns into slices of their own, for at most `rows` rows.
///
/// A cell whose column has no target, or is behind the last target, isn't read: it may hold any bytes but what ends it,
/// if its quotes are in place where these have a meaning. The number of a cell is put at its row's place in the
/// target's slice, and all else in the slices stays as it was. After a fault, they have the numbers of all cells before
/// the wrong one. Where the text has more rows than are asked for, `stop` is where the next one starts.
///
/// The format of each target has to be valid, and its slice and its bits have to have room for
/// `rows` rows.
///
/// With a comma, three columns and targets of `u64` for the first and of `i8` for the third, `1,a,-2\n`
/// puts 1 and -2 at place 0, and stops at 7.
#[inline(always)]
pub fn read_columns<C: TableColumn>(
    text: &[u8],
    dialect: &Dialect<'_>,
    options: &Options,
    rows: usize,
    targets: &mut [C],
) -> Result<Table, TableError>
    requires usable { AreUsable rows (map C.target targets.old) }
    ensures answer { result ≡ columns_answer (kinds_of (map C.target targets.old)) dialect.now rows
        text.now }
    ensures targets { map C.target targets.new ≡ columns_put dialect.now rows text.now
        (map C.target targets.old) }
    ensures goes_on { IfOk result (StopsAt dialect.now rows text.now) }
{
    let Some(separator) = marked_separator(text, dialect) else {
        if has_widths(text, dialect, rows) {
            return read_wide_rows(text, dialect, options, rows, targets);
        }
        return read_unmarked_rows::<C, false>(text, &[], dialect, options, rows, targets);
    };
    if dialect.has_quotes {
        return read_rows::<C, true>(text, separator, dialect, options, rows, targets);
    }
    read_rows::<C, false>(text, separator, dialect, options, rows, targets)
}
