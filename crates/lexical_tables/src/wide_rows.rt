//! Rows whose cells have widths, and whose numbers are mostly read at once.

ghost use Rattle.std.specs.Prelude.{◌≡◌, ◌+◌, ◌-◌, ◌<◌, ◌≤◌, ◌^◌, IfOk, IsTrue, List, None, Option, false, is_none, is_some, length, map, option_map, take, true};
ghost use Rattle.lexical_tables.specs.ByColumn.{AreUsable, StopsAt, answer_at, columns_answer, columns_put, fault_in, kinds_of, put_read_at, separator_of, wrong_cell};
ghost use Rattle.lexical_tables.specs.Cells.{Kind, view_of_cell};
ghost use Rattle.lexical_tables.specs.Codes.{AreCodes};
ghost use Rattle.lexical_tables.specs.RowSoFar.{IsRowDone, IsRowPut, cells_behind};
ghost use Rattle.lexical_tables.specs.Rows.{behind_piece, first_row, view_of_row};
ghost use Rattle.lexical_tables.specs.Targets.{TargetView};

use crate::answers::{Table, TableError};
use crate::by_column::{read_by_column, read_cells};
use crate::cells::{column_count, lacks_cell, next_cell};
use crate::codes::{CODED, NOT_READ, U8, UNKNOWN, code_of, put_codes};
use crate::content::Cell;
use crate::dialect::{Dialect, Layout};
use crate::number_cells::read_number;
use crate::pass::read_unmarked_rows;
use crate::rows::{Row, first_row};
use crate::targets::TableColumn;
use lexical_parse_integer::Options;

// The fewest bytes of a text, and below it the fewest rows, for which columns are asked for their codes: fewer are read
// in less time than asking takes.
const LEAST_CODED: usize = 256;

const LEAST_ROWS: usize = 2;

// Whether cells have widths, and quotes no meaning, in a text that isn't short.
#[inline(always)]
pub(crate) fn has_widths(text: &[u8], dialect: &Dialect<'_>, rows: usize) -> bool
    ensures quotes { IsTrue result → dialect.now.has_quotes ≡ false }
    ensures widths { IsTrue result → separator_of dialect.now.layout ≡ None }
{
    if text.len() < LEAST_CODED || rows < LEAST_ROWS || dialect.has_quotes {
        return false;
    }
    match dialect.layout {
        Layout::Separated { .. } => false,
        _ => true,
    }
}

// How many columns of a row were read, and how many of its bytes.
#[derive(Copy, Clone)]
struct Passed {
    columns: usize,
    bytes: usize,
}

// How much of a row was read, from what is left of it.
#[inline(always)]
fn passed_before(columns: usize, row: &Row<'_>, rest: &[u8]) -> Passed
    requires { length rest.now ≤ length row.now.text.now }
    ensures { result ≡ record {
      columns = columns;
      bytes = length row.now.text.now - length rest.now;
    } }
{
    Passed {
        columns,
        bytes: row.text.len() - rest.len(),
    }
}

// Reads the cell of a column, and returns whether it is right: else what is wrong is reported.
#[inline(always)]
#[tactic(auto, using(crate::proofs::MarkedCells::ahead_long))]
fn read_wide_cell<C: TableColumn>(
    targets: &mut [C],
    codes: &[u8],
    column: usize,
    row: usize,
    cell: Cell<'_>,
    dialect: &Dialect<'_>,
    options: &Options,
    wrong: &mut Option<TableError>,
) -> bool
    requires fine { wrong.old ≡ None }
    requires quotes { dialect.now.has_quotes ≡ false }
    requires codes { AreCodes dialect.now codes.now (map C.target targets.old) }
    requires usable { AreUsable (row + 1) (map C.target targets.old) }
    requires front { cell.text.now ≡ take (length cell.text.now) cell.ahead.now }
    requires fits { cell.start + length cell.text.now < 2 ^ 64 }
    ensures right { result ≡ is_none (fault_in (answer_at dialect.now
        (kinds_of (map C.target targets.old)) column (view_of_cell cell.entry))) }
    ensures fault { wrong.new ≡ option_map (wrong_cell row column) (fault_in
        (answer_at dialect.now (kinds_of (map C.target targets.old)) column
        (view_of_cell cell.entry))) }
    ensures targets { map C.target targets.new ≡ put_read_at row column (answer_at dialect.now
        (kinds_of (map C.target targets.old)) column (view_of_cell cell.entry))
        (map C.target targets.old) }
{
    if column >= targets.len() {
        return true;
    }
    let code = code_of(codes, column);
    if code == NOT_READ {
        return true;
    }
    if code >= U8 {
        return read_number(
            &mut targets[column],
            code,
            column,
            row,
            cell,
            dialect,
            options,
            wrong,
        );
    }
    read_by_column::<C, true>(
        targets,
        column,
        row,
        cell.start,
        cell.ahead,
        cell.text.len(),
        dialect,
        options,
        wrong,
    )
}

// Reads the cells of a row that have a column, up to the row's first wrong one, which is reported.
#[inline(always)]
fn read_wide_cells<C: TableColumn>(
    row: &Row<'_>,
    ahead: &[u8],
    index: usize,
    codes: &[u8],
    dialect: &Dialect<'_>,
    options: &Options,
    targets: &mut [C],
    wrong: &mut Option<TableError>,
) -> Passed
    requires fine { wrong.old ≡ None }
    requires quotes { dialect.now.has_quotes ≡ false }
    requires widths { separator_of dialect.now.layout ≡ None }
    requires codes { AreCodes dialect.now codes.now (map C.target targets.old) }
    requires usable { AreUsable (index + 1) (map C.target targets.old) }
    requires front { row.now.text.now ≡ take (length row.now.text.now) ahead.now }
    requires fits { row.now.start + length row.now.text.now < 2 ^ 64 }
    ensures put { wrong.new ≡ None → (kinds : List (Option Kind)) (old : List (Option TargetView))
        → IsRowPut kinds dialect.now index (view_of_row row.now) old (map C.target targets.old)
        0 (cells_behind dialect.now (view_of_row row.now) 0 0)
        → IsRowPut kinds dialect.now index (view_of_row row.now) old (map C.target targets.new)
        result.columns (cells_behind dialect.now (view_of_row row.now) result.columns
        result.bytes) }
    ensures within { result.bytes ≤ length row.now.text.now }
    ensures usable { wrong.new ≡ None → AreUsable (index + 1) (map C.target targets.new) }
    ensures done { is_some wrong.new ≡ true → (kinds : List (Option Kind))
        (old : List (Option TargetView))
        → IsRowPut kinds dialect.now index (view_of_row row.now) old (map C.target targets.old)
        0 (cells_behind dialect.now (view_of_row row.now) 0 0)
        → IsRowDone kinds dialect.now index (view_of_row row.now) old
        (map C.target targets.new) wrong.new }
{
    let columns = column_count(dialect);
    let mut rest = row.text;
    let mut ended = lacks_cell(rest, 0, dialect);
    let mut column = 0;
    while column < columns && !ended {
        let place = row.text.len() - rest.len();
        let left = &ahead[place..];
        let next = next_cell(rest, left, column, dialect);
        let cell = Cell {
            start: row.start + place,
            text: next.text,
            ahead: left,
        };
        if !read_wide_cell(targets, codes, column, index, cell, dialect, options, wrong) {
            return passed_before(column, row, rest);
        }
        ended = next.ended;
        rest = next.behind;
        column += 1;
    }
    passed_before(column, row, rest)
}

// Puts what is read of the first row of a text into its place in the targets, up to the row's fault, which goes to `wrong`, and
// returns what is behind the row. Digits are read by the columns' codes.
#[inline(always)]
pub(crate) fn read_wide_row<'a, C: TableColumn>(
    start: usize,
    text: &'a [u8],
    index: usize,
    codes: &[u8],
    dialect: &Dialect<'_>,
    options: &Options,
    targets: &mut [C],
    wrong: &mut Option<TableError>,
) -> &'a [u8]
    requires fine { wrong.old ≡ None }
    requires some { 0 < length text.now }
    requires quotes { dialect.now.has_quotes ≡ false }
    requires widths { separator_of dialect.now.layout ≡ None }
    requires codes { AreCodes dialect.now codes.now (map C.target targets.old) }
    requires usable { AreUsable (index + 1) (map C.target targets.old) }
    requires fits { start + length text.now < 2 ^ 64 }
    ensures done { (kinds : List (Option Kind)) (old : List (Option TargetView))
        → IsRowPut kinds dialect.now index (first_row dialect.now start text.now) old
        (map C.target targets.old) 0
        (cells_behind dialect.now (first_row dialect.now start text.now) 0 0)
        → IsRowDone kinds dialect.now index (first_row dialect.now start text.now) old
        (map C.target targets.new) wrong.new }
    ensures behind { result.now
        ≡ behind_piece dialect.now.layout dialect.now.has_quotes text.now }
    ensures shorter { length result.now < length text.now }
{
    let (row, behind) = first_row(start, text, dialect);
    let passed = read_wide_cells(&row, text, index, codes, dialect, options, targets, wrong);
    if wrong.is_some() {
        return behind;
    }
    *wrong = read_cells::<C, true>(
        &row,
        text,
        passed.bytes,
        passed.columns,
        index,
        dialect,
        options,
        targets,
    );
    behind
}

// Whether the cells of some column are read faster by its code than by asking the column. No answer depends on this:
// either loop reads every table.
fn has_known_cells(codes: &[u8; CODED], count: usize) -> bool {
    for column in 0..count.min(CODED) {
        let code = codes[column];
        if code == NOT_READ || code >= U8 {
            return true;
        }
    }
    false
}

// `read_columns` of a text whose cells have widths, by the columns' codes. Out of line: other texts don't have these.
#[inline(never)]
pub(crate) fn read_wide_rows<C: TableColumn>(
    text: &[u8],
    dialect: &Dialect<'_>,
    options: &Options,
    rows: usize,
    targets: &mut [C],
) -> Result<Table, TableError>
    requires quotes { dialect.now.has_quotes ≡ false }
    requires widths { separator_of dialect.now.layout ≡ None }
    requires usable { AreUsable rows (map C.target targets.old) }
    ensures answer { result ≡ columns_answer (kinds_of (map C.target targets.old)) dialect.now rows
        text.now }
    ensures targets { map C.target targets.new ≡ columns_put dialect.now rows text.now
        (map C.target targets.old) }
    ensures goes_on { IfOk result (StopsAt dialect.now rows text.now) }
{
    let mut codes = [UNKNOWN; CODED];
    put_codes(dialect, targets, &mut codes);
    if !has_known_cells(&codes, targets.len()) {
        return read_unmarked_rows::<C, false>(text, &codes, dialect, options, rows, targets);
    }
    read_unmarked_rows::<C, true>(text, &codes, dialect, options, rows, targets)
}
