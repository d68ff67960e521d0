//! Tables, as C reads them: each column into an array of its own.

ghost use Rattle.std.specs.Prelude.{◌≡◌, ◌≢◌, None, Some, length};
ghost use Rattle.jadvolni.specs.FormatFields.{are_zeros, flag};
ghost use Rattle.jadvolni.specs.Tables.{cell_place, cell_status, dialect_of, layout_of, outcome_of, refused, table_call, table_effect, wrong_column};

use crate::outcome::status_of;
use crate::table_columns::{ColumnFields, INVALID_TABLE};
use lexical_parse_integer::options;
use lexical_tables::{CellFault, Dialect, Layout, Table, TableError, read_columns_part};

/// How a table is written: `jadvolni_table` in C, where each field is described.
#[repr(C)]
#[derive(Copy, Clone)]
pub struct TableFields<'a> {
    pub separator: u8,
    pub has_returns: u8,
    pub has_quotes: u8,
    pub allows_blanks: u8,
    pub skips_empty_rows: u8,
    pub is_records: u8,
    pub allows_returns: u8,
    pub reserved: [u8; 9],
    pub missing: &'a [u8],
    pub widths: &'a [usize],
}

// Whether the bytes that are kept for later versions are 0: all but the last as a word.
fn are_zeros(bytes: [u8; 9]) -> bool
    ensures { result ≡ are_zeros bytes }
{
    let [a, b, c, d, e, f, g, h, last] = bytes;
    let word = u64::from_le_bytes([a, b, c, d, e, f, g, h]);
    (word == 0) & (last == 0)
}

// How the cells of a row are found in a table of `columns` columns, if there is a way.
fn layout_of<'a>(table: &TableFields<'a>, columns: usize) -> Option<Layout<'a>>
    ensures { result ≡ layout_of table.now columns }
{
    if table.widths.is_empty() {
        if table.is_records != 0 {
            return None;
        }
        return Some(Layout::Separated {
            separator: table.separator,
            columns,
        });
    }
    if table.widths.len() != columns {
        return None;
    }
    if table.is_records != 0 {
        return Some(Layout::Records {
            widths: table.widths,
        });
    }
    Some(Layout::Widths {
        widths: table.widths,
    })
}

// How a table of `columns` columns is written, if it can be read.
pub(crate) fn dialect_of<'a>(table: &TableFields<'a>, columns: usize) -> Option<Dialect<'a>>
    ensures { result ≡ dialect_of table.now columns }
{
    if !are_zeros(table.reserved) {
        return None;
    }
    let layout = layout_of(table, columns)?;
    Some(Dialect {
        layout,
        has_returns: table.has_returns != 0,
        allows_returns: table.allows_returns != 0,
        has_quotes: table.has_quotes != 0,
        allows_blanks: table.allows_blanks != 0,
        skips_empty_rows: table.skips_empty_rows != 0,
        missing: table.missing,
    })
}

/// What is answered of a table: `jadvolni_table_result` in C.
#[repr(C)]
#[derive(Copy, Clone)]
pub struct TableOutcome {
    pub status: u32,
    pub column: usize,
    pub rows: usize,
    pub place: usize,
}

// A status without a place, at a column.
fn refused(status: u32, column: usize) -> TableOutcome
    ensures { result ≡ refused status column }
{
    TableOutcome {
        status,
        column,
        rows: 0,
        place: 0,
    }
}

// The status and the place of a wrong cell.
pub(crate) fn cell_outcome(fault: CellFault) -> (u32, usize)
    ensures status { result.0 ≡ cell_status fault }
    ensures place { result.1 ≡ cell_place fault }
{
    match fault {
        CellFault::NotNumber(error) => (status_of(&error), error.index().unwrap_or(0)),
        CellFault::TooFewCells(place) => (14, place),
        CellFault::TooManyCells(place) => (15, place),
        CellFault::MissingReturn(place) => (16, place),
        CellFault::MisplacedQuote(place) => (18, place),
    }
}

// What C has of an answer.
fn outcome_of(answer: Result<Table, TableError>) -> TableOutcome
    ensures { result ≡ outcome_of answer }
{
    match answer {
        Ok(table) => TableOutcome {
            status: 0,
            column: 0,
            rows: table.rows,
            place: table.stop,
        },
        Err(error) => {
            let (status, place) = cell_outcome(error.fault);
            TableOutcome {
                status,
                column: error.column,
                rows: error.row,
                place,
            }
        }
    }
}

// The status and the number of the first column that can't be read, if `rows` rows are asked for; or the status 0. Two
// calls need this, once each.
#[inline(never)]
pub(crate) fn wrong_column(columns: &[ColumnFields<'_>], rows: usize) -> (u32, usize)
    ensures wrong { result.0 ≢ 0 → wrong_column rows 0 columns.now
        ≡ Some (refused result.0 result.1) }
    ensures none { result.0 ≡ 0 → wrong_column rows 0 columns.now ≡ None }
{
    let mut index = 0;
    while index < columns.len() {
        let status = columns[index].status(rows);
        if status != 0 {
            return (status, index);
        }
        index += 1;
    }
    (0, index)
}

/// Reads the table of a text, or of a part of one, each column into an array of its own.
///
/// Where `is_last` is false, a row that the text ends in isn't read.
#[unsafe(no_mangle)]
pub extern "C" fn jadvolni_parse_table(
    text: &[u8],
    is_last: bool,
    table: &TableFields<'_>,
    rows: usize,
    columns: &mut [ColumnFields<'_>],
) -> TableOutcome
    ensures { table_effect result columns.new
        ≡ table_call table.now is_last rows text.now columns.old }
{
    let Some(dialect) = dialect_of(table, columns.len()) else {
        return refused(INVALID_TABLE, 0);
    };
    let (status, column) = wrong_column(columns, rows);
    if status != 0 {
        return refused(status, column);
    }
    outcome_of(read_columns_part(text, is_last, &dialect, &options::STANDARD, rows, columns))
}
