//! Where the rows of a table are, and tables whose bad rows are skipped, as C reads them.

ghost use Rattle.std.specs.Prelude.{◌≡◌, length};
ghost use Rattle.jadvolni.specs.Skipping.{not_read, row_call, skipped_outcome, skipping_call, skipping_effect};

use crate::bad_rows::BadRowFields;
use crate::table_columns::{ColumnFields, INVALID_TABLE};
use crate::tables::{TableFields, dialect_of, wrong_column};
use lexical_parse_integer::options;
use lexical_tables::{Skipped, read_part_skipping, row_place};

/// Where a row is: `jadvolni_row_result` in C.
#[repr(C)]
#[derive(Copy, Clone)]
pub struct RowOutcome {
    pub status: u32,
    pub start: usize,
    pub stop: usize,
}

/// Where the row of a number is: the text's end twice where the text has none of that number.
#[unsafe(no_mangle)]
pub extern "C" fn jadvolni_row_place(text: &[u8], table: &TableFields<'_>, row: usize) -> RowOutcome
    ensures { result ≡ row_call table.now row text.now }
{
    let Some(dialect) = dialect_of(table, table.widths.len()) else {
        return RowOutcome {
            status: INVALID_TABLE,
            start: 0,
            stop: 0,
        };
    };
    match row_place(text, &dialect, row) {
        Some(place) => RowOutcome {
            status: 0,
            start: place.start,
            stop: place.stop,
        },
        None => RowOutcome {
            status: 0,
            start: text.len(),
            stop: text.len(),
        },
    }
}

/// What is answered of a table whose bad rows are skipped: `jadvolni_skipping_result` in C.
#[repr(C)]
#[derive(Copy, Clone)]
pub struct SkippingOutcome {
    pub status: u32,
    pub column: usize,
    pub rows: usize,
    pub bad_rows: usize,
    pub place: usize,
}

// A status without a place, at a column.
fn not_read(status: u32, column: usize) -> SkippingOutcome
    ensures { result ≡ not_read status column }
{
    SkippingOutcome {
        status,
        column,
        rows: 0,
        bad_rows: 0,
        place: 0,
    }
}

// What C has of an answer.
fn skipped_outcome(read: Skipped) -> SkippingOutcome
    ensures { result ≡ skipped_outcome read }
{
    SkippingOutcome {
        status: 0,
        column: 0,
        rows: read.rows,
        bad_rows: read.bad_rows,
        place: read.stop,
    }
}

/// Reads the table of a text, or of a part of one, each column into an array of its own, and skips the rows at fault.
///
/// What is known of the rows at fault is put at the front of `bad`, as far as there is room. Where `is_last` is false,
/// a row that the text ends in isn't read.
#[unsafe(no_mangle)]
pub extern "C" fn jadvolni_parse_table_skipping(
    text: &[u8],
    is_last: bool,
    table: &TableFields<'_>,
    rows: usize,
    columns: &mut [ColumnFields<'_>],
    bad: &mut [BadRowFields],
) -> SkippingOutcome
    ensures { skipping_effect result columns.new bad.new
        ≡ skipping_call table.now is_last rows text.now columns.old bad.old }
{
    let Some(dialect) = dialect_of(table, columns.len()) else {
        return not_read(INVALID_TABLE, 0);
    };
    let (status, column) = wrong_column(columns, rows);
    if status != 0 {
        return not_read(status, column);
    }
    skipped_outcome(read_part_skipping(
        text,
        is_last,
        &dialect,
        &options::STANDARD,
        rows,
        columns,
        bad,
    ))
}
