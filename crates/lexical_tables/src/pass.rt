//! The next rows of a table: found by marks or without them, and behind empty rows.

ghost use Rattle.std.specs.Prelude.{◌≡◌, ◌≢◌, ◌==◌, ◌+◌, ◌-◌, ◌/◌, ◌<◌, ◌≤◌, ◌^◌, ◌&&◌, ℕ, IfOk, IfSome, IsTrue, None, Some, drop, false, length, map, not, slice_index, take, true};
ghost use Rattle.lexical_tables.specs.ByColumn.{AreUsable, StopsAt, answer_at, column_count, columns_answer, columns_put, end_fault, fault_in, kinds_of, put_read_at, put_row, row_fault, row_values, separator_of};
ghost use Rattle.lexical_tables.specs.Codes.{AreCodes};
ghost use Rattle.lexical_tables.specs.Ends.{AreEnds, AreEndsIf};
ghost use Rattle.lexical_tables.specs.Quotes.{quote};
ghost use Rattle.lexical_tables.specs.RowSoFar.{GoesOn, GoesToEnd, IsBehind, IsMarked, IsOnRow, IsPart};
ghost use Rattle.lexical_tables.specs.Rows.{FirstCounts, behind_piece, carriage_return, first_row, rows_from};

use crate::answers::{Table, TableError};
use crate::by_column::read_rest;
use crate::codes::{CODED, Loop, put_codes};
use crate::dialect::{Dialect, Layout};
use crate::ends::LEAST_MARKED;
use crate::marked_rows::{LastRow, read_marked_rows};
use crate::next_part::Left;
use crate::rows::without_empty_rows;
use crate::targets::TableColumn;
use crate::wide_rows::read_wide_row;
use lexical_parse_integer::Options;

// The byte between cells, if one pass of marks finds these and the rows: a short text has no marks.
pub(crate) fn marked_separator(text: &[u8], dialect: &Dialect<'_>) -> Option<u8>
    ensures { IfSome result (λ separator. IsMarked dialect.now separator) }
{
    if text.len() < LEAST_MARKED {
        return None;
    }
    let Layout::Separated { separator, .. } = dialect.layout else {
        return None;
    };
    if dialect.has_quotes && separator == b'"' {
        return None;
    }
    if dialect.takes_returns() && separator == b'\r' {
        return None;
    }
    Some(separator)
}

// Puts what is read of rows into their places in the targets, as `read_marked_rows` does. If the cells aren't found by
// marks, it reads one row.
#[inline(always)]
pub(crate) fn read_first_rows<'a, C: TableColumn, const HAS_QUOTES: bool, const HAS_CALLS: bool>(
    text: &'a [u8],
    from: Left<'a>,
    first: usize,
    last: usize,
    columns: usize,
    marked: Option<u8>,
    codes: &[u8; CODED],
    dialect: &Dialect<'_>,
    options: &Options,
    targets: &mut [C],
    wrong: &mut Option<TableError>,
) -> LastRow<'a>
    requires quotes { dialect.now.has_quotes ≡ HAS_QUOTES }
    requires fine { wrong.old ≡ None }
    requires some { 0 < length from.text.now }
    requires within { length from.text.now ≤ length text.now }
    requires tail { from.text.now ≡ drop (length text.now - length from.text.now) text.now }
    requires marks { AreEndsIf marked dialect.now.has_quotes from.text.now from.marks }
    requires columns { columns ≡ column_count dialect.now.layout }
    requires marked { IfSome marked (λ separator. IsMarked dialect.now separator) }
    requires codes { AreCodes dialect.now codes.now (map C.target targets.old) }
    requires usable { AreUsable (last + 1) (map C.target targets.old) }
    requires last { first ≤ last }
    ensures done { GoesToEnd dialect.now (length text.now) first (map C.target targets.old)
        from.entry.text.now (map C.target targets.new) result.index
        (drop result.start text.now) wrong.new }
    ensures behind { wrong.new ≡ None → result.behind.text.now
        ≡ behind_piece dialect.now.layout dialect.now.has_quotes (drop result.start text.now) }
    ensures shorter { wrong.new ≡ None
        → length result.behind.text.now < length (drop result.start text.now) }
    ensures marks { AreEndsIf marked dialect.now.has_quotes result.behind.text.now
        result.behind.marks }
    ensures last { result.index ≤ last }
    ensures within { result.start < length text.now }
{
    if let Some(separator) = marked {
        return read_marked_rows::<C, HAS_QUOTES, false, HAS_CALLS, true>(
            text, from, first, last, columns, separator, codes, dialect, options, targets, wrong,
        );
    }
    let start = text.len() - from.text.len();
    let behind = read_unmarked_row::<C, false>(
        start,
        from.text,
        first,
        &[],
        dialect,
        options,
        targets,
        wrong,
    );
    LastRow {
        index: first,
        start,
        behind: Left {
            text: behind,
            marks: 0,
        },
    }
}

// What is left of a text behind the empty rows in front of it, where these are skipped.
#[inline(always)]
pub(crate) fn behind_empty_rows<'a>(
    left: Left<'a>,
    marked: Option<u8>,
    dialect: &Dialect<'_>,
) -> Left<'a>
    requires marks { AreEndsIf marked dialect.now.has_quotes left.text.now left.marks }
    ensures within { length result.text.now ≤ length left.entry.text.now }
    ensures tail { result.text.now
        ≡ drop (length left.entry.text.now - length result.text.now) left.entry.text.now }
    ensures rows { (place : ℕ) → rows_from dialect.now place left.entry.text.now
        ≡ rows_from dialect.now
        (place + (length left.entry.text.now - length result.text.now)) result.text.now }
    ensures first { FirstCounts dialect.now result.text.now }
    ensures marks { AreEndsIf marked dialect.now.has_quotes result.text.now result.marks }
{
    if !dialect.skips_empty_rows {
        return left;
    }
    let text = without_empty_rows(left.text, dialect);
    if text.len() == left.text.len() {
        return left;
    }
    Left { text, marks: 0 }
}

// Asks the columns for their codes if the cells are found by marks, and returns which loop reads them. Otherwise it
// asks for no code.
#[inline(always)]
pub(crate) fn ask_codes<C: TableColumn>(
    marked: Option<u8>,
    dialect: &Dialect<'_>,
    targets: &[C],
    codes: &mut [u8; CODED],
) -> Loop
    requires unknown { (k : ℕ) → k < length codes.old → slice_index codes.old k ≡ 0 }
    ensures { AreCodes dialect.now codes.new (map C.target targets.now) }
{
    if marked.is_none() {
        return Loop::WithoutCalls;
    }
    put_codes(dialect, targets, codes)
}

// Puts what is read of the first row of a text into its place in the targets, up to the row's fault, which goes to `wrong`, and
// returns what is behind the row. With `HAS_CODES` digits are read by the columns' codes.
#[inline(always)]
fn read_unmarked_row<'a, C: TableColumn, const HAS_CODES: bool>(
    start: usize,
    text: &'a [u8],
    index: usize,
    codes: &[u8],
    dialect: &Dialect<'_>,
    options: &Options,
    targets: &mut [C],
    wrong: &mut Option<TableError>,
) -> &'a [u8]
    requires fine { wrong.old ≡ None }
    requires some { 0 < length text.now }
    requires quotes { IsTrue HAS_CODES → dialect.now.has_quotes ≡ false }
    requires widths { IsTrue HAS_CODES → separator_of dialect.now.layout ≡ None }
    requires codes { AreCodes dialect.now codes.now (map C.target targets.old) }
    requires usable { AreUsable (index + 1) (map C.target targets.old) }
    requires fits { start + length text.now < 2 ^ 64 }
    ensures fault { wrong.new ≡ row_fault (kinds_of (map C.target targets.old)) dialect.now
        index (first_row dialect.now start text.now) }
    ensures targets { map C.target targets.new ≡ put_row index (row_values
        (kinds_of (map C.target targets.old)) dialect.now
        (first_row dialect.now start text.now)) (map C.target targets.old) }
    ensures behind { result.now
        ≡ behind_piece dialect.now.layout dialect.now.has_quotes text.now }
    ensures shorter { length result.now < length text.now }
{
    if HAS_CODES {
        return read_wide_row(start, text, index, codes, dialect, options, targets, wrong);
    }
    read_rest(start, text, 0, 0, index, dialect, options, targets, wrong)
}

// `read_columns` of a text without marks. Out of line: it makes no codes, and a short text doesn't pay for them.
#[inline(never)]
pub(crate) fn read_unmarked_rows<C: TableColumn, const HAS_CODES: bool>(
    text: &[u8],
    codes: &[u8],
    dialect: &Dialect<'_>,
    options: &Options,
    rows: usize,
    targets: &mut [C],
) -> Result<Table, TableError>
    requires quotes { IsTrue HAS_CODES → dialect.now.has_quotes ≡ false }
    requires widths { IsTrue HAS_CODES → separator_of dialect.now.layout ≡ None }
    requires codes { AreCodes dialect.now codes.now (map C.target targets.old) }
    requires usable { AreUsable rows (map C.target targets.old) }
    ensures answer { result ≡ columns_answer (kinds_of (map C.target targets.old)) dialect.now rows
        text.now }
    ensures targets { map C.target targets.new ≡ columns_put dialect.now rows text.now
        (map C.target targets.old) }
    ensures goes_on { IfOk result (StopsAt dialect.now rows text.now) }
{
    let mut left = without_empty_rows(text, dialect);
    let mut count = 0;
    let mut wrong = None;
    while count < rows && !left.is_empty() {
        let start = text.len() - left.len();
        let behind = read_unmarked_row::<C, HAS_CODES>(
            start, left, count, codes, dialect, options, targets, &mut wrong,
        );
        if let Some(error) = wrong {
            return Err(error);
        }
        left = without_empty_rows(behind, dialect);
        count += 1;
    }
    Ok(Table {
        rows: count,
        stop: text.len() - left.len(),
    })
}
