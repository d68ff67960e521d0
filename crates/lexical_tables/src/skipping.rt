//! Tables whose bad rows are skipped.

ghost use Rattle.std.specs.Prelude.{◌≡◌, ◌∷◌, ◌+◌, ◌-◌, ◌<◌, ◌^◌, ℕ, IfOk, IfSome, List, Option, drop, length, map, set};
ghost use Rattle.lexical_tables.specs.ByColumn.{AreUsable, column_count, kinds_of, put_row, row_fault, row_values};
ghost use Rattle.lexical_tables.specs.Cells.{Kind};
ghost use Rattle.lexical_tables.specs.Codes.{AreCodes};
ghost use Rattle.lexical_tables.specs.Ends.{AreEndsIf};
ghost use Rattle.lexical_tables.specs.Parts.{AreValid, readable};
ghost use Rattle.lexical_tables.specs.RowSoFar.{IsMarked, wrong_in};
ghost use Rattle.lexical_tables.specs.Rows.{FirstCounts, behind_piece, first_row, rows_from};
ghost use Rattle.lexical_tables.specs.Skipping.{HoldRightRows, SkippingInParts, SkipsTo, put_in_front, skipped_rows, skipping_answer, skipping_put};

use crate::answers::TableError;
use crate::bad_rows::{BadRow, KeptRow, Skipped, put_bad_row};
use crate::cells::column_count;
use crate::codes::{CODED, Loop, UNKNOWN};
use crate::dialect::Dialect;
use crate::marked_rows::last_at_once;
use crate::next_part::Left;
use crate::parts::whole_rows;
use crate::pass::{ask_codes, behind_empty_rows, marked_separator, read_first_rows};
use crate::places::{RowPlace, behind_row};
use crate::targets::TableColumn;
use lexical_parse_integer::Options;

// What is known of a bad row that stands from `start` to `stop`. `error` counts only the right rows
// before it, so `bad_count`, the number of bad ones, is added.
#[inline(always)]
fn bad_row(error: TableError, bad_count: usize, start: usize, stop: usize) -> BadRow
    requires fits { error.row + bad_count < 2 ^ 64 }
    ensures { result ≡ record {
      error = record error { row = error.row + bad_count };
      place = record { start = start; stop = stop };
    } }
{
    BadRow {
        error: TableError {
            row: error.row + bad_count,
            column: error.column,
            fault: error.fault,
        },
        place: RowPlace { start, stop },
    }
}

// Stores what is known of a bad row that starts at `start`, behind `bad_count` others, if there is
// room, and returns what the text has behind the row. Out of line, and cold for the compiler: bad
// rows are rare.
#[cold]
#[inline(never)]
fn pass_bad_row<'a, B: KeptRow>(
    text: &'a [u8],
    start: usize,
    error: TableError,
    bad_count: usize,
    dialect: &Dialect<'_>,
    bad: &mut [B],
) -> &'a [u8]
    requires some { start < length text.now }
    requires first { FirstCounts dialect.now (drop start text.now) }
    requires fits { error.row + bad_count < 2 ^ 64 }
    ensures shorter { length result.now < length (drop start text.now) }
    ensures tail { result.now
        ≡ drop (length (drop start text.now) - length result.now) (drop start text.now) }
    ensures rows { (place : ℕ) → rows_from dialect.now place (drop start text.now)
        ≡ first_row dialect.now place (drop start text.now) ∷ rows_from dialect.now
        (place + (length (drop start text.now) - length result.now)) result.now }
    ensures first { FirstCounts dialect.now result.now }
    ensures bad { bad.new ≡ set bad.old bad_count (B.kept (record {
      error = record error { row = error.row + bad_count };
      place = record { start = start; stop = length text.now - length result.now };
    })) }
{
    let behind = behind_row(&text[start..], dialect);
    let row = bad_row(error, bad_count, start, text.len() - behind.len());
    put_bad_row(bad, bad_count, row);
    behind
}

// `read_columns_skipping`, by the columns' codes.
#[inline(always)]
fn skip_coded_rows<C: TableColumn, B: KeptRow, const HAS_QUOTES: bool, const HAS_CALLS: bool>(
    text: &[u8],
    marked: Option<u8>,
    codes: &[u8; CODED],
    dialect: &Dialect<'_>,
    options: &Options,
    rows: usize,
    targets: &mut [C],
    bad: &mut [B],
) -> Skipped
    requires quotes { dialect.now.has_quotes ≡ HAS_QUOTES }
    requires marked { IfSome marked (λ separator. IsMarked dialect.now separator) }
    requires codes { AreCodes dialect.now codes.now (map C.target targets.old) }
    requires usable { AreUsable rows (map C.target targets.old) }
    ensures answer { result ≡ skipping_answer (kinds_of (map C.target targets.old)) dialect.now
        rows text.now }
    ensures targets { map C.target targets.new ≡ skipping_put dialect.now rows text.now
        (map C.target targets.old) }
    ensures bad { bad.new ≡ put_in_front (map B.kept (skipped_rows
        (kinds_of (map C.target targets.old)) dialect.now rows text.now)) bad.old }
    ensures goes_on { SkipsTo dialect.now rows text.now result }
    ensures right_rows { HoldRightRows dialect.now rows text.now (map C.target targets.old)
        (map C.target targets.new) }
{
    let columns = column_count(dialect);
    let mut left = behind_empty_rows(Left { text, marks: 0 }, marked, dialect);
    let mut count = 0;
    let mut bad_count = 0;
    while count < rows && !left.text.is_empty() {
        let last = last_at_once(count, rows, dialect);
        let mut wrong = None;
        let read = read_first_rows::<C, HAS_QUOTES, HAS_CALLS>(
            text, left, count, last, columns, marked, codes, dialect, options, targets, &mut wrong,
        );
        match wrong {
            None => {
                left = behind_empty_rows(read.behind, marked, dialect);
                count = read.index + 1;
            }
            Some(error) => {
                left = Left {
                    text: pass_bad_row(text, read.start, error, bad_count, dialect, bad),
                    marks: 0,
                };
                count = read.index;
                bad_count += 1;
            }
        }
    }
    Skipped {
        rows: count,
        bad_rows: bad_count,
        stop: text.len() - left.text.len(),
    }
}

// `skip_coded_rows` of a table with texts, amounts or numbers of other formats, which its loop reads by calls. Out of
// line, as `read_called_rows` is.
#[inline(never)]
fn skip_called_rows<C: TableColumn, B: KeptRow, const HAS_QUOTES: bool>(
    text: &[u8],
    marked: Option<u8>,
    codes: &[u8; CODED],
    dialect: &Dialect<'_>,
    options: &Options,
    rows: usize,
    targets: &mut [C],
    bad: &mut [B],
) -> Skipped
    requires quotes { dialect.now.has_quotes ≡ HAS_QUOTES }
    requires marked { IfSome marked (λ separator. IsMarked dialect.now separator) }
    requires codes { AreCodes dialect.now codes.now (map C.target targets.old) }
    requires usable { AreUsable rows (map C.target targets.old) }
    ensures answer { result ≡ skipping_answer (kinds_of (map C.target targets.old)) dialect.now
        rows text.now }
    ensures targets { map C.target targets.new ≡ skipping_put dialect.now rows text.now
        (map C.target targets.old) }
    ensures bad { bad.new ≡ put_in_front (map B.kept (skipped_rows
        (kinds_of (map C.target targets.old)) dialect.now rows text.now)) bad.old }
    ensures goes_on { SkipsTo dialect.now rows text.now result }
    ensures right_rows { HoldRightRows dialect.now rows text.now (map C.target targets.old)
        (map C.target targets.new) }
{
    skip_coded_rows::<C, B, HAS_QUOTES, true>(
        text, marked, codes, dialect, options, rows, targets, bad,
    )
}

// `read_columns_skipping`, once for tables with quotes and once for others: out of line, so that each has its own loops.
#[inline(never)]
fn skip_rows<C: TableColumn, B: KeptRow, const HAS_QUOTES: bool>(
    text: &[u8],
    dialect: &Dialect<'_>,
    options: &Options,
    rows: usize,
    targets: &mut [C],
    bad: &mut [B],
) -> Skipped
    requires quotes { dialect.now.has_quotes ≡ HAS_QUOTES }
    requires usable { AreUsable rows (map C.target targets.old) }
    ensures answer { result ≡ skipping_answer (kinds_of (map C.target targets.old)) dialect.now
        rows text.now }
    ensures targets { map C.target targets.new ≡ skipping_put dialect.now rows text.now
        (map C.target targets.old) }
    ensures bad { bad.new ≡ put_in_front (map B.kept (skipped_rows
        (kinds_of (map C.target targets.old)) dialect.now rows text.now)) bad.old }
    ensures goes_on { SkipsTo dialect.now rows text.now result }
    ensures right_rows { HoldRightRows dialect.now rows text.now (map C.target targets.old)
        (map C.target targets.new) }
{
    let marked = marked_separator(text, dialect);
    let mut codes = [UNKNOWN; CODED];
    match ask_codes(marked, dialect, targets, &mut codes) {
        Loop::WithCalls => skip_called_rows::<C, B, HAS_QUOTES>(
            text, marked, &codes, dialect, options, rows, targets, bad,
        ),
        _ => skip_coded_rows::<C, B, HAS_QUOTES, false>(
            text, marked, &codes, dialect, options, rows, targets, bad,
        ),
    }
}

/// Reads a table's columns into slices of their own, as [`read_columns`](crate::read_columns) does, and skips the rows
/// at fault.
///
/// The right rows, and only these, are stored one behind another, up to `rows` of them. A row with too few or too many
/// cells is at fault too. What is known of the bad rows is stored in `bad`, in their order, as far as there is room;
/// all else there stays as it was, and `bad_rows` counts all bad rows.
///
/// The call stops behind the last right row that it is asked for, or else at the text's end: so no bad row that follows
/// that right one is read. A call whose text begins at `stop` goes on with the next row, and counts rows and places
/// from there.
///
/// A bad row is read up to its fault, into the place of the next right one. So in each slice the place behind the last
/// right row, and its bit, may have changed, if fewer rows are there than were asked for. All else is as it was.
///
/// With commas, two columns of `u8` and room for three rows, `1,2\n3,x\n5,6\n` puts 1 and 5, and 2 and 6. The answer is
/// two rows and one bad row, stopping at 12. `bad` has the bad row, which is row 1 and stands from 4 to 8, with the
/// fault of its column 1 at 6.
pub fn read_columns_skipping<C: TableColumn, B: KeptRow>(
    text: &[u8],
    dialect: &Dialect<'_>,
    options: &Options,
    rows: usize,
    targets: &mut [C],
    bad: &mut [B],
) -> Skipped
    requires usable { AreUsable rows (map C.target targets.old) }
    ensures answer { result ≡ skipping_answer (kinds_of (map C.target targets.old)) dialect.now
        rows text.now }
    ensures targets { map C.target targets.new ≡ skipping_put dialect.now rows text.now
        (map C.target targets.old) }
    ensures bad { bad.new ≡ put_in_front (map B.kept (skipped_rows
        (kinds_of (map C.target targets.old)) dialect.now rows text.now)) bad.old }
    ensures goes_on { SkipsTo dialect.now rows text.now result }
    ensures right_rows { HoldRightRows dialect.now rows text.now (map C.target targets.old)
        (map C.target targets.new) }
{
    if dialect.has_quotes {
        return skip_rows::<C, B, true>(text, dialect, options, rows, targets, bad);
    }
    skip_rows::<C, B, false>(text, dialect, options, rows, targets, bad)
}

/// Reads the columns in the whole rows of a part of a text, and skips the rows at fault, as
/// [`read_columns_skipping`] does in a whole text.
///
/// A row that a part ends in isn't read, unless the part is the last one, as in
/// [`read_columns_part`](crate::read_columns_part): put the bytes from `stop` on in front of the next part.
pub fn read_part_skipping<C: TableColumn, B: KeptRow>(
    text: &[u8],
    is_last: bool,
    dialect: &Dialect<'_>,
    options: &Options,
    rows: usize,
    targets: &mut [C],
    bad: &mut [B],
) -> Skipped
    requires usable { AreUsable rows (map C.target targets.old) }
    ensures answer { result ≡ skipping_answer (kinds_of (map C.target targets.old)) dialect.now
        rows (readable is_last dialect.now text.now) }
    ensures targets { map C.target targets.new ≡ skipping_put dialect.now rows
        (readable is_last dialect.now text.now) (map C.target targets.old) }
    ensures bad { bad.new ≡ put_in_front (map B.kept (skipped_rows
        (kinds_of (map C.target targets.old)) dialect.now rows
        (readable is_last dialect.now text.now))) bad.old }
    ensures goes_on { SkipsTo dialect.now rows (readable is_last dialect.now text.now) result }
    ensures right_rows { HoldRightRows dialect.now rows (readable is_last dialect.now text.now)
        (map C.target targets.old) (map C.target targets.new) }
{
    if is_last {
        return read_columns_skipping(text, dialect, options, rows, targets, bad);
    }
    let whole = &text[..whole_rows(text, dialect)];
    read_columns_skipping(whole, dialect, options, rows, targets, bad)
}

/// The law of parts, where bad rows are skipped: wherever a text is cut, its whole rows in front of the cut, and then all
/// that is left, give the right rows and the faults of the whole text, where each column's format is valid. Rows and
/// places count from the beginning of the whole text.
///
/// The call does nothing. A proof that needs the law makes it, and has its clause.
pub fn skipping_in_parts()
    ensures { (kinds : List (Option Kind)) (dialect : Dialect) (part more : List ℕ)
        → AreValid kinds → SkippingInParts kinds dialect part more }
{}
