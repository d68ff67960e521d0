//! The loops over the rows of a text whose cells are found by marks: one goes on from cell to cell, and from row to
//! row.

ghost use Rattle.std.specs.Prelude.{◌≡◌, ◌+◌, ◌-◌, ◌<◌, IfOk, IsTrue, None, length, map, ◌≤◌, ◌^◌, ℕ, List, Option, drop, false, true};
ghost use Rattle.lexical_tables.specs.ByColumn.{AreUsable, StopsAt, columns_answer, columns_put, kinds_of, column_count};
ghost use Rattle.lexical_tables.specs.Codes.{AreCodes, AreStandard};
ghost use Rattle.lexical_tables.specs.RowSoFar.{IsMarked, GoesOn, GoesToEnd, IsOnRow};
ghost use Rattle.lexical_tables.specs.Ends.{AreEnds};
ghost use Rattle.lexical_tables.specs.Rows.{behind_piece};
ghost use Rattle.lexical_tables.specs.Targets.{TargetView};

mod open_rows;

pub(crate) use self::open_rows::{LastRow, last_at_once};
use self::open_rows::{OpenRow, Stopped, open_row, stopped_at};
use crate::answers::{Table, TableError};
use crate::cells::column_count;
use crate::coded_cells::read_coded_cell;
use crate::codes::{CODED, Loop, UNKNOWN, put_codes};
use crate::dialect::Dialect;
use crate::ends::next_ends;
use crate::far_cells::read_next_cell;
use crate::next_part::{Left, behind_part, next_part};
use crate::pass::behind_empty_rows;
use crate::row_end::ends_wrong;
use crate::targets::TableColumn;
use lexical_parse_integer::Options;

// Reads cells by the codes of their columns, as long as marks find the cells and the fast path reads each: up to the
// end of the row `last`, or of the text, if nothing is wrong there. The first `coded` columns have codes. Without
// `HAS_CALLS` the loop calls only `ends_near_end`, so that all it needs stays in registers. With `ALL_STANDARD` all
// these codes are codes of types without the rule on zeros.
#[inline(always)]
fn read_cells_at_once<
    'a,
    C: TableColumn,
    const HAS_QUOTES: bool,
    const ALL_STANDARD: bool,
    const HAS_CALLS: bool,
>(
    text: &[u8],
    from: OpenRow<'a>,
    last: usize,
    coded: usize,
    columns: usize,
    separator: u8,
    codes: &[u8; CODED],
    dialect: &Dialect<'_>,
    options: &Options,
    targets: &mut [C],
) -> Stopped<'a>
    requires quotes { dialect.now.has_quotes ≡ HAS_QUOTES }
    requires within { from.start < length text.now }
    requires marks { AreEnds dialect.now.has_quotes separator from.left.text.now from.left.marks }
    requires here { IsOnRow dialect.now separator (drop from.start text.now) from.left.text.now }
    requires columns { columns ≡ column_count dialect.now.layout }
    requires coded { coded ≤ columns }
    requires few { from.column ≤ columns }
    requires marked { IsMarked dialect.now separator }
    requires codes { AreCodes dialect.now codes.now (map C.target targets.old) }
    requires standard { IsTrue ALL_STANDARD → AreStandard coded codes.now }
    requires usable { AreUsable (last + 1) (map C.target targets.old) }
    requires last { from.index ≤ last }
    ensures goes_on { result.is_done ≡ false → (first : ℕ) (old : List (Option TargetView))
        (rest : List ℕ) → GoesOn dialect.now (length text.now) first old rest
        (map C.target targets.old) from.entry.index (drop from.entry.start text.now)
        from.entry.column from.entry.left.text.now
        → GoesOn dialect.now (length text.now) first old rest (map C.target targets.new)
        result.row.index (drop result.row.start text.now) result.row.column
        result.row.left.text.now }
    ensures done { result.is_done ≡ true → (first : ℕ) (old : List (Option TargetView))
        (rest : List ℕ) → GoesOn dialect.now (length text.now) first old rest
        (map C.target targets.old) from.entry.index (drop from.entry.start text.now)
        from.entry.column from.entry.left.text.now
        → GoesToEnd dialect.now (length text.now) first old rest (map C.target targets.new)
        result.row.index (drop result.row.start text.now) None }
    ensures within { result.row.start < length text.now }
    ensures left { length result.row.left.text.now ≤ length from.entry.left.text.now }
    ensures here { result.is_done ≡ false
        → IsOnRow dialect.now separator (drop result.row.start text.now)
        result.row.left.text.now }
    ensures behind { result.is_done ≡ true → result.row.left.text.now
        ≡ behind_piece dialect.now.layout dialect.now.has_quotes
        (drop result.row.start text.now) }
    ensures shorter { result.is_done ≡ true → length result.row.left.text.now
        < length (drop result.row.start text.now) }
    ensures marks { AreEnds dialect.now.has_quotes separator result.row.left.text.now
        result.row.left.marks }
    ensures few { result.row.column ≤ columns }
    ensures codes { AreCodes dialect.now codes.now (map C.target targets.new) }
    ensures usable { AreUsable (last + 1) (map C.target targets.new) }
    ensures last { result.row.index ≤ last }
{
    let mut index = from.index;
    let mut start = from.start;
    let mut column = from.column;
    let mut left = from.left;
    while column < coded {
        let marks = next_ends(left.text, left.marks, separator, HAS_QUOTES);
        left = Left {
            text: left.text,
            marks,
        };
        if marks == 0 {
            return stopped_at(index, start, column, left, false);
        }
        let part = next_part(&text[start..], left.text, marks, separator, dialect);
        if ends_wrong(left.text, part, column, columns, dialect) {
            return stopped_at(index, start, column, left, false);
        }
        let place = text.len() - left.text.len();
        if !read_coded_cell::<C, HAS_QUOTES, ALL_STANDARD, HAS_CALLS>(
            targets, codes, column, index, place, left.text, part.size, dialect, options,
        ) {
            return stopped_at(index, start, column, left, false);
        }
        column += 1;
        left = behind_part(left, part.end);
        if part.is_last {
            if index == last || left.text.is_empty() {
                return stopped_at(index, start, column, left, true);
            }
            index += 1;
            start = text.len() - left.text.len();
            column = 0;
        }
    }
    stopped_at(index, start, column, left, false)
}

// Puts what is read of rows into their places in the targets, from the first row of `from` on, where one pass of marks
// finds the cells: up to the row `last`, or to the end of a row of which the fast path leaves a cell, or of the text. A
// fault of that row goes to `wrong`, since a returned `Result` would clear its memory for each row. `SKIPS` says who
// calls it: so each instance has one caller, and is inlined, however large it is.
#[inline(always)]
pub(crate) fn read_marked_rows<
    'a,
    C: TableColumn,
    const HAS_QUOTES: bool,
    const ALL_STANDARD: bool,
    const HAS_CALLS: bool,
    const SKIPS: bool,
>(
    text: &'a [u8],
    from: Left<'a>,
    first: usize,
    last: usize,
    columns: usize,
    separator: u8,
    codes: &[u8; CODED],
    dialect: &Dialect<'_>,
    options: &Options,
    targets: &mut [C],
    wrong: &mut Option<TableError>,
) -> LastRow<'a>
    requires quotes { dialect.now.has_quotes ≡ HAS_QUOTES }
    requires fine { wrong.old ≡ None }
    requires some { 0 < length from.text.now }
    requires within { length from.text.now ≤ length text.now }
    requires tail { from.text.now ≡ drop (length text.now - length from.text.now) text.now }
    requires marks { AreEnds dialect.now.has_quotes separator from.text.now from.marks }
    requires columns { columns ≡ column_count dialect.now.layout }
    requires marked { IsMarked dialect.now separator }
    requires codes { AreCodes dialect.now codes.now (map C.target targets.old) }
    requires standard { IsTrue ALL_STANDARD → AreStandard (length targets.old) codes.now }
    requires usable { AreUsable (last + 1) (map C.target targets.old) }
    requires last { first ≤ last }
    ensures done { GoesToEnd dialect.now (length text.now) first (map C.target targets.old)
        from.entry.text.now (map C.target targets.new) result.index
        (drop result.start text.now) wrong.new }
    ensures behind { wrong.new ≡ None → result.behind.text.now
        ≡ behind_piece dialect.now.layout dialect.now.has_quotes (drop result.start text.now) }
    ensures shorter { wrong.new ≡ None
        → length result.behind.text.now < length (drop result.start text.now) }
    ensures marks { AreEnds dialect.now.has_quotes separator result.behind.text.now
        result.behind.marks }
    ensures last { result.index ≤ last }
    ensures within { result.start < length text.now }
{
    let coded = columns.min(CODED).min(targets.len());
    let mut row = open_row(text, first, from);
    loop {
        let read = read_cells_at_once::<C, HAS_QUOTES, ALL_STANDARD, HAS_CALLS>(
            text, row, last, coded, columns, separator, codes, dialect, options, targets,
        );
        row = read.row;
        if read.is_done {
            return LastRow {
                index: row.index,
                start: row.start,
                behind: row.left,
            };
        }
        let next = read_next_cell(
            row.start,
            &text[row.start..],
            row.left,
            row.column,
            row.index,
            columns,
            separator,
            codes,
            dialect,
            options,
            targets,
            wrong,
        );
        if next.is_done {
            return LastRow {
                index: row.index,
                start: row.start,
                behind: next.left,
            };
        }
        row = OpenRow {
            column: next.column,
            left: next.left,
            ..row
        };
    }
}

// `read_columns` of a text with marks, by the columns' codes.
#[inline(always)]
fn read_coded_rows<
    C: TableColumn,
    const HAS_QUOTES: bool,
    const ALL_STANDARD: bool,
    const HAS_CALLS: bool,
>(
    text: &[u8],
    separator: u8,
    codes: &[u8; CODED],
    dialect: &Dialect<'_>,
    options: &Options,
    rows: usize,
    targets: &mut [C],
) -> Result<Table, TableError>
    requires quotes { dialect.now.has_quotes ≡ HAS_QUOTES }
    requires marked { IsMarked dialect.now separator }
    requires codes { AreCodes dialect.now codes.now (map C.target targets.old) }
    requires standard { IsTrue ALL_STANDARD → AreStandard (length targets.old) codes.now }
    requires usable { AreUsable rows (map C.target targets.old) }
    ensures answer { result ≡ columns_answer (kinds_of (map C.target targets.old)) dialect.now rows
        text.now }
    ensures targets { map C.target targets.new ≡ columns_put dialect.now rows text.now
        (map C.target targets.old) }
    ensures goes_on { IfOk result (StopsAt dialect.now rows text.now) }
{
    let columns = column_count(dialect);
    let mut left = behind_empty_rows(Left { text, marks: 0 }, Some(separator), dialect);
    let mut count = 0;
    while count < rows && !left.text.is_empty() {
        let last = last_at_once(count, rows, dialect);
        let mut wrong = None;
        let read = read_marked_rows::<C, HAS_QUOTES, ALL_STANDARD, HAS_CALLS, false>(
            text, left, count, last, columns, separator, codes, dialect, options, targets,
            &mut wrong,
        );
        if let Some(error) = wrong {
            return Err(error);
        }
        left = behind_empty_rows(read.behind, Some(separator), dialect);
        count = read.index + 1;
    }
    Ok(Table {
        rows: count,
        stop: text.len() - left.text.len(),
    })
}

// `read_coded_rows` of a table with texts, amounts or numbers of other formats, which its loop reads by calls. Out of
// line, so that other tables have loops of their own, without calls.
#[inline(never)]
fn read_called_rows<C: TableColumn, const HAS_QUOTES: bool>(
    text: &[u8],
    separator: u8,
    codes: &[u8; CODED],
    dialect: &Dialect<'_>,
    options: &Options,
    rows: usize,
    targets: &mut [C],
) -> Result<Table, TableError>
    requires quotes { dialect.now.has_quotes ≡ HAS_QUOTES }
    requires marked { IsMarked dialect.now separator }
    requires codes { AreCodes dialect.now codes.now (map C.target targets.old) }
    requires usable { AreUsable rows (map C.target targets.old) }
    ensures answer { result ≡ columns_answer (kinds_of (map C.target targets.old)) dialect.now rows
        text.now }
    ensures targets { map C.target targets.new ≡ columns_put dialect.now rows text.now
        (map C.target targets.old) }
    ensures goes_on { IfOk result (StopsAt dialect.now rows text.now) }
{
    read_coded_rows::<C, HAS_QUOTES, false, true>(
        text, separator, codes, dialect, options, rows, targets,
    )
}

// `read_columns` of a text with marks, once for tables with quotes and once for others: out of line, so that each has its own
// loops.
#[inline(never)]
pub(crate) fn read_rows<C: TableColumn, const HAS_QUOTES: bool>(
    text: &[u8],
    separator: u8,
    dialect: &Dialect<'_>,
    options: &Options,
    rows: usize,
    targets: &mut [C],
) -> Result<Table, TableError>
    requires quotes { dialect.now.has_quotes ≡ HAS_QUOTES }
    requires marked { IsMarked dialect.now separator }
    requires usable { AreUsable rows (map C.target targets.old) }
    ensures answer { result ≡ columns_answer (kinds_of (map C.target targets.old)) dialect.now rows
        text.now }
    ensures targets { map C.target targets.new ≡ columns_put dialect.now rows text.now
        (map C.target targets.old) }
    ensures goes_on { IfOk result (StopsAt dialect.now rows text.now) }
{
    let mut codes = [UNKNOWN; CODED];
    match put_codes(dialect, targets, &mut codes) {
        Loop::Standard => read_coded_rows::<C, HAS_QUOTES, true, false>(
            text, separator, &codes, dialect, options, rows, targets,
        ),
        Loop::WithoutCalls => read_coded_rows::<C, HAS_QUOTES, false, false>(
            text, separator, &codes, dialect, options, rows, targets,
        ),
        Loop::WithCalls => read_called_rows::<C, HAS_QUOTES>(
            text, separator, &codes, dialect, options, rows, targets,
        ),
    }
}
