//! Tables of a text that comes in parts, as a file that is read in blocks.

ghost use Rattle.std.specs.Prelude.{◌≡◌, ◌≤◌, ℕ, List, Option, length, map, IfOk};
ghost use Rattle.lexical_tables.specs.ByColumn.{AreUsable, StopsAt, columns_answer, columns_put, kinds_of};
ghost use Rattle.lexical_tables.specs.Cells.{Kind};
ghost use Rattle.lexical_tables.specs.Parts.{AreValid, ColumnsInParts, readable, whole_lines, whole_rows};

use crate::answers::{Table, TableError};
use crate::by_column::read_columns;
use crate::dialect::{Dialect, Layout};
use crate::quotes::length_outside;
use crate::rows::record_size;
use crate::targets::TableColumn;
use lexical_fields::whole_fields;
use lexical_parse_integer::Options;

// How many bytes of a part are whole lines: those up to its last line feed outside quotes, that one counted.
fn whole_lines(text: &[u8], has_quotes: bool) -> usize
    ensures value { result ≡ whole_lines has_quotes text.now }
    ensures within { result ≤ length text.now }
{
    if !has_quotes {
        return whole_fields(text, b'\n');
    }
    let mut rest = text;
    while !rest.is_empty() {
        let size = length_outside(rest, b'\n', has_quotes);
        if size == rest.len() {
            return text.len() - rest.len();
        }
        rest = &rest[size + 1..];
    }
    text.len()
}

// How many bytes of a part are whole rows.
pub(crate) fn whole_rows(text: &[u8], dialect: &Dialect<'_>) -> usize
    ensures value { result ≡ whole_rows dialect.now text.now }
    ensures within { result ≤ length text.now }
{
    if let Layout::Records { widths } = dialect.layout {
        return text.len() - text.len() % record_size(widths, text.len() + 1);
    }
    whole_lines(text, dialect.has_quotes)
}

/// Reads the columns in the whole rows of a part of a text, as [`read_columns`](crate::read_columns) does in a
/// whole text.
///
/// A part may end within a row. That row isn't read, unless the part is the last one: put the bytes from `stop` on in
/// front of the next part. Rows and places count from the part's start. Read in this way, all parts give the numbers
/// and the first fault of the whole text ([`columns_in_parts`]).
///
/// With a comma and two columns, `1,2\n3,4` gives one row and stops at 4 where more follows, and two rows
/// where it is the last part.
pub fn read_columns_part<C: TableColumn>(
    text: &[u8],
    is_last: bool,
    dialect: &Dialect<'_>,
    options: &Options,
    rows: usize,
    targets: &mut [C],
) -> Result<Table, TableError>
    requires usable { AreUsable rows (map C.target targets.old) }
    ensures answer { result ≡ columns_answer (kinds_of (map C.target targets.old)) dialect.now rows
        (readable is_last dialect.now text.now) }
    ensures targets { map C.target targets.new ≡ columns_put dialect.now rows
        (readable is_last dialect.now text.now) (map C.target targets.old) }
    ensures goes_on { IfOk result (StopsAt dialect.now rows
        (readable is_last dialect.now text.now)) }
{
    if is_last {
        return read_columns(text, dialect, options, rows, targets);
    }
    let whole = &text[..whole_rows(text, dialect)];
    read_columns(whole, dialect, options, rows, targets)
}

/// The law of parts: wherever a text is cut, its whole rows in front of the cut, and then all that is left, give the
/// numbers and the first fault of the whole text, where each column's format is valid. Rows and places count from the
/// beginning of the whole text.
///
/// The call does nothing. A proof that needs the law makes it, and has its clause.
pub fn columns_in_parts()
    ensures { (kinds : List (Option Kind)) (dialect : Dialect) (part more : List ℕ)
        → AreValid kinds → ColumnsInParts kinds dialect part more }
{}
