//! Where the rows of a text are.

ghost use Rattle.std.specs.Prelude.{◌≡◌, ◌∷◌, ◌+◌, ◌-◌, ◌<◌, ℕ, IfSome, List, Option, drop, length};
ghost use Rattle.lexical_tables.specs.ByColumn.{columns_answer};
ghost use Rattle.lexical_tables.specs.Cells.{Kind};
ghost use Rattle.lexical_tables.specs.Places.{HasPlace, StandsAt, row_place};
ghost use Rattle.lexical_tables.specs.Rows.{FirstCounts, first_row, rows_from};

use crate::dialect::Dialect;
use crate::rows::{first_row, without_empty_rows};

/// Where a row is. Places count the text's bytes from 0.
#[derive(Debug, Copy, Clone, PartialEq, Eq)]
pub struct RowPlace {
    /// Where it starts.
    pub start: usize,
    /// Where the next row starts, or the text's end where there is none.
    pub stop: usize,
}

// What a text has behind its first row, and behind the empty rows there, where these are skipped. Out of line:
// bad rows are rare.
#[inline(never)]
pub(crate) fn behind_row<'a>(text: &'a [u8], dialect: &Dialect<'_>) -> &'a [u8]
    requires some { 0 < length text.now }
    requires first { FirstCounts dialect.now text.now }
    ensures shorter { length result.now < length text.now }
    ensures tail { result.now ≡ drop (length text.now - length result.now) text.now }
    ensures rows { (place : ℕ) → rows_from dialect.now place text.now
        ≡ first_row dialect.now place text.now ∷ rows_from dialect.now
        (place + (length text.now - length result.now)) result.now }
    ensures first { FirstCounts dialect.now result.now }
{
    let (_row, behind) = first_row(0, text, dialect);
    without_empty_rows(behind, dialect)
}

/// Where the row of a number is, counted from 0, if the text has one.
///
/// It is for a row at fault: [`TableError`](crate::TableError) has its number. A call whose text begins at
/// `stop` goes on with the next row. A quote that nothing closes ends at the text's end, and so does its row. Empty
/// rows that are skipped have no number, and are passed by `stop`.
///
/// With commas the row 1 of `1,2\nx,4\n5,6\n` starts at 4, and `stop` is 8.
pub fn row_place(text: &[u8], dialect: &Dialect<'_>, row: usize) -> Option<RowPlace>
    ensures place { result ≡ row_place dialect.now row text.now }
    ensures stands { IfSome result (StandsAt dialect.now row text.now) }
{
    let mut rest = without_empty_rows(text, dialect);
    let mut count = 0;
    while !rest.is_empty() {
        let behind = behind_row(rest, dialect);
        if count == row {
            return Some(RowPlace {
                start: text.len() - rest.len(),
                stop: text.len() - behind.len(),
            });
        }
        rest = behind;
        count += 1;
    }
    None
}

/// The law of places: the row of a fault that [`read_columns`](crate::read_columns) reports has a place.
///
/// The call does nothing. A proof that needs the law makes it, and has its clause.
pub fn faults_have_places()
    ensures { (kinds : List (Option Kind)) (dialect : Dialect) (rows : ℕ) (text : List ℕ)
        → HasPlace dialect text (columns_answer kinds dialect rows text) }
{}
