//! What is answered of a table whose bad rows are skipped.

ghost use Rattle.std.specs.Prelude.{◌≡◌, set};
ghost use Rattle.lexical_tables.specs.declared.bad_rows.BadRow.{BadRow};

use crate::answers::TableError;
use crate::places::RowPlace;

/// How far a table was read whose bad rows were skipped.
#[derive(Debug, Copy, Clone, PartialEq, Eq)]
pub struct Skipped {
    /// How many right rows were read.
    pub rows: usize,
    /// How many bad rows were skipped.
    pub bad_rows: usize,
    /// The place in the text where reading stopped: its end, or the start of the row behind the last right one that
    /// was asked for.
    pub stop: usize,
}

/// A row at fault.
#[derive(Debug, Copy, Clone, PartialEq, Eq)]
pub struct BadRow {
    /// Its first wrong cell. The row is counted among all rows of the text, right and bad.
    pub error: TableError,
    /// Where the row is.
    pub place: RowPlace,
}

/// What is kept of a bad row.
///
/// A [`BadRow`] is one. Another type may be one too, if it meets the clause.
pub trait KeptRow: Copy {
    // What is kept of it.
    ghost kept: { BadRow → Self };

    /// What is kept of it.
    fn of_bad_row(row: BadRow) -> Self
        ensures { result ≡ kept row };
}

impl KeptRow for BadRow {
    ghost kept = { λ row. row };

    fn of_bad_row(row: BadRow) -> Self {
        row
    }
}

// Stores what is kept of a bad row at `place`, the number of bad rows before it, if there is room.
#[inline(always)]
pub(crate) fn put_bad_row<B: KeptRow>(bad: &mut [B], place: usize, row: BadRow)
    ensures { bad.new ≡ set bad.old place (B.kept row) }
{
    if place < bad.len() {
        bad[place] = B::of_bad_row(row);
    }
}
