//! What is answered of a table.

use lexical_parse_integer::Error;

/// How far a table was read.
#[derive(Debug, Copy, Clone, PartialEq, Eq)]
pub struct Table {
    /// How many rows were read.
    pub rows: usize,
    /// The place in the text where reading stopped: its end, or the start of the first row that wasn't
    /// asked for.
    pub stop: usize,
}

/// What is wrong with a cell, or with the end of its row. Places count the text's bytes from 0.
#[derive(Debug, Copy, Clone, PartialEq, Eq)]
pub enum CellFault {
    /// The cell is no number of the type.
    NotNumber(Error),
    /// The quote at this place is out of place in the cell, or opens one that nothing closes.
    MisplacedQuote(usize),
    /// The row ends at this place, before the cell.
    TooFewCells(usize),
    /// A cell that the row shouldn't have starts at this place.
    TooManyCells(usize),
    /// The line feed at this place has no carriage return before it.
    MissingReturn(usize),
}

/// Why a table isn't read to its end: the first wrong cell in reading order, row by row, and in a row cell by
/// cell, then their number, then the return.
#[derive(Debug, Copy, Clone, PartialEq, Eq)]
pub struct TableError {
    /// Its row, counted from 0: how many rows come before it.
    pub row: usize,
    /// Its column, counted from 0: how many cells of the row come before it.
    pub column: usize,
    /// What is wrong.
    pub fault: CellFault,
}
