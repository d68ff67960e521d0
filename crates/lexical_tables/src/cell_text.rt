//! Where the texts of cells stand.

/// Where a text stands that a cell holds. Places count the table's bytes from 0.
#[derive(Debug, Copy, Clone, PartialEq, Eq)]
pub struct CellText {
    /// The place of its first byte. In a quoted cell that is behind the quote.
    pub start: usize,
    /// How many bytes it has.
    pub size: usize,
    /// Whether doubled quotes stand among them: then each two quotes stand for one.
    pub has_doubled_quotes: bool,
}
