//! How a table is written.

ghost use Rattle.std.specs.Prelude.{◌≡◌};
ghost use Rattle.lexical_tables.specs.Rows.{takes_returns};

/// How rows and their cells are found.
#[derive(Debug, Copy, Clone, PartialEq, Eq)]
pub enum Layout<'a> {
    /// Rows are lines, and a byte stands between two cells.
    Separated {
        /// The byte. It may be any, but a line feed never separates cells, since it ends the row.
        separator: u8,
        /// How many cells each row has. A row without a byte has one cell, which is empty: so with 0 each row has one
        /// too many.
        columns: usize,
    },
    /// Rows are lines, and each cell has as many bytes as its width says. A cell that isn't wholly there doesn't count,
    /// and bytes behind the last one are a cell too many.
    ///
    /// With the widths 3 and 2 the row `007ab` has the cells `007` and `ab`, and `007a` has one.
    Widths {
        /// The widths of a row's cells, in bytes.
        widths: &'a [usize],
    },
    /// Cells are found in the same way, but a row has as many bytes as its widths together, or one if these have none,
    /// and nothing stands between two rows.
    Records {
        /// The widths of a row's cells, in bytes.
        widths: &'a [usize],
    },
}

/// How a table is written.
#[derive(Debug, Copy, Clone, PartialEq, Eq)]
pub struct Dialect<'a> {
    /// How the cells of a row are found.
    pub layout: Layout<'a>,
    /// Whether a carriage return stands before each line feed that ends a row. Without it, and without `allows_returns`, a
    /// return is a byte of its cell.
    pub has_returns: bool,
    /// Whether cells may stand within quotes, `"`, as RFC 4180 says. If the quote is the separator, it separates cells.
    pub has_quotes: bool,
    /// Whether blanks, spaces and tabs, may stand around a number, or around what stands for a missing one.
    pub allows_blanks: bool,
    /// Whether rows that have no byte but their return are skipped.
    pub skips_empty_rows: bool,
    /// Whether a carriage return may stand before a line feed that ends a row: then it is no byte of the row. Any other is
    /// a byte of its cell, as at the text's end. Where `has_returns` asks for one, this changes nothing.
    pub allows_returns: bool,
    /// What stands for a missing number or text, in columns that have bits for it.
    pub missing: &'a [u8],
}

impl Dialect<'_> {
    // Whether a return may stand in front of the line feed that ends a line. By `|`, so that it is one test.
    #[inline(always)]
    pub(crate) fn takes_returns(&self) -> bool
        ensures { result ≡ takes_returns self.now }
    {
        self.has_returns | self.allows_returns
    }
}
