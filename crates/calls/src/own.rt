//! A user's own implementation of `TableColumn`, which writes only the functions that a table
//! requires.

ghost use Rattle.std.specs.Prelude.{option_map};
ghost use Rattle.lexical_tables.specs.Targets.{view_of_target};

use lexical_parse_integer::{Error, Options};
use lexical_tables::{CellText, TableColumn, Target};

/// A column that is read as its target is.
#[derive(Drop)]
pub struct Own<'a> {
    pub target: Option<Target<'a>>,
}

impl TableColumn for Own<'_> {
    ghost target = { λ own. option_map view_of_target own.target };

    #[inline(always)]
    fn is_read(&self) -> bool {
        self.target.is_read()
    }

    #[inline(always)]
    fn is_text(&self) -> bool {
        self.target.is_text()
    }

    #[inline(always)]
    fn may_miss(&self) -> bool {
        self.target.may_miss()
    }

    #[inline(always)]
    fn put_missing(&mut self, row: usize) {
        self.target.put_missing(row);
    }

    fn put_text(&mut self, code: u8, row: usize, text: CellText) {
        self.target.put_text(code, row, text);
    }

    #[inline(always)]
    fn read(
        &mut self,
        row: usize,
        start: usize,
        text: &[u8],
        ahead: &[u8],
        options: &Options,
    ) -> Option<Error> {
        self.target.read(row, start, text, ahead, options)
    }
}
