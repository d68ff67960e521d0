//! Columns of any kind, in one table.

ghost use Rattle.lexical_tables.specs.Targets.{view_of_column};

use crate::amounts::is_quick;
use crate::cell_text::CellText;
use crate::codes::{NOT_READ, TEXTS};
use crate::fixed_targets::FixedTarget;
use crate::targets::{TableColumn, Target};
use crate::text_targets::TextTarget;
use lexical_parse_integer::{Error, Options};

/// A column of a table: what is read of it, if it is read.
///
/// Where all columns that are read have integers, an `Option<Target>` is enough for each.
#[derive(Drop)]
pub enum Column<'a> {
    /// It isn't read.
    Unread,
    /// Integers.
    Integers(Target<'a>),
    /// Fixed-point numbers.
    FixedPoints(FixedTarget<'a>),
    /// Texts, kept as the places where they stand.
    Texts(TextTarget<'a>),
}

impl TableColumn for Column<'_> {
    ghost target = { view_of_column };

    #[inline(always)]
    fn is_read(&self) -> bool {
        !matches!(self, Column::Unread)
    }

    #[inline(always)]
    fn is_text(&self) -> bool {
        matches!(self, Column::Texts(_))
    }

    #[inline(always)]
    fn may_miss(&self) -> bool {
        match self {
            Column::Unread => false,
            Column::Integers(target) => target.present.is_some(),
            Column::FixedPoints(target) => target.present.is_some(),
            Column::Texts(target) => target.present.is_some(),
        }
    }

    fn put_missing(&mut self, row: usize) {
        match self {
            Column::Unread => {}
            Column::Integers(target) => target.put_missing(row),
            Column::FixedPoints(target) => target.put_missing(row),
            Column::Texts(target) => target.put_missing(row),
        }
    }

    #[inline(always)]
    fn put_text(&mut self, code: u8, row: usize, text: CellText) {
        if code != TEXTS {
            return;
        }
        match self {
            Column::Texts(target) => target.put_text(row, text),
            Column::Unread | Column::Integers(_) | Column::FixedPoints(_) => unreachable!(),
        }
    }

    fn read(
        &mut self,
        row: usize,
        start: usize,
        text: &[u8],
        ahead: &[u8],
        options: &Options,
    ) -> Option<Error> {
        if self.read_at_once(row, ahead, text.len()) {
            return None;
        }
        self.read_left(row, start, text, ahead, options)
    }

    #[inline(always)]
    fn read_at_once(&mut self, row: usize, ahead: &[u8], size: usize) -> bool {
        match self {
            Column::Integers(target) => target.read_at_once(row, ahead, size),
            Column::FixedPoints(target) => target.read_at_once(row, ahead, size),
            Column::Unread | Column::Texts(_) => false,
        }
    }

    #[inline(always)]
    fn read_left(
        &mut self,
        row: usize,
        start: usize,
        text: &[u8],
        ahead: &[u8],
        options: &Options,
    ) -> Option<Error> {
        match self {
            Column::Unread => None,
            Column::Integers(target) => target.read_left(row, start, text),
            Column::FixedPoints(target) => target.read(row, start, text),
            Column::Texts(target) => {
                let place = CellText {
                    start,
                    size: text.len(),
                    has_doubled_quotes: false,
                };
                target.put_text(row, place);
                None
            }
        }
    }

    #[inline(always)]
    fn code(&self) -> u8 {
        match self {
            Column::Unread => NOT_READ,
            Column::Integers(target) => target.code(),
            Column::FixedPoints(target) => target.code(),
            Column::Texts(_) => TEXTS,
        }
    }

    #[inline(always)]
    fn has_amounts(&self) -> bool {
        match self {
            Column::FixedPoints(target) => is_quick(&target.format),
            Column::Unread | Column::Integers(_) | Column::Texts(_) => false,
        }
    }

    #[inline(always)]
    fn read_amount(&mut self, row: usize, ahead: &[u8], size: usize) -> bool {
        match self {
            Column::FixedPoints(target) => target.read_amount(row, ahead, size),
            Column::Unread | Column::Integers(_) | Column::Texts(_) => false,
        }
    }

    #[inline(always)]
    fn put_number(&mut self, code: u8, row: usize, is_negative: bool, number: u64) -> bool {
        match self {
            Column::Integers(target) => target.put_with_sign(row, is_negative, number),
            Column::Unread | Column::FixedPoints(_) | Column::Texts(_) => unreachable!(),
        }
    }
}
