//! Columns of texts, kept as the places where they stand.

ghost use Rattle.std.specs.Prelude.{◌≡◌, ◌+◌, ◌*◌, ◌<◌, ◌≤◌, IfSome, None, Some, length, option_map, set};
ghost use Rattle.lexical_tables.specs.ByColumn.{IsUsable};
ghost use Rattle.lexical_tables.specs.Readings.{Text, Texts, blank};
ghost use Rattle.lexical_tables.specs.Targets.{put_value, view_of_text, view_of_texts, with_row_bit};

use crate::cell_text::CellText;
use crate::targets::put_presence;

/// What is kept of a column of texts: where they stand, in a slice.
#[derive(Drop)]
pub struct TextTarget<'a> {
    /// Where that goes, each at its row's number.
    pub texts: &'a mut [CellText],
    /// Where the bits go that say which rows have a text, as those of a [`Target`](crate::Target) say it of numbers. Without it
    /// no text may be missing.
    pub present: Option<&'a mut [u8]>,
}

// A text of no bytes.
const NO_TEXT: CellText = CellText {
    start: 0,
    size: 0,
    has_doubled_quotes: false,
};

impl TextTarget<'_> {
    // Puts a text of no bytes into a row's place, and clears the row's bit.
    pub(crate) fn put_missing(&mut self, row: usize)
        requires usable { IsUsable (row + 1) (Some (view_of_texts self.old)) }
        ensures { view_of_texts self.new ≡ put_value row None (view_of_texts self.old) }
    {
        self.put_place(row, NO_TEXT);
        put_presence(&mut self.present, row, false);
    }

    // Puts where a text stands into a row's place, and sets the row's bit.
    pub(crate) fn put_text(&mut self, row: usize, text: CellText)
        requires usable { IsUsable (row + 1) (Some (view_of_texts self.old)) }
        ensures { view_of_texts self.new
            ≡ put_value row (Some (Text (view_of_text text))) (view_of_texts self.old) }
    {
        self.put_place(row, text);
        put_presence(&mut self.present, row, true);
    }

    // Puts where a text stands into a row's place.
    fn put_place(&mut self, row: usize, text: CellText)
        requires room { row < length (view_of_texts self.old).values }
        ensures { view_of_texts self.new ≡ record (view_of_texts self.old) {
          values = set (view_of_texts self.old).values row (Text (view_of_text text));
        } }
    {
        self.texts[row] = text;
    }
}
