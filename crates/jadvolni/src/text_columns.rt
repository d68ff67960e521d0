//! The texts of a table's columns, as C has them.

ghost use Rattle.std.specs.Prelude.{◌≡◌, ◌+◌, Some, false, option_map, true};
ghost use Rattle.lexical_tables.specs.ByColumn.{IsUsable};
ghost use Rattle.lexical_tables.specs.Targets.{keeps_text, put_value, view_of_text};
ghost use Rattle.lexical_tables.specs.Readings.{Text};
ghost use Rattle.jadvolni.specs.Tables.{put_place, put_zero, target_of, text_view};

use crate::table_columns::ColumnFields;
use lexical_tables::codes::TEXTS;
use lexical_tables::{CellText, TableColumn};

/// Where a text stands that a cell holds: `jadvolni_cell_text` in C, where each field is described.
#[repr(C)]
#[derive(Debug, Copy, Clone, PartialEq, Eq)]
pub struct TextFields {
    pub start: usize,
    pub size: usize,
    pub has_doubled_quotes: u8,
}

// What C has of a text.
pub(crate) fn text_fields(text: CellText) -> TextFields
    ensures { text_view result ≡ view_of_text text }
{
    TextFields {
        start: text.start,
        size: text.size,
        has_doubled_quotes: u8::from(text.has_doubled_quotes),
    }
}

impl ColumnFields<'_> {
    // Puts where a text stands into a row's place of a column of texts.
    pub(crate) fn put_place(&mut self, row: usize, text: TextFields)
        requires text { keeps_text (target_of self.old) ≡ true }
        requires usable { IsUsable (row + 1) (target_of self.old) }
        ensures { target_of self.new
            ≡ option_map (put_place row (text_view text)) (target_of self.old) }
    {
        self.texts[row] = text;
    }

    // Puts a text of no bytes into a row's place of a column of texts.
    pub(crate) fn put_no_text(&mut self, row: usize)
        requires text { keeps_text (target_of self.old) ≡ true }
        requires usable { IsUsable (row + 1) (target_of self.old) }
        ensures { target_of self.new ≡ option_map (put_zero row) (target_of self.old) }
    {
        self.put_place(
            row,
            TextFields {
                start: 0,
                size: 0,
                has_doubled_quotes: 0,
            },
        );
    }

    // Puts where a text without quotes stands into a row's place of a column of texts, and sets the row's bit. Out of
    // line, so that columns of numbers don't pay for it.
    #[tactic(auto, using(lexical_tables::proofs::CodeSteps::text_code))]
    #[inline(never)]
    pub(crate) fn put_whole_text(&mut self, row: usize, start: usize, size: usize)
        requires text { keeps_text (target_of self.old) ≡ true }
        requires usable { IsUsable (row + 1) (target_of self.old) }
        ensures { target_of self.new ≡ option_map (put_value row (Some (Text
            (record { start = start; size = size; has_doubled_quotes = false }))))
            (target_of self.old) }
    {
        let text = CellText {
            start,
            size,
            has_doubled_quotes: false,
        };
        self.put_text(TEXTS, row, text);
    }
}
