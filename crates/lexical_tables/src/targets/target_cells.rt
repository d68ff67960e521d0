//! What is put into a row's place of a target.

ghost use Rattle.std.specs.Prelude.{◌≡◌, ◌+◌, ◌<◌, ◌^◌, None, Some, length, IsNone};
ghost use Rattle.lexical_util.specs.Validity.{fault};
ghost use Rattle.lexical_tables.specs.ByColumn.{IsUsable};
ghost use Rattle.lexical_tables.specs.Targets.{error_in, put_text, put_value, text_answer, view_of_target, with_number};

use crate::targets::{Target, put_presence};
use lexical_parse_integer::Error;

impl Target<'_> {
    // Puts 0 into a row's place, and clears the row's bit.
    pub(crate) fn put_missing(&mut self, row: usize)
        requires usable { IsUsable (row + 1) (Some (view_of_target self.old)) }
        ensures { view_of_target self.new ≡ put_value row None (view_of_target self.old) }
    {
        self.numbers.put_zero(row);
        put_presence(&mut self.present, row, false);
    }

    // Puts the number of a text that isn't read at once into a row's place, and sets the row's bit, or returns the text's fault.
    #[inline(always)]
    pub(crate) fn read_left(&mut self, row: usize, start: usize, text: &[u8]) -> Option<Error>
        requires usable { IsUsable (row + 1) (Some (view_of_target self.old)) }
        requires fits { start + length text.now < 2 ^ 64 }
        ensures fault { result ≡ error_in (text_answer (view_of_target self.old)
            (record { start = start; text = text.now })) }
        ensures target { view_of_target self.new ≡ put_text row
            (record { start = start; text = text.now }) (view_of_target self.old) }
    {
        if let Some(error) = self.put_parsed_number(row, start, text) {
            return Some(error);
        }
        put_presence(&mut self.present, row, true);
        None
    }

    // Puts the number of a text that isn't read at once into a row's place, or returns the text's fault.
    #[inline(always)]
    fn put_parsed_number(&mut self, row: usize, start: usize, text: &[u8]) -> Option<Error>
        requires valid { IsNone (fault self.old.format) }
        requires room { row < length (view_of_target self.old).values }
        requires fits { start + length text.now < 2 ^ 64 }
        ensures fault { result ≡ error_in (text_answer (view_of_target self.old)
            (record { start = start; text = text.now })) }
        ensures target { view_of_target self.new ≡ record (view_of_target self.old) {
          values = with_number row (text_answer (view_of_target self.old)
              (record { start = start; text = text.now })) (view_of_target self.old).values;
        } }
    {
        self.numbers.put_parsed(row, start, text, &self.format)
    }
}
