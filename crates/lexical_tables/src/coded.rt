//! The codes of targets, and how numbers are stored in targets by their sign and magnitude.

ghost use Rattle.std.specs.Prelude.{◌≡◌, ◌+◌, ◌<◌, ◌≤◌, ◌^◌, IsTrue, Some, false, length, set, true};
ghost use Rattle.lexical_digits.specs.Value.{with_sign};
ghost use Rattle.lexical_util.specs.Number.{IsNumber};
ghost use Rattle.lexical_tables.specs.ByColumn.{IsUsable};
ghost use Rattle.lexical_tables.specs.Codes.{IsCode, coded_type};
ghost use Rattle.lexical_tables.specs.Readings.{Number};
ghost use Rattle.lexical_tables.specs.Targets.{put_value, type_of, view_of_target};

use crate::codes::{self, WITH_BITS, under_format};
use crate::numbers::Numbers;
use crate::targets::{Target, put_presence};

impl Numbers<'_> {
    // The code of a column of such numbers, of which none may be missing.
    fn code(&self) -> u8
        ensures numbers { type_of self.now ≡ coded_type result }
        ensures read { 8 ≤ result }
        ensures bare { result < 16 }
    {
        match self {
            Numbers::U8(_) => codes::U8,
            Numbers::U16(_) => codes::U16,
            Numbers::U32(_) => codes::U32,
            Numbers::U64(_) => codes::U64,
            Numbers::I8(_) => codes::I8,
            Numbers::I16(_) => codes::I16,
            Numbers::I32(_) => codes::I32,
            Numbers::I64(_) => codes::I64,
        }
    }
}

impl Target<'_> {
    // The code of the column, which describes all its cells.
    pub(crate) fn code(&self) -> u8
        ensures { IsCode result (Some (view_of_target self.now)) }
    {
        let code = self.numbers.code();
        if self.present.is_some() {
            return under_format(code + WITH_BITS, &self.format);
        }
        under_format(code, &self.format)
    }

    // Puts a number with its sign into a row's place, and sets the row's bit, where the column's type has it, and returns whether
    // it did.
    #[inline(always)]
    pub(crate) fn put_with_sign(&mut self, row: usize, is_negative: bool, number: u64) -> bool
        requires usable { IsUsable (row + 1) (Some (view_of_target self.old)) }
        requires small { number < 2 ^ 63 }
        ensures fits { IsTrue result
            → IsNumber (type_of self.old.numbers) (with_sign is_negative number) }
        ensures minus { IsTrue result → IsTrue is_negative
            → (type_of self.old.numbers).is_signed ≡ true }
        ensures target { IsTrue result → view_of_target self.new
            ≡ put_value row (Some (Number (with_sign is_negative number)))
            (view_of_target self.old) }
        ensures kept { result ≡ false → view_of_target self.new ≡ view_of_target self.old }
    {
        if !self.put_number(row, is_negative, number) {
            return false;
        }
        put_presence(&mut self.present, row, true);
        true
    }

    // Puts a number with its sign into a row's place, where the column's type has it, and returns whether it did.
    #[inline(always)]
    fn put_number(&mut self, row: usize, is_negative: bool, number: u64) -> bool
        requires room { row < length (view_of_target self.old).values }
        requires small { number < 2 ^ 63 }
        ensures fits { IsTrue result
            → IsNumber (type_of self.old.numbers) (with_sign is_negative number) }
        ensures minus { IsTrue result → IsTrue is_negative
            → (type_of self.old.numbers).is_signed ≡ true }
        ensures target { IsTrue result → view_of_target self.new
            ≡ record (view_of_target self.old) {
              values = set (view_of_target self.old).values row
                  (Number (with_sign is_negative number));
            } }
        ensures kept { result ≡ false → view_of_target self.new ≡ view_of_target self.old }
    {
        self.numbers.put_with_sign(row, is_negative, number)
    }
}
