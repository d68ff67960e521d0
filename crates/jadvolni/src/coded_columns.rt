//! The codes of columns, and how numbers are stored by them.

ghost use Rattle.std.specs.Prelude.{◌≡◌, ◌+◌, ◌<◌, ◌≤◌, ◌^◌, IsTrue, Some, false, is_some, option_map, true};
ghost use Rattle.lexical_digits.specs.Value.{with_sign};
ghost use Rattle.lexical_util.specs.Number.{IsNumber};
ghost use Rattle.lexical_tables.specs.ByColumn.{IsUsable};
ghost use Rattle.lexical_tables.specs.Codes.{IsReadAs, coded_type, has_coded_bits};
ghost use Rattle.lexical_tables.specs.Targets.{has_bits};
ghost use Rattle.jadvolni.specs.Arrays.{number_type, type_named};
ghost use Rattle.jadvolni.specs.Tables.{put_at, target_of};

use crate::arrays::NumberType;
use crate::table_columns::ColumnFields;
use lexical_tables::codes::{self, WITH_BITS};

impl NumberType {
    // The code of a column of such numbers, of which none may be missing.
    pub(crate) fn code(self) -> u8
        ensures numbers { coded_type result ≡ type_named self }
        ensures read { 8 ≤ result }
        ensures bare { result < 16 }
    {
        match self {
            NumberType::U8 => codes::U8,
            NumberType::U16 => codes::U16,
            NumberType::U32 => codes::U32,
            NumberType::U64 => codes::U64,
            NumberType::I8 => codes::I8,
            NumberType::I16 => codes::I16,
            NumberType::I32 => codes::I32,
            NumberType::I64 => codes::I64,
        }
    }
}

impl ColumnFields<'_> {
    // The column's code, if its format were the standard one.
    #[inline(always)]
    pub(crate) fn standard_code(&self, numbers: NumberType) -> u8
        requires numbers { number_type self.now.arrays ≡ Some numbers }
        ensures column { coded_type result ≡ type_named numbers }
        ensures bits { has_bits (target_of self.now) ≡ has_coded_bits result }
        ensures read { 8 ≤ result }
        ensures standard { result < 32 }
    {
        let code = numbers.code();
        if self.present.is_empty() {
            return code;
        }
        code + WITH_BITS
    }

    // The type of the first array that has room, as the column's code says it.
    #[inline(always)]
    fn type_of_code(&self, code: u8) -> NumberType
        requires column { IsReadAs code (target_of self.now) }
        requires read { 8 ≤ code }
        ensures { number_type self.now.arrays ≡ Some result }
    {
        match code % 8 {
            0 => NumberType::U8,
            1 => NumberType::U16,
            2 => NumberType::U32,
            3 => NumberType::U64,
            4 => NumberType::I8,
            5 => NumberType::I16,
            6 => NumberType::I32,
            7 => NumberType::I64,
            _ => unreachable!(),
        }
    }

    // Puts a number with its sign into a row's place, where the column's type has it, and returns whether it did.
    #[inline(always)]
    pub(crate) fn put_coded_number(
        &mut self,
        code: u8,
        row: usize,
        is_negative: bool,
        number: u64,
    ) -> bool
        requires column { IsReadAs code (target_of self.old) }
        requires read { 8 ≤ code }
        requires usable { IsUsable (row + 1) (target_of self.old) }
        requires small { number < 2 ^ 63 }
        ensures fits { IsTrue result → IsNumber (coded_type code) (with_sign is_negative number) }
        ensures minus { IsTrue result → IsTrue is_negative → (coded_type code).is_signed ≡ true }
        ensures target { IsTrue result → target_of self.new
            ≡ option_map (put_at row (with_sign is_negative number)) (target_of self.old) }
        ensures kept { result ≡ false → target_of self.new ≡ target_of self.old }
    {
        let numbers = self.type_of_code(code);
        self.arrays.put_coded(numbers, row, is_negative, number)
    }
}
