//! The columns of a table whose integers have another format than the standard one.

ghost use Rattle.std.specs.Prelude.{◌≡◌, ◌+◌, ◌<◌, ◌≤◌, ◌^◌, ℕ, IfSome, IsTrue, None, Some, false, length, map, option_map, take};
ghost use Rattle.lexical_util.specs.Format.{standard};
ghost use Rattle.lexical_util.specs.Kind.{kind_of};
ghost use Rattle.lexical_util.specs.Validity.{fault};
ghost use Rattle.lexical_util.specs.declared.format.kind.FormatKind.TheVariants.{Decimal};
ghost use Rattle.lexical_fields.specs.ReadFields.{field_answer};
ghost use Rattle.lexical_tables.specs.ByColumn.{IsUsable};
ghost use Rattle.lexical_tables.specs.Targets.{error_in, keeps_text, text_fault, with_number};
ghost use Rattle.jadvolni.specs.Arrays.{array_fault, array_in, number_type, put_answer};
ghost use Rattle.jadvolni.specs.FormatFields.{format_of};
ghost use Rattle.jadvolni.specs.Tables.{put_number, target_of};

use crate::arrays::{ArrayFields, NumberType};
use crate::format::FormatFields;
use crate::table_columns::ColumnFields;
use lexical_fields::error_in_text;
use lexical_parse_integer::laws::grammar::fault_places;
use lexical_parse_integer::parse::ParseInteger;
use lexical_parse_integer::quick::complete_valid;
use lexical_parse_integer::{Error, Options};
use lexical_tables::put_in_radix;

// Puts the integer of a text into a row's place, or returns the text's fault, under a valid format. The format is built
// here: a caller with a branch for each type would keep it in memory for all of them.
#[inline(never)]
fn put_by_format<T: ParseInteger>(
    values: &mut [T],
    row: usize,
    start: usize,
    text: &[u8],
    fields: &FormatFields,
) -> Option<Error>
    requires valid { fault (format_of fields.now) ≡ None }
    requires room { row < length values.old }
    requires fits { start + length text.now < 2 ^ 64 }
    ensures fault { result ≡ error_in (field_answer (format_of fields.now) T.TYPE
        (record { start = start; text = text.now })) }
    ensures numbers { map T.number values.new ≡ with_number row (field_answer (format_of fields.now)
        T.TYPE (record { start = start; text = text.now })) (map T.number values.old) }
{
    // The law by which a fault's place is at most the text's length, so that the sum fits.
    fault_places();
    match complete_valid::<T>(text, &fields.valid_format()) {
        Ok(value) => {
            values[row] = value;
            None
        }
        Err(error) => Some(error_in_text(start, error)),
    }
}

impl ArrayFields<'_> {
    // Puts the number of a text into a row's place, or returns the text's fault, under a valid format.
    #[inline(always)]
    fn put_by_format(
        &mut self,
        numbers: NumberType,
        row: usize,
        start: usize,
        text: &[u8],
        fields: &FormatFields,
    ) -> Option<Error>
        requires numbers { number_type self.old ≡ Some numbers }
        requires valid { fault (format_of fields.now) ≡ None }
        requires room { IfSome (array_in self.old) (λ array. row < length array.numbers) }
        requires fits { start + length text.now < 2 ^ 64 }
        ensures fault { result ≡ array_fault (λ type. field_answer (format_of fields.now) type
            (record { start = start; text = text.now })) (array_in self.old) }
        ensures numbers { array_in self.new ≡ option_map (put_answer row
            (λ type. field_answer (format_of fields.now) type
            (record { start = start; text = text.now }))) (array_in self.old) }
    {
        match numbers {
            NumberType::I64 => put_by_format(self.i64s, row, start, text, fields),
            NumberType::U64 => put_by_format(self.u64s, row, start, text, fields),
            NumberType::I32 => put_by_format(self.i32s, row, start, text, fields),
            NumberType::U32 => put_by_format(self.u32s, row, start, text, fields),
            NumberType::I16 => put_by_format(self.i16s, row, start, text, fields),
            NumberType::U16 => put_by_format(self.u16s, row, start, text, fields),
            NumberType::I8 => put_by_format(self.i8s, row, start, text, fields),
            NumberType::U8 => put_by_format(self.u8s, row, start, text, fields),
        }
    }

    // Puts the number of a text into a row's place under the standard format with another radix than 10, if the text is digits
    // alone or behind a minus.
    #[inline(always)]
    fn put_in_radix(&mut self, numbers: NumberType, row: usize, text: &[u8], radix: u8) -> bool
        requires numbers { number_type self.old ≡ Some numbers }
        requires room { IfSome (array_in self.old) (λ array. row < length array.numbers) }
        ensures fault { IsTrue result → (start : ℕ)
            → array_fault (λ type. field_answer (record standard { mantissa_radix = radix }) type
            (record { start = start; text = text.now })) (array_in self.old) ≡ None }
        ensures numbers { IsTrue result → (start : ℕ) → array_in self.new
            ≡ option_map (put_answer row
            (λ type. field_answer (record standard { mantissa_radix = radix }) type
            (record { start = start; text = text.now }))) (array_in self.old) }
        ensures kept { result ≡ false → array_in self.new ≡ array_in self.old }
    {
        match numbers {
            NumberType::I64 => put_in_radix(self.i64s, row, text, radix),
            NumberType::U64 => put_in_radix(self.u64s, row, text, radix),
            NumberType::I32 => put_in_radix(self.i32s, row, text, radix),
            NumberType::U32 => put_in_radix(self.u32s, row, text, radix),
            NumberType::I16 => put_in_radix(self.i16s, row, text, radix),
            NumberType::U16 => put_in_radix(self.u16s, row, text, radix),
            NumberType::I8 => put_in_radix(self.i8s, row, text, radix),
            NumberType::U8 => put_in_radix(self.u8s, row, text, radix),
        }
    }
}

impl ColumnFields<'_> {
    // Puts the integer of a text into a row's place, where the column's format is the standard one but for its radix, and the
    // text is digits alone or behind a minus. That format isn't made field by field.
    #[inline(always)]
    fn put_by_radix(&mut self, row: usize, text: &[u8]) -> bool
        requires integers { self.old.description.places ≡ 0 }
        requires standard { format_of self.old.description.integer ≡ record standard {
          mantissa_radix = self.old.description.integer.mantissa_radix;
        } }
        requires usable { IsUsable (row + 1) (target_of self.old) }
        ensures fault { IsTrue result → (start : ℕ) → text_fault (target_of self.old)
            (record { start = start; text = text.now }) ≡ None }
        ensures target { IsTrue result → (start : ℕ) → target_of self.new
            ≡ option_map (put_number row (record { start = start; text = text.now }))
            (target_of self.old) }
        ensures kept { result ≡ false → target_of self.new ≡ target_of self.old }
        ensures description { self.new.description ≡ self.old.description }
    {
        let Some(numbers) = self.arrays.number_type() else {
            return false;
        };
        let radix = self.description.integer.mantissa_radix;
        self.arrays.put_in_radix(numbers, row, text, radix)
    }

    // Puts the integer of a text as `put_by_radix` does, if the column has such a format.
    #[inline(never)]
    fn put_in_radix(&mut self, row: usize, text: &[u8]) -> bool
        requires integers { self.old.description.places ≡ 0 }
        requires usable { IsUsable (row + 1) (target_of self.old) }
        ensures fault { IsTrue result → (start : ℕ) → text_fault (target_of self.old)
            (record { start = start; text = text.now }) ≡ None }
        ensures target { IsTrue result → (start : ℕ) → target_of self.new
            ≡ option_map (put_number row (record { start = start; text = text.now }))
            (target_of self.old) }
        ensures kept { result ≡ false → target_of self.new ≡ target_of self.old }
        ensures description { self.new.description ≡ self.old.description }
    {
        if !self.description.integer.is_standard_but_radix() {
            return false;
        }
        self.put_by_radix(row, text)
    }

    // Puts the integer of a text into a row's place, or returns the text's fault, under a decimal format without punctuation.
    #[inline(never)]
    fn put_decimal(
        &mut self,
        row: usize,
        start: usize,
        text: &[u8],
        ahead: &[u8],
        options: &Options,
    ) -> Option<Error>
        requires numbers { keeps_text (target_of self.old) ≡ false }
        requires integers { self.old.description.places ≡ 0 }
        requires decimal { kind_of (format_of self.old.description.integer) ≡ Decimal }
        requires usable { IsUsable (row + 1) (target_of self.old) }
        requires front { text.now ≡ take (length text.now) ahead.now }
        requires fits { start + length text.now < 2 ^ 64 }
        ensures fault { result ≡ text_fault (target_of self.old)
            (record { start = start; text = text.now }) }
        ensures target { target_of self.new ≡ option_map (put_number row
            (record { start = start; text = text.now })) (target_of self.old) }
    {
        let Some(_) = self.arrays.number_type() else {
            return None;
        };
        let format = self.description.integer.decimal_format();
        self.arrays
            .put_cell(row, start, text, ahead, &format, options)
    }

    // Puts the integer of a text into a row's place, or returns the text's fault, under any other format. Out of line: inlined,
    // it makes the reader of other columns too large to be inlined.
    #[inline(never)]
    fn put_by_format(&mut self, row: usize, start: usize, text: &[u8]) -> Option<Error>
        requires numbers { keeps_text (target_of self.old) ≡ false }
        requires integers { self.old.description.places ≡ 0 }
        requires usable { IsUsable (row + 1) (target_of self.old) }
        requires fits { start + length text.now < 2 ^ 64 }
        ensures fault { result ≡ text_fault (target_of self.old)
            (record { start = start; text = text.now }) }
        ensures target { target_of self.new ≡ option_map (put_number row
            (record { start = start; text = text.now })) (target_of self.old) }
    {
        let Some(numbers) = self.arrays.number_type() else {
            return None;
        };
        self.arrays
            .put_by_format(numbers, row, start, text, &self.description.integer)
    }

    // Puts the number of a text into a row's place, and returns whether it did. Out of line, since the fault goes
    // through memory.
    #[inline(never)]
    fn put_rare_number(&mut self, row: usize, text: &[u8]) -> bool
        requires numbers { keeps_text (target_of self.old) ≡ false }
        requires usable { IsUsable (row + 1) (target_of self.old) }
        requires fits { length text.now < 2 ^ 64 }
        ensures fault { IsTrue result → text_fault (target_of self.old)
            (record { start = 0; text = text.now }) ≡ None }
        ensures target { IsTrue result → target_of self.new ≡ option_map (put_number row
            (record { start = 0; text = text.now })) (target_of self.old) }
        ensures kept { result ≡ false → target_of self.new ≡ target_of self.old }
    {
        if self.description.places != 0 {
            if self.put_in_groups(row, text) {
                return true;
            }
            return self.put_fixed_parsed(row, 0, text).is_none();
        }
        self.put_by_format(row, 0, text).is_none()
    }

    // Puts the number of a text into a row's place, if the text is one, and returns whether it did. Under the standard
    // format in another radix only the fast path is tried.
    #[inline(always)]
    pub(crate) fn put_bare_number(&mut self, row: usize, text: &[u8]) -> bool
        requires numbers { keeps_text (target_of self.old) ≡ false }
        requires usable { IsUsable (row + 1) (target_of self.old) }
        requires fits { length text.now < 2 ^ 64 }
        ensures fault { IsTrue result → text_fault (target_of self.old)
            (record { start = 0; text = text.now }) ≡ None }
        ensures target { IsTrue result → target_of self.new ≡ option_map (put_number row
            (record { start = 0; text = text.now })) (target_of self.old) }
        ensures kept { result ≡ false → target_of self.new ≡ target_of self.old }
    {
        if self.description.places == 0 {
            if self.description.integer.is_standard_but_radix() {
                return self.put_by_radix(row, text);
            }
        }
        self.put_rare_number(row, text)
    }

    // Puts the integer of a text into a row's place, or returns the text's fault, under another format than the standard one.
    #[inline(always)]
    pub(crate) fn put_other_number(
        &mut self,
        row: usize,
        start: usize,
        text: &[u8],
        ahead: &[u8],
        options: &Options,
    ) -> Option<Error>
        requires numbers { keeps_text (target_of self.old) ≡ false }
        requires integers { self.old.description.places ≡ 0 }
        requires usable { IsUsable (row + 1) (target_of self.old) }
        requires front { text.now ≡ take (length text.now) ahead.now }
        requires fits { start + length text.now < 2 ^ 64 }
        ensures fault { result ≡ text_fault (target_of self.old)
            (record { start = start; text = text.now }) }
        ensures target { target_of self.new ≡ option_map (put_number row
            (record { start = start; text = text.now })) (target_of self.old) }
    {
        if self.description.integer.is_plain_decimal() {
            return self.put_decimal(row, start, text, ahead, options);
        }
        if self.description.integer.has_radix_alone() {
            if self.put_in_radix(row, text) {
                return None;
            }
        }
        self.put_by_format(row, start, text)
    }
}
