//! The arrays of numbers of a table's column, as C writes them.

ghost use Rattle.std.specs.Prelude.{◌≡◌, ◌+◌, ◌<◌, ◌≤◌, ◌^◌, ℕ, IfSome, IsNone, IsTrue, None, Some, false, length, option_map, pos, set, take, true};
ghost use Rattle.lexical_digits.specs.Value.{with_sign};
ghost use Rattle.lexical_util.specs.Format.{standard};
ghost use Rattle.lexical_util.specs.Number.{IsNumber};
ghost use Rattle.lexical_util.specs.Validity.{fault};
ghost use Rattle.lexical_fields.specs.ReadFields.{field_answer};
ghost use Rattle.lexical_fixed.specs.Validity.{fixed_fault};
ghost use Rattle.lexical_tables.specs.Codes.{coded_type};
ghost use Rattle.lexical_tables.specs.Readings.{fixed_answer};
ghost use Rattle.jadvolni.specs.Arrays.{array_fault, array_in, number_type, put_answer, put_number, type_named};

use lexical_fixed::FixedFormat;
use lexical_parse_integer::format::STANDARD;
use lexical_parse_integer::{Error, NumberFormat, Options};
use lexical_tables::{
    put_at_once, put_cell, put_fixed, put_fixed_at_once, put_standard_parsed, put_with_sign,
    put_zero,
};

/// A type that the numbers of a column may have.
#[derive(Debug, Copy, Clone, PartialEq, Eq)]
pub enum NumberType {
    U8,
    U16,
    U32,
    U64,
    I8,
    I16,
    I32,
    I64,
}

/// The arrays of a column, one for each type. The first one that has room takes the column's numbers, and so sets their
/// type. If none has room, the column has no numbers.
#[repr(C)]
#[derive(Drop)]
pub struct ArrayFields<'a> {
    pub i64s: &'a mut [i64],
    pub u64s: &'a mut [u64],
    pub i32s: &'a mut [i32],
    pub u32s: &'a mut [u32],
    pub i16s: &'a mut [i16],
    pub u16s: &'a mut [u16],
    pub i8s: &'a mut [i8],
    pub u8s: &'a mut [u8],
}

impl ArrayFields<'_> {
    // The type of the first array that has room, if any.
    #[inline(always)]
    pub(crate) fn number_type(&self) -> Option<NumberType>
        ensures { result ≡ number_type self.now }
    {
        if !self.i64s.is_empty() {
            return Some(NumberType::I64);
        }
        if !self.u64s.is_empty() {
            return Some(NumberType::U64);
        }
        if !self.i32s.is_empty() {
            return Some(NumberType::I32);
        }
        if !self.u32s.is_empty() {
            return Some(NumberType::U32);
        }
        if !self.i16s.is_empty() {
            return Some(NumberType::I16);
        }
        if !self.u16s.is_empty() {
            return Some(NumberType::U16);
        }
        if !self.i8s.is_empty() {
            return Some(NumberType::I8);
        }
        if !self.u8s.is_empty() {
            return Some(NumberType::U8);
        }
        None
    }

    // How many numbers the array has room for, if there is one.
    pub(crate) fn room(&self) -> Option<usize>
        ensures { result ≡ option_map (λ array. length array.numbers) (array_in self.now) }
    {
        match self.number_type() {
            None => None,
            Some(NumberType::I64) => Some(self.i64s.len()),
            Some(NumberType::U64) => Some(self.u64s.len()),
            Some(NumberType::I32) => Some(self.i32s.len()),
            Some(NumberType::U32) => Some(self.u32s.len()),
            Some(NumberType::I16) => Some(self.i16s.len()),
            Some(NumberType::U16) => Some(self.u16s.len()),
            Some(NumberType::I8) => Some(self.i8s.len()),
            Some(NumberType::U8) => Some(self.u8s.len()),
        }
    }

    // Puts 0 into a row's place, if there is an array.
    pub(crate) fn put_zero(&mut self, row: usize)
        requires room { IfSome (array_in self.old) (λ array. row < length array.numbers) }
        ensures { array_in self.new ≡ option_map (put_number row (pos 0)) (array_in self.old) }
    {
        match self.number_type() {
            None => {},
            Some(NumberType::I64) => put_zero(self.i64s, row),
            Some(NumberType::U64) => put_zero(self.u64s, row),
            Some(NumberType::I32) => put_zero(self.i32s, row),
            Some(NumberType::U32) => put_zero(self.u32s, row),
            Some(NumberType::I16) => put_zero(self.i16s, row),
            Some(NumberType::U16) => put_zero(self.u16s, row),
            Some(NumberType::I8) => put_zero(self.i8s, row),
            Some(NumberType::U8) => put_zero(self.u8s, row),
        }
    }

    // Puts the number of a text into a row's place, or returns the text's fault, if there is an array.
    #[inline(always)]
    pub(crate) fn put_cell(
        &mut self,
        row: usize,
        start: usize,
        text: &[u8],
        ahead: &[u8],
        format: &NumberFormat,
        options: &Options,
    ) -> Option<Error>
        requires valid { IsNone (fault format.now) }
        requires room { IfSome (array_in self.old) (λ array. row < length array.numbers) }
        requires front { text.now ≡ take (length text.now) ahead.now }
        requires fits { start + length text.now < 2 ^ 64 }
        ensures fault { result ≡ array_fault (λ type. field_answer format.now type
            (record { start = start; text = text.now })) (array_in self.old) }
        ensures numbers { array_in self.new ≡ option_map (put_answer row
            (λ type. field_answer format.now type (record { start = start; text = text.now })))
            (array_in self.old) }
    {
        match self.number_type() {
            None => None,
            Some(NumberType::I64) => put_cell(self.i64s, row, start, text, ahead, format, options),
            Some(NumberType::U64) => put_cell(self.u64s, row, start, text, ahead, format, options),
            Some(NumberType::I32) => put_cell(self.i32s, row, start, text, ahead, format, options),
            Some(NumberType::U32) => put_cell(self.u32s, row, start, text, ahead, format, options),
            Some(NumberType::I16) => put_cell(self.i16s, row, start, text, ahead, format, options),
            Some(NumberType::U16) => put_cell(self.u16s, row, start, text, ahead, format, options),
            Some(NumberType::I8) => put_cell(self.i8s, row, start, text, ahead, format, options),
            Some(NumberType::U8) => put_cell(self.u8s, row, start, text, ahead, format, options),
        }
    }

    // Puts the fixed-point number of a text into a row's place, or returns the text's fault, if there is an array.
    #[inline(always)]
    pub(crate) fn put_fixed(
        &mut self,
        row: usize,
        start: usize,
        text: &[u8],
        format: &FixedFormat,
    ) -> Option<Error>
        requires valid { IsNone (fixed_fault format.now) }
        requires room { IfSome (array_in self.old) (λ array. row < length array.numbers) }
        requires fits { start + length text.now < 2 ^ 64 }
        ensures fault { result ≡ array_fault (λ type. fixed_answer format.now type
            (record { start = start; text = text.now })) (array_in self.old) }
        ensures numbers { array_in self.new ≡ option_map (put_answer row
            (λ type. fixed_answer format.now type (record { start = start; text = text.now })))
            (array_in self.old) }
    {
        match self.number_type() {
            None => None,
            Some(NumberType::I64) => put_fixed(self.i64s, row, start, text, format),
            Some(NumberType::U64) => put_fixed(self.u64s, row, start, text, format),
            Some(NumberType::I32) => put_fixed(self.i32s, row, start, text, format),
            Some(NumberType::U32) => put_fixed(self.u32s, row, start, text, format),
            Some(NumberType::I16) => put_fixed(self.i16s, row, start, text, format),
            Some(NumberType::U16) => put_fixed(self.u16s, row, start, text, format),
            Some(NumberType::I8) => put_fixed(self.i8s, row, start, text, format),
            Some(NumberType::U8) => put_fixed(self.u8s, row, start, text, format),
        }
    }

    // Puts the fixed-point number of a text's first `size` bytes into a row's place, where the number is read at once and
    // the array's type is known.
    #[inline(always)]
    pub(crate) fn put_fixed_at_once(
        &mut self,
        numbers: NumberType,
        row: usize,
        ahead: &[u8],
        size: usize,
        format: &FixedFormat,
    ) -> bool
        requires numbers { number_type self.old ≡ Some numbers }
        requires valid { IsNone (fixed_fault format.now) }
        requires room { IfSome (array_in self.old) (λ array. row < length array.numbers) }
        requires within { size ≤ length ahead.now }
        ensures fault { IsTrue result → (start : ℕ)
            → array_fault (λ type. fixed_answer format.now type
            (record { start = start; text = take size ahead.now })) (array_in self.old) ≡ None }
        ensures numbers { IsTrue result → (start : ℕ) → array_in self.new
            ≡ option_map (put_answer row (λ type. fixed_answer format.now type
            (record { start = start; text = take size ahead.now }))) (array_in self.old) }
        ensures kept { result ≡ false → array_in self.new ≡ array_in self.old }
    {
        match numbers {
            NumberType::I64 => put_fixed_at_once(self.i64s, row, ahead, size, format),
            NumberType::U64 => put_fixed_at_once(self.u64s, row, ahead, size, format),
            NumberType::I32 => put_fixed_at_once(self.i32s, row, ahead, size, format),
            NumberType::U32 => put_fixed_at_once(self.u32s, row, ahead, size, format),
            NumberType::I16 => put_fixed_at_once(self.i16s, row, ahead, size, format),
            NumberType::U16 => put_fixed_at_once(self.u16s, row, ahead, size, format),
            NumberType::I8 => put_fixed_at_once(self.i8s, row, ahead, size, format),
            NumberType::U8 => put_fixed_at_once(self.u8s, row, ahead, size, format),
        }
    }

    // Puts the number of a text that isn't read at once into a row's place, or returns the text's fault, under the standard
    // format, if there is an array.
    #[inline(always)]
    pub(crate) fn put_standard_parsed(
        &mut self,
        row: usize,
        start: usize,
        text: &[u8],
    ) -> Option<Error>
        requires room { IfSome (array_in self.old) (λ array. row < length array.numbers) }
        requires fits { start + length text.now < 2 ^ 64 }
        ensures fault { result ≡ array_fault (λ type. field_answer standard type
            (record { start = start; text = text.now })) (array_in self.old) }
        ensures numbers { array_in self.new ≡ option_map (put_answer row
            (λ type. field_answer standard type (record { start = start; text = text.now })))
            (array_in self.old) }
    {
        match self.number_type() {
            None => None,
            Some(NumberType::I64) => put_standard_parsed(self.i64s, row, start, text),
            Some(NumberType::U64) => put_standard_parsed(self.u64s, row, start, text),
            Some(NumberType::I32) => put_standard_parsed(self.i32s, row, start, text),
            Some(NumberType::U32) => put_standard_parsed(self.u32s, row, start, text),
            Some(NumberType::I16) => put_standard_parsed(self.i16s, row, start, text),
            Some(NumberType::U16) => put_standard_parsed(self.u16s, row, start, text),
            Some(NumberType::I8) => put_standard_parsed(self.i8s, row, start, text),
            Some(NumberType::U8) => put_standard_parsed(self.u8s, row, start, text),
        }
    }

    // Puts the number of a text's first `size` bytes into a row's place, if there is an array and the fast path reads
    // the number under the standard format. Out of line, since most numbers are read by codes.
    #[inline(never)]
    pub(crate) fn put_at_once(&mut self, row: usize, ahead: &[u8], size: usize) -> bool
        requires room { IfSome (array_in self.old) (λ array. row < length array.numbers) }
        requires within { size ≤ length ahead.now }
        ensures fault { IsTrue result → (start : ℕ)
            → array_fault (λ type. field_answer standard type
            (record { start = start; text = take size ahead.now })) (array_in self.old) ≡ None }
        ensures numbers { IsTrue result → (start : ℕ) → array_in self.new
            ≡ option_map (put_answer row (λ type. field_answer standard type
            (record { start = start; text = take size ahead.now }))) (array_in self.old) }
        ensures kept { result ≡ false → array_in self.new ≡ array_in self.old }
    {
        match self.number_type() {
            None => false,
            Some(NumberType::I64) => put_at_once(self.i64s, row, ahead, size, &STANDARD),
            Some(NumberType::U64) => put_at_once(self.u64s, row, ahead, size, &STANDARD),
            Some(NumberType::I32) => put_at_once(self.i32s, row, ahead, size, &STANDARD),
            Some(NumberType::U32) => put_at_once(self.u32s, row, ahead, size, &STANDARD),
            Some(NumberType::I16) => put_at_once(self.i16s, row, ahead, size, &STANDARD),
            Some(NumberType::U16) => put_at_once(self.u16s, row, ahead, size, &STANDARD),
            Some(NumberType::I8) => put_at_once(self.i8s, row, ahead, size, &STANDARD),
            Some(NumberType::U8) => put_at_once(self.u8s, row, ahead, size, &STANDARD),
        }
    }

    // Puts a number with its sign into a row's place, if the array's type, which a code names, has that number, and
    // returns whether it did.
    #[inline(always)]
    pub(crate) fn put_coded(
        &mut self,
        numbers: NumberType,
        row: usize,
        is_negative: bool,
        number: u64,
    ) -> bool
        requires numbers { number_type self.old ≡ Some numbers }
        requires room { IfSome (array_in self.old) (λ array. row < length array.numbers) }
        requires small { number < 2 ^ 63 }
        ensures fits { IsTrue result
            → IsNumber (type_named numbers) (with_sign is_negative number) }
        ensures minus { IsTrue result → IsTrue is_negative → (type_named numbers).is_signed ≡ true }
        ensures numbers { IsTrue result → array_in self.new
            ≡ option_map (put_number row (with_sign is_negative number)) (array_in self.old) }
        ensures kept { result ≡ false → array_in self.new ≡ array_in self.old }
    {
        match numbers {
            NumberType::I64 => put_with_sign(self.i64s, row, is_negative, number),
            NumberType::U64 => put_with_sign(self.u64s, row, is_negative, number),
            NumberType::I32 => put_with_sign(self.i32s, row, is_negative, number),
            NumberType::U32 => put_with_sign(self.u32s, row, is_negative, number),
            NumberType::I16 => put_with_sign(self.i16s, row, is_negative, number),
            NumberType::U16 => put_with_sign(self.u16s, row, is_negative, number),
            NumberType::I8 => put_with_sign(self.i8s, row, is_negative, number),
            NumberType::U8 => put_with_sign(self.u8s, row, is_negative, number),
        }
    }
}
