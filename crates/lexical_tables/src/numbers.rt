//! The slices that columns' numbers go to, of any type.

ghost use Rattle.std.specs.Prelude.{◌≡◌, ◌+◌, ◌<◌, ◌≤◌, ◌^◌, ℕ, IsNone, IsTrue, None, false, length, pos, set, take, true};
ghost use Rattle.lexical_digits.specs.Value.{with_sign};
ghost use Rattle.lexical_util.specs.Number.{IsNumber};
ghost use Rattle.lexical_util.specs.Validity.{fault};
ghost use Rattle.lexical_fields.specs.ReadFields.{field_answer};
ghost use Rattle.lexical_fixed.specs.Validity.{fixed_fault};
ghost use Rattle.lexical_tables.specs.Readings.{fixed_answer};
ghost use Rattle.lexical_tables.specs.Targets.{error_in, numbers_in, slice_in, type_of, with_number};

use crate::at_once::put_at_once;
use crate::column_integer::put_with_sign;
use crate::fixed_targets::{put_fixed, put_fixed_at_once};
use crate::parsed::put_parsed;
use crate::targets::put_zero;
use lexical_fixed::FixedFormat;
use lexical_parse_integer::{Error, NumberFormat};

/// The slice that a column's numbers go to. It says their type.
#[derive(Drop)]
pub enum Numbers<'a> {
    /// Numbers of 8 bits without a sign.
    U8(&'a mut [u8]),
    /// Numbers of 16 bits without a sign.
    U16(&'a mut [u16]),
    /// Numbers of 32 bits without a sign.
    U32(&'a mut [u32]),
    /// Numbers of 64 bits without a sign.
    U64(&'a mut [u64]),
    /// Numbers of 8 bits with a sign.
    I8(&'a mut [i8]),
    /// Numbers of 16 bits with a sign.
    I16(&'a mut [i16]),
    /// Numbers of 32 bits with a sign.
    I32(&'a mut [i32]),
    /// Numbers of 64 bits with a sign.
    I64(&'a mut [i64]),
}

impl Numbers<'_> {
    // Puts 0 into a row's place.
    pub(crate) fn put_zero(&mut self, row: usize)
        requires room { row < length (numbers_in self.old) }
        ensures same_type { type_of self.new ≡ type_of self.old }
        ensures same_slice { slice_in self.new ≡ slice_in self.old }
        ensures numbers { numbers_in self.new ≡ set (numbers_in self.old) row (pos 0) }
    {
        match self {
            Numbers::U8(values) => put_zero::<u8>(values, row),
            Numbers::U16(values) => put_zero::<u16>(values, row),
            Numbers::U32(values) => put_zero::<u32>(values, row),
            Numbers::U64(values) => put_zero::<u64>(values, row),
            Numbers::I8(values) => put_zero::<i8>(values, row),
            Numbers::I16(values) => put_zero::<i16>(values, row),
            Numbers::I32(values) => put_zero::<i32>(values, row),
            Numbers::I64(values) => put_zero::<i64>(values, row),
        }
    }

    // Puts a number with its sign into a row's place, where the type has it, and returns whether it did.
    #[inline(always)]
    pub(crate) fn put_with_sign(&mut self, row: usize, is_negative: bool, number: u64) -> bool
        requires room { row < length (numbers_in self.old) }
        requires small { number < 2 ^ 63 }
        ensures fits { IsTrue result
            → IsNumber (type_of self.old) (with_sign is_negative number) }
        ensures minus { IsTrue result → IsTrue is_negative → (type_of self.old).is_signed ≡ true }
        ensures same_type { type_of self.new ≡ type_of self.old }
        ensures same_slice { slice_in self.new ≡ slice_in self.old }
        ensures numbers { IsTrue result → numbers_in self.new
            ≡ set (numbers_in self.old) row (with_sign is_negative number) }
        ensures kept { result ≡ false → numbers_in self.new ≡ numbers_in self.old }
    {
        match self {
            Numbers::U8(values) => put_with_sign::<u8>(values, row, is_negative, number),
            Numbers::U16(values) => put_with_sign::<u16>(values, row, is_negative, number),
            Numbers::U32(values) => put_with_sign::<u32>(values, row, is_negative, number),
            Numbers::U64(values) => put_with_sign::<u64>(values, row, is_negative, number),
            Numbers::I8(values) => put_with_sign::<i8>(values, row, is_negative, number),
            Numbers::I16(values) => put_with_sign::<i16>(values, row, is_negative, number),
            Numbers::I32(values) => put_with_sign::<i32>(values, row, is_negative, number),
            Numbers::I64(values) => put_with_sign::<i64>(values, row, is_negative, number),
        }
    }

    // Puts the number of a text's first `size` bytes into a row's place, where it is read at once, and returns whether it did.
    #[inline(always)]
    pub(crate) fn put_at_once(
        &mut self,
        row: usize,
        ahead: &[u8],
        size: usize,
        format: &NumberFormat,
    ) -> bool
        requires valid { IsNone (fault format.now) }
        requires room { row < length (numbers_in self.old) }
        requires within { size ≤ length ahead.now }
        ensures fault { IsTrue result → (start : ℕ)
            → error_in (field_answer format.now (type_of self.old)
            (record { start = start; text = take size ahead.now })) ≡ None }
        ensures same_type { type_of self.new ≡ type_of self.old }
        ensures same_slice { slice_in self.new ≡ slice_in self.old }
        ensures numbers { IsTrue result → (start : ℕ) → numbers_in self.new
            ≡ with_number row (field_answer format.now (type_of self.old)
            (record { start = start; text = take size ahead.now })) (numbers_in self.old) }
        ensures kept { result ≡ false → numbers_in self.new ≡ numbers_in self.old }
    {
        match self {
            Numbers::U8(values) => put_at_once::<u8>(values, row, ahead, size, format),
            Numbers::U16(values) => put_at_once::<u16>(values, row, ahead, size, format),
            Numbers::U32(values) => put_at_once::<u32>(values, row, ahead, size, format),
            Numbers::U64(values) => put_at_once::<u64>(values, row, ahead, size, format),
            Numbers::I8(values) => put_at_once::<i8>(values, row, ahead, size, format),
            Numbers::I16(values) => put_at_once::<i16>(values, row, ahead, size, format),
            Numbers::I32(values) => put_at_once::<i32>(values, row, ahead, size, format),
            Numbers::I64(values) => put_at_once::<i64>(values, row, ahead, size, format),
        }
    }

    // Puts the number of a text that isn't read at once into a row's place, or returns the text's fault.
    #[inline(always)]
    pub(crate) fn put_parsed(
        &mut self,
        row: usize,
        start: usize,
        text: &[u8],
        format: &NumberFormat,
    ) -> Option<Error>
        requires valid { IsNone (fault format.now) }
        requires room { row < length (numbers_in self.old) }
        requires fits { start + length text.now < 2 ^ 64 }
        ensures fault { result ≡ error_in (field_answer format.now (type_of self.old)
            (record { start = start; text = text.now })) }
        ensures same_type { type_of self.new ≡ type_of self.old }
        ensures same_slice { slice_in self.new ≡ slice_in self.old }
        ensures numbers { numbers_in self.new ≡ with_number row
            (field_answer format.now (type_of self.old)
            (record { start = start; text = text.now })) (numbers_in self.old) }
    {
        match self {
            Numbers::U8(values) => put_parsed::<u8>(values, row, start, text, format),
            Numbers::U16(values) => put_parsed::<u16>(values, row, start, text, format),
            Numbers::U32(values) => put_parsed::<u32>(values, row, start, text, format),
            Numbers::U64(values) => put_parsed::<u64>(values, row, start, text, format),
            Numbers::I8(values) => put_parsed::<i8>(values, row, start, text, format),
            Numbers::I16(values) => put_parsed::<i16>(values, row, start, text, format),
            Numbers::I32(values) => put_parsed::<i32>(values, row, start, text, format),
            Numbers::I64(values) => put_parsed::<i64>(values, row, start, text, format),
        }
    }

    // Puts the fixed-point number of a text's first `size` bytes into a row's place, where it is read at once, and returns
    // whether it did.
    pub(crate) fn put_fixed_at_once(
        &mut self,
        row: usize,
        ahead: &[u8],
        size: usize,
        format: &FixedFormat,
    ) -> bool
        requires valid { IsNone (fixed_fault format.now) }
        requires room { row < length (numbers_in self.old) }
        requires within { size ≤ length ahead.now }
        ensures fault { IsTrue result → (start : ℕ)
            → error_in (fixed_answer format.now (type_of self.old)
            (record { start = start; text = take size ahead.now })) ≡ None }
        ensures same_type { type_of self.new ≡ type_of self.old }
        ensures same_slice { slice_in self.new ≡ slice_in self.old }
        ensures numbers { IsTrue result → (start : ℕ) → numbers_in self.new
            ≡ with_number row (fixed_answer format.now (type_of self.old)
            (record { start = start; text = take size ahead.now })) (numbers_in self.old) }
        ensures kept { result ≡ false → numbers_in self.new ≡ numbers_in self.old }
    {
        match self {
            Numbers::U8(values) => put_fixed_at_once::<u8>(values, row, ahead, size, format),
            Numbers::U16(values) => put_fixed_at_once::<u16>(values, row, ahead, size, format),
            Numbers::U32(values) => put_fixed_at_once::<u32>(values, row, ahead, size, format),
            Numbers::U64(values) => put_fixed_at_once::<u64>(values, row, ahead, size, format),
            Numbers::I8(values) => put_fixed_at_once::<i8>(values, row, ahead, size, format),
            Numbers::I16(values) => put_fixed_at_once::<i16>(values, row, ahead, size, format),
            Numbers::I32(values) => put_fixed_at_once::<i32>(values, row, ahead, size, format),
            Numbers::I64(values) => put_fixed_at_once::<i64>(values, row, ahead, size, format),
        }
    }

    // Puts the fixed-point number of a text into a row's place, or returns the text's fault.
    pub(crate) fn put_fixed(
        &mut self,
        row: usize,
        start: usize,
        text: &[u8],
        format: &FixedFormat,
    ) -> Option<Error>
        requires valid { IsNone (fixed_fault format.now) }
        requires room { row < length (numbers_in self.old) }
        requires fits { start + length text.now < 2 ^ 64 }
        ensures fault { result ≡ error_in (fixed_answer format.now (type_of self.old)
            (record { start = start; text = text.now })) }
        ensures same_type { type_of self.new ≡ type_of self.old }
        ensures same_slice { slice_in self.new ≡ slice_in self.old }
        ensures numbers { numbers_in self.new ≡ with_number row
            (fixed_answer format.now (type_of self.old)
            (record { start = start; text = text.now })) (numbers_in self.old) }
    {
        match self {
            Numbers::U8(values) => put_fixed::<u8>(values, row, start, text, format),
            Numbers::U16(values) => put_fixed::<u16>(values, row, start, text, format),
            Numbers::U32(values) => put_fixed::<u32>(values, row, start, text, format),
            Numbers::U64(values) => put_fixed::<u64>(values, row, start, text, format),
            Numbers::I8(values) => put_fixed::<i8>(values, row, start, text, format),
            Numbers::I16(values) => put_fixed::<i16>(values, row, start, text, format),
            Numbers::I32(values) => put_fixed::<i32>(values, row, start, text, format),
            Numbers::I64(values) => put_fixed::<i64>(values, row, start, text, format),
        }
    }
}
