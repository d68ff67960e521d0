//! The calls for fixed-point numbers, as C makes them: of each type two.

ghost use Rattle.std.specs.Prelude.{◌≡◌, pos};
ghost use Rattle.jadvolni.specs.Effect.{effect, signed, unsigned};
ghost use Rattle.jadvolni.specs.Fixed.{fixed_call, fixed_front_call};
ghost use Rattle.jadvolni.specs.Halves.{signed_number, unsigned_number};

use crate::fixed::FixedFields;
use crate::fixed_texts::{fixed, fixed_front};
use crate::halves::{Signed128, Unsigned128};
use crate::outcome::Outcome;

/// The whole text as a `u8`, in units of the last place.
#[unsafe(no_mangle)]
pub extern "C" fn jadvolni_parse_u8_fixed(
    text: &[u8],
    format: &FixedFields,
    value: &mut u8,
) -> Outcome
    ensures { effect result (pos value.new)
        ≡ fixed_call format.now (unsigned 8) text.now (pos value.old) }
{
    fixed::<u8, u8>(text, format, value)
}

/// The text's front as a `u8`, in units of the last place.
#[unsafe(no_mangle)]
pub extern "C" fn jadvolni_parse_u8_fixed_front(
    text: &[u8],
    format: &FixedFields,
    value: &mut u8,
) -> Outcome
    ensures { effect result (pos value.new)
        ≡ fixed_front_call format.now (unsigned 8) text.now (pos value.old) }
{
    fixed_front::<u8, u8>(text, format, value)
}

/// The whole text as a `u16`, in units of the last place.
#[unsafe(no_mangle)]
pub extern "C" fn jadvolni_parse_u16_fixed(
    text: &[u8],
    format: &FixedFields,
    value: &mut u16,
) -> Outcome
    ensures { effect result (pos value.new)
        ≡ fixed_call format.now (unsigned 16) text.now (pos value.old) }
{
    fixed::<u16, u16>(text, format, value)
}

/// The text's front as a `u16`, in units of the last place.
#[unsafe(no_mangle)]
pub extern "C" fn jadvolni_parse_u16_fixed_front(
    text: &[u8],
    format: &FixedFields,
    value: &mut u16,
) -> Outcome
    ensures { effect result (pos value.new)
        ≡ fixed_front_call format.now (unsigned 16) text.now (pos value.old) }
{
    fixed_front::<u16, u16>(text, format, value)
}

/// The whole text as a `u32`, in units of the last place.
#[unsafe(no_mangle)]
pub extern "C" fn jadvolni_parse_u32_fixed(
    text: &[u8],
    format: &FixedFields,
    value: &mut u32,
) -> Outcome
    ensures { effect result (pos value.new)
        ≡ fixed_call format.now (unsigned 32) text.now (pos value.old) }
{
    fixed::<u32, u32>(text, format, value)
}

/// The text's front as a `u32`, in units of the last place.
#[unsafe(no_mangle)]
pub extern "C" fn jadvolni_parse_u32_fixed_front(
    text: &[u8],
    format: &FixedFields,
    value: &mut u32,
) -> Outcome
    ensures { effect result (pos value.new)
        ≡ fixed_front_call format.now (unsigned 32) text.now (pos value.old) }
{
    fixed_front::<u32, u32>(text, format, value)
}

/// The whole text as a `u64`, in units of the last place.
#[unsafe(no_mangle)]
pub extern "C" fn jadvolni_parse_u64_fixed(
    text: &[u8],
    format: &FixedFields,
    value: &mut u64,
) -> Outcome
    ensures { effect result (pos value.new)
        ≡ fixed_call format.now (unsigned 64) text.now (pos value.old) }
{
    fixed::<u64, u64>(text, format, value)
}

/// The text's front as a `u64`, in units of the last place.
#[unsafe(no_mangle)]
pub extern "C" fn jadvolni_parse_u64_fixed_front(
    text: &[u8],
    format: &FixedFields,
    value: &mut u64,
) -> Outcome
    ensures { effect result (pos value.new)
        ≡ fixed_front_call format.now (unsigned 64) text.now (pos value.old) }
{
    fixed_front::<u64, u64>(text, format, value)
}

/// The whole text as a `u128`, in units of the last place.
#[unsafe(no_mangle)]
pub extern "C" fn jadvolni_parse_u128_fixed(
    text: &[u8],
    format: &FixedFields,
    value: &mut Unsigned128,
) -> Outcome
    ensures { effect result (unsigned_number value.new)
        ≡ fixed_call format.now (unsigned 128) text.now (unsigned_number value.old) }
{
    fixed::<u128, Unsigned128>(text, format, value)
}

/// The text's front as a `u128`, in units of the last place.
#[unsafe(no_mangle)]
pub extern "C" fn jadvolni_parse_u128_fixed_front(
    text: &[u8],
    format: &FixedFields,
    value: &mut Unsigned128,
) -> Outcome
    ensures { effect result (unsigned_number value.new)
        ≡ fixed_front_call format.now (unsigned 128) text.now (unsigned_number value.old) }
{
    fixed_front::<u128, Unsigned128>(text, format, value)
}

/// The whole text as a `usize`, in units of the last place.
#[unsafe(no_mangle)]
pub extern "C" fn jadvolni_parse_usize_fixed(
    text: &[u8],
    format: &FixedFields,
    value: &mut usize,
) -> Outcome
    ensures { effect result (pos value.new)
        ≡ fixed_call format.now (unsigned 64) text.now (pos value.old) }
{
    fixed::<usize, usize>(text, format, value)
}

/// The text's front as a `usize`, in units of the last place.
#[unsafe(no_mangle)]
pub extern "C" fn jadvolni_parse_usize_fixed_front(
    text: &[u8],
    format: &FixedFields,
    value: &mut usize,
) -> Outcome
    ensures { effect result (pos value.new)
        ≡ fixed_front_call format.now (unsigned 64) text.now (pos value.old) }
{
    fixed_front::<usize, usize>(text, format, value)
}

/// The whole text as an `i8`, in units of the last place.
#[unsafe(no_mangle)]
pub extern "C" fn jadvolni_parse_i8_fixed(
    text: &[u8],
    format: &FixedFields,
    value: &mut i8,
) -> Outcome
    ensures { effect result value.new
        ≡ fixed_call format.now (signed 8) text.now value.old }
{
    fixed::<i8, i8>(text, format, value)
}

/// The text's front as an `i8`, in units of the last place.
#[unsafe(no_mangle)]
pub extern "C" fn jadvolni_parse_i8_fixed_front(
    text: &[u8],
    format: &FixedFields,
    value: &mut i8,
) -> Outcome
    ensures { effect result value.new
        ≡ fixed_front_call format.now (signed 8) text.now value.old }
{
    fixed_front::<i8, i8>(text, format, value)
}

/// The whole text as an `i16`, in units of the last place.
#[unsafe(no_mangle)]
pub extern "C" fn jadvolni_parse_i16_fixed(
    text: &[u8],
    format: &FixedFields,
    value: &mut i16,
) -> Outcome
    ensures { effect result value.new
        ≡ fixed_call format.now (signed 16) text.now value.old }
{
    fixed::<i16, i16>(text, format, value)
}

/// The text's front as an `i16`, in units of the last place.
#[unsafe(no_mangle)]
pub extern "C" fn jadvolni_parse_i16_fixed_front(
    text: &[u8],
    format: &FixedFields,
    value: &mut i16,
) -> Outcome
    ensures { effect result value.new
        ≡ fixed_front_call format.now (signed 16) text.now value.old }
{
    fixed_front::<i16, i16>(text, format, value)
}

/// The whole text as an `i32`, in units of the last place.
#[unsafe(no_mangle)]
pub extern "C" fn jadvolni_parse_i32_fixed(
    text: &[u8],
    format: &FixedFields,
    value: &mut i32,
) -> Outcome
    ensures { effect result value.new
        ≡ fixed_call format.now (signed 32) text.now value.old }
{
    fixed::<i32, i32>(text, format, value)
}

/// The text's front as an `i32`, in units of the last place.
#[unsafe(no_mangle)]
pub extern "C" fn jadvolni_parse_i32_fixed_front(
    text: &[u8],
    format: &FixedFields,
    value: &mut i32,
) -> Outcome
    ensures { effect result value.new
        ≡ fixed_front_call format.now (signed 32) text.now value.old }
{
    fixed_front::<i32, i32>(text, format, value)
}

/// The whole text as an `i64`, in units of the last place.
#[unsafe(no_mangle)]
pub extern "C" fn jadvolni_parse_i64_fixed(
    text: &[u8],
    format: &FixedFields,
    value: &mut i64,
) -> Outcome
    ensures { effect result value.new
        ≡ fixed_call format.now (signed 64) text.now value.old }
{
    fixed::<i64, i64>(text, format, value)
}

/// The text's front as an `i64`, in units of the last place.
#[unsafe(no_mangle)]
pub extern "C" fn jadvolni_parse_i64_fixed_front(
    text: &[u8],
    format: &FixedFields,
    value: &mut i64,
) -> Outcome
    ensures { effect result value.new
        ≡ fixed_front_call format.now (signed 64) text.now value.old }
{
    fixed_front::<i64, i64>(text, format, value)
}

/// The whole text as an `i128`, in units of the last place.
#[unsafe(no_mangle)]
pub extern "C" fn jadvolni_parse_i128_fixed(
    text: &[u8],
    format: &FixedFields,
    value: &mut Signed128,
) -> Outcome
    ensures { effect result (signed_number value.new)
        ≡ fixed_call format.now (signed 128) text.now (signed_number value.old) }
{
    fixed::<i128, Signed128>(text, format, value)
}

/// The text's front as an `i128`, in units of the last place.
#[unsafe(no_mangle)]
pub extern "C" fn jadvolni_parse_i128_fixed_front(
    text: &[u8],
    format: &FixedFields,
    value: &mut Signed128,
) -> Outcome
    ensures { effect result (signed_number value.new)
        ≡ fixed_front_call format.now (signed 128) text.now (signed_number value.old) }
{
    fixed_front::<i128, Signed128>(text, format, value)
}

/// The whole text as an `isize`, in units of the last place.
#[unsafe(no_mangle)]
pub extern "C" fn jadvolni_parse_isize_fixed(
    text: &[u8],
    format: &FixedFields,
    value: &mut isize,
) -> Outcome
    ensures { effect result value.new
        ≡ fixed_call format.now (signed 64) text.now value.old }
{
    fixed::<isize, isize>(text, format, value)
}

/// The text's front as an `isize`, in units of the last place.
#[unsafe(no_mangle)]
pub extern "C" fn jadvolni_parse_isize_fixed_front(
    text: &[u8],
    format: &FixedFields,
    value: &mut isize,
) -> Outcome
    ensures { effect result value.new
        ≡ fixed_front_call format.now (signed 64) text.now value.old }
{
    fixed_front::<isize, isize>(text, format, value)
}
