//! The calls for the number in front of a text, as C makes them.

ghost use Rattle.std.specs.Prelude.{◌≡◌, pos};
ghost use Rattle.jadvolni.specs.Effect.{effect, front_call, front_call_under, signed, unsigned};
ghost use Rattle.jadvolni.specs.Halves.{signed_number, unsigned_number};

use crate::calls::{front, front_under};
use crate::format::FormatFields;
use crate::halves::{Signed128, Unsigned128};
use crate::outcome::Outcome;

/// The number in front of a text as a `u8`, under the standard format.
#[unsafe(no_mangle)]
pub extern "C" fn jadvolni_parse_u8_front(text: &[u8], value: &mut u8) -> Outcome
    ensures { effect result (pos value.new) ≡ front_call (unsigned 8) text.now (pos value.old) }
{
    front::<u8, u8>(text, value)
}

/// The number in front of a text as a `u8`, under a format.
#[unsafe(no_mangle)]
pub extern "C" fn jadvolni_parse_u8_front_with_format(
    text: &[u8],
    format: &FormatFields,
    value: &mut u8,
) -> Outcome
    ensures { effect result (pos value.new)
        ≡ front_call_under format.now (unsigned 8) text.now (pos value.old) }
{
    front_under::<u8, u8>(text, format, value)
}

/// The number in front of a text as a `u16`, under the standard format.
#[unsafe(no_mangle)]
pub extern "C" fn jadvolni_parse_u16_front(text: &[u8], value: &mut u16) -> Outcome
    ensures { effect result (pos value.new) ≡ front_call (unsigned 16) text.now (pos value.old) }
{
    front::<u16, u16>(text, value)
}

/// The number in front of a text as a `u16`, under a format.
#[unsafe(no_mangle)]
pub extern "C" fn jadvolni_parse_u16_front_with_format(
    text: &[u8],
    format: &FormatFields,
    value: &mut u16,
) -> Outcome
    ensures { effect result (pos value.new)
        ≡ front_call_under format.now (unsigned 16) text.now (pos value.old) }
{
    front_under::<u16, u16>(text, format, value)
}

/// The number in front of a text as a `u32`, under the standard format.
#[unsafe(no_mangle)]
pub extern "C" fn jadvolni_parse_u32_front(text: &[u8], value: &mut u32) -> Outcome
    ensures { effect result (pos value.new) ≡ front_call (unsigned 32) text.now (pos value.old) }
{
    front::<u32, u32>(text, value)
}

/// The number in front of a text as a `u32`, under a format.
#[unsafe(no_mangle)]
pub extern "C" fn jadvolni_parse_u32_front_with_format(
    text: &[u8],
    format: &FormatFields,
    value: &mut u32,
) -> Outcome
    ensures { effect result (pos value.new)
        ≡ front_call_under format.now (unsigned 32) text.now (pos value.old) }
{
    front_under::<u32, u32>(text, format, value)
}

/// The number in front of a text as a `u64`, under the standard format.
#[unsafe(no_mangle)]
pub extern "C" fn jadvolni_parse_u64_front(text: &[u8], value: &mut u64) -> Outcome
    ensures { effect result (pos value.new) ≡ front_call (unsigned 64) text.now (pos value.old) }
{
    front::<u64, u64>(text, value)
}

/// The number in front of a text as a `u64`, under a format.
#[unsafe(no_mangle)]
pub extern "C" fn jadvolni_parse_u64_front_with_format(
    text: &[u8],
    format: &FormatFields,
    value: &mut u64,
) -> Outcome
    ensures { effect result (pos value.new)
        ≡ front_call_under format.now (unsigned 64) text.now (pos value.old) }
{
    front_under::<u64, u64>(text, format, value)
}

/// The number in front of a text as a `u128`, under the standard format.
#[unsafe(no_mangle)]
pub extern "C" fn jadvolni_parse_u128_front(text: &[u8], value: &mut Unsigned128) -> Outcome
    ensures { effect result (unsigned_number value.new)
        ≡ front_call (unsigned 128) text.now (unsigned_number value.old) }
{
    front::<u128, Unsigned128>(text, value)
}

/// The number in front of a text as a `u128`, under a format.
#[unsafe(no_mangle)]
pub extern "C" fn jadvolni_parse_u128_front_with_format(
    text: &[u8],
    format: &FormatFields,
    value: &mut Unsigned128,
) -> Outcome
    ensures { effect result (unsigned_number value.new)
        ≡ front_call_under format.now (unsigned 128) text.now (unsigned_number value.old) }
{
    front_under::<u128, Unsigned128>(text, format, value)
}

/// The number in front of a text as a `usize`, under the standard format.
#[unsafe(no_mangle)]
pub extern "C" fn jadvolni_parse_usize_front(text: &[u8], value: &mut usize) -> Outcome
    ensures { effect result (pos value.new) ≡ front_call (unsigned 64) text.now (pos value.old) }
{
    front::<usize, usize>(text, value)
}

/// The number in front of a text as a `usize`, under a format.
#[unsafe(no_mangle)]
pub extern "C" fn jadvolni_parse_usize_front_with_format(
    text: &[u8],
    format: &FormatFields,
    value: &mut usize,
) -> Outcome
    ensures { effect result (pos value.new)
        ≡ front_call_under format.now (unsigned 64) text.now (pos value.old) }
{
    front_under::<usize, usize>(text, format, value)
}

/// The number in front of a text as an `i8`, under the standard format.
#[unsafe(no_mangle)]
pub extern "C" fn jadvolni_parse_i8_front(text: &[u8], value: &mut i8) -> Outcome
    ensures { effect result value.new ≡ front_call (signed 8) text.now value.old }
{
    front::<i8, i8>(text, value)
}

/// The number in front of a text as an `i8`, under a format.
#[unsafe(no_mangle)]
pub extern "C" fn jadvolni_parse_i8_front_with_format(
    text: &[u8],
    format: &FormatFields,
    value: &mut i8,
) -> Outcome
    ensures { effect result value.new ≡ front_call_under format.now (signed 8) text.now value.old }
{
    front_under::<i8, i8>(text, format, value)
}

/// The number in front of a text as an `i16`, under the standard format.
#[unsafe(no_mangle)]
pub extern "C" fn jadvolni_parse_i16_front(text: &[u8], value: &mut i16) -> Outcome
    ensures { effect result value.new ≡ front_call (signed 16) text.now value.old }
{
    front::<i16, i16>(text, value)
}

/// The number in front of a text as an `i16`, under a format.
#[unsafe(no_mangle)]
pub extern "C" fn jadvolni_parse_i16_front_with_format(
    text: &[u8],
    format: &FormatFields,
    value: &mut i16,
) -> Outcome
    ensures { effect result value.new ≡ front_call_under format.now (signed 16) text.now value.old }
{
    front_under::<i16, i16>(text, format, value)
}

/// The number in front of a text as an `i32`, under the standard format.
#[unsafe(no_mangle)]
pub extern "C" fn jadvolni_parse_i32_front(text: &[u8], value: &mut i32) -> Outcome
    ensures { effect result value.new ≡ front_call (signed 32) text.now value.old }
{
    front::<i32, i32>(text, value)
}

/// The number in front of a text as an `i32`, under a format.
#[unsafe(no_mangle)]
pub extern "C" fn jadvolni_parse_i32_front_with_format(
    text: &[u8],
    format: &FormatFields,
    value: &mut i32,
) -> Outcome
    ensures { effect result value.new ≡ front_call_under format.now (signed 32) text.now value.old }
{
    front_under::<i32, i32>(text, format, value)
}

/// The number in front of a text as an `i64`, under the standard format.
#[unsafe(no_mangle)]
pub extern "C" fn jadvolni_parse_i64_front(text: &[u8], value: &mut i64) -> Outcome
    ensures { effect result value.new ≡ front_call (signed 64) text.now value.old }
{
    front::<i64, i64>(text, value)
}

/// The number in front of a text as an `i64`, under a format.
#[unsafe(no_mangle)]
pub extern "C" fn jadvolni_parse_i64_front_with_format(
    text: &[u8],
    format: &FormatFields,
    value: &mut i64,
) -> Outcome
    ensures { effect result value.new ≡ front_call_under format.now (signed 64) text.now value.old }
{
    front_under::<i64, i64>(text, format, value)
}

/// The number in front of a text as an `i128`, under the standard format.
#[unsafe(no_mangle)]
pub extern "C" fn jadvolni_parse_i128_front(text: &[u8], value: &mut Signed128) -> Outcome
    ensures { effect result (signed_number value.new)
        ≡ front_call (signed 128) text.now (signed_number value.old) }
{
    front::<i128, Signed128>(text, value)
}

/// The number in front of a text as an `i128`, under a format.
#[unsafe(no_mangle)]
pub extern "C" fn jadvolni_parse_i128_front_with_format(
    text: &[u8],
    format: &FormatFields,
    value: &mut Signed128,
) -> Outcome
    ensures { effect result (signed_number value.new)
        ≡ front_call_under format.now (signed 128) text.now (signed_number value.old) }
{
    front_under::<i128, Signed128>(text, format, value)
}

/// The number in front of a text as an `isize`, under the standard format.
#[unsafe(no_mangle)]
pub extern "C" fn jadvolni_parse_isize_front(text: &[u8], value: &mut isize) -> Outcome
    ensures { effect result value.new ≡ front_call (signed 64) text.now value.old }
{
    front::<isize, isize>(text, value)
}

/// The number in front of a text as an `isize`, under a format.
#[unsafe(no_mangle)]
pub extern "C" fn jadvolni_parse_isize_front_with_format(
    text: &[u8],
    format: &FormatFields,
    value: &mut isize,
) -> Outcome
    ensures { effect result value.new ≡ front_call_under format.now (signed 64) text.now value.old }
{
    front_under::<isize, isize>(text, format, value)
}
