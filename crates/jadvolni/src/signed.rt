//! The calls for the signed types, as C makes them.

ghost use Rattle.std.specs.Prelude.{◌≡◌};
ghost use Rattle.jadvolni.specs.Effect.{complete_call, complete_call_under, effect};
ghost use Rattle.jadvolni.specs.Effect.{partial_call, partial_call_under, signed};
ghost use Rattle.jadvolni.specs.Halves.{signed_number};

use crate::calls::{complete, complete_under, partial, partial_under};
use crate::format::FormatFields;
use crate::halves::Signed128;
use crate::outcome::Outcome;

/// The whole text as an `i8`, under the standard format.
#[unsafe(no_mangle)]
pub extern "C" fn jadvolni_parse_i8(text: &[u8], value: &mut i8) -> Outcome
    ensures { effect result value.new ≡ complete_call (signed 8) text.now value.old }
{
    complete::<i8, i8>(text, value)
}

/// The text's front as an `i8`, under the standard format.
#[unsafe(no_mangle)]
pub extern "C" fn jadvolni_parse_i8_partial(text: &[u8], value: &mut i8) -> Outcome
    ensures { effect result value.new ≡ partial_call (signed 8) text.now value.old }
{
    partial::<i8, i8>(text, value)
}

/// The whole text as an `i8`, under a format.
#[unsafe(no_mangle)]
pub extern "C" fn jadvolni_parse_i8_with_format(
    text: &[u8],
    format: &FormatFields,
    value: &mut i8,
) -> Outcome
    ensures { effect result value.new
        ≡ complete_call_under format.now (signed 8) text.now value.old }
{
    complete_under::<i8, i8>(text, format, value)
}

/// The text's front as an `i8`, under a format.
#[unsafe(no_mangle)]
pub extern "C" fn jadvolni_parse_i8_partial_with_format(
    text: &[u8],
    format: &FormatFields,
    value: &mut i8,
) -> Outcome
    ensures { effect result value.new
        ≡ partial_call_under format.now (signed 8) text.now value.old }
{
    partial_under::<i8, i8>(text, format, value)
}

/// The whole text as an `i16`, under the standard format.
#[unsafe(no_mangle)]
pub extern "C" fn jadvolni_parse_i16(text: &[u8], value: &mut i16) -> Outcome
    ensures { effect result value.new ≡ complete_call (signed 16) text.now value.old }
{
    complete::<i16, i16>(text, value)
}

/// The text's front as an `i16`, under the standard format.
#[unsafe(no_mangle)]
pub extern "C" fn jadvolni_parse_i16_partial(text: &[u8], value: &mut i16) -> Outcome
    ensures { effect result value.new ≡ partial_call (signed 16) text.now value.old }
{
    partial::<i16, i16>(text, value)
}

/// The whole text as an `i16`, under a format.
#[unsafe(no_mangle)]
pub extern "C" fn jadvolni_parse_i16_with_format(
    text: &[u8],
    format: &FormatFields,
    value: &mut i16,
) -> Outcome
    ensures { effect result value.new
        ≡ complete_call_under format.now (signed 16) text.now value.old }
{
    complete_under::<i16, i16>(text, format, value)
}

/// The text's front as an `i16`, under a format.
#[unsafe(no_mangle)]
pub extern "C" fn jadvolni_parse_i16_partial_with_format(
    text: &[u8],
    format: &FormatFields,
    value: &mut i16,
) -> Outcome
    ensures { effect result value.new
        ≡ partial_call_under format.now (signed 16) text.now value.old }
{
    partial_under::<i16, i16>(text, format, value)
}

/// The whole text as an `i32`, under the standard format.
#[unsafe(no_mangle)]
pub extern "C" fn jadvolni_parse_i32(text: &[u8], value: &mut i32) -> Outcome
    ensures { effect result value.new ≡ complete_call (signed 32) text.now value.old }
{
    complete::<i32, i32>(text, value)
}

/// The text's front as an `i32`, under the standard format.
#[unsafe(no_mangle)]
pub extern "C" fn jadvolni_parse_i32_partial(text: &[u8], value: &mut i32) -> Outcome
    ensures { effect result value.new ≡ partial_call (signed 32) text.now value.old }
{
    partial::<i32, i32>(text, value)
}

/// The whole text as an `i32`, under a format.
#[unsafe(no_mangle)]
pub extern "C" fn jadvolni_parse_i32_with_format(
    text: &[u8],
    format: &FormatFields,
    value: &mut i32,
) -> Outcome
    ensures { effect result value.new
        ≡ complete_call_under format.now (signed 32) text.now value.old }
{
    complete_under::<i32, i32>(text, format, value)
}

/// The text's front as an `i32`, under a format.
#[unsafe(no_mangle)]
pub extern "C" fn jadvolni_parse_i32_partial_with_format(
    text: &[u8],
    format: &FormatFields,
    value: &mut i32,
) -> Outcome
    ensures { effect result value.new
        ≡ partial_call_under format.now (signed 32) text.now value.old }
{
    partial_under::<i32, i32>(text, format, value)
}

/// The whole text as an `i64`, under the standard format.
#[unsafe(no_mangle)]
pub extern "C" fn jadvolni_parse_i64(text: &[u8], value: &mut i64) -> Outcome
    ensures { effect result value.new ≡ complete_call (signed 64) text.now value.old }
{
    complete::<i64, i64>(text, value)
}

/// The text's front as an `i64`, under the standard format.
#[unsafe(no_mangle)]
pub extern "C" fn jadvolni_parse_i64_partial(text: &[u8], value: &mut i64) -> Outcome
    ensures { effect result value.new ≡ partial_call (signed 64) text.now value.old }
{
    partial::<i64, i64>(text, value)
}

/// The whole text as an `i64`, under a format.
#[unsafe(no_mangle)]
pub extern "C" fn jadvolni_parse_i64_with_format(
    text: &[u8],
    format: &FormatFields,
    value: &mut i64,
) -> Outcome
    ensures { effect result value.new
        ≡ complete_call_under format.now (signed 64) text.now value.old }
{
    complete_under::<i64, i64>(text, format, value)
}

/// The text's front as an `i64`, under a format.
#[unsafe(no_mangle)]
pub extern "C" fn jadvolni_parse_i64_partial_with_format(
    text: &[u8],
    format: &FormatFields,
    value: &mut i64,
) -> Outcome
    ensures { effect result value.new
        ≡ partial_call_under format.now (signed 64) text.now value.old }
{
    partial_under::<i64, i64>(text, format, value)
}

/// The whole text as an `i128`, under the standard format.
#[unsafe(no_mangle)]
pub extern "C" fn jadvolni_parse_i128(text: &[u8], value: &mut Signed128) -> Outcome
    ensures { effect result (signed_number value.new)
        ≡ complete_call (signed 128) text.now (signed_number value.old) }
{
    complete::<i128, Signed128>(text, value)
}

/// The text's front as an `i128`, under the standard format.
#[unsafe(no_mangle)]
pub extern "C" fn jadvolni_parse_i128_partial(text: &[u8], value: &mut Signed128) -> Outcome
    ensures { effect result (signed_number value.new)
        ≡ partial_call (signed 128) text.now (signed_number value.old) }
{
    partial::<i128, Signed128>(text, value)
}

/// The whole text as an `i128`, under a format.
#[unsafe(no_mangle)]
pub extern "C" fn jadvolni_parse_i128_with_format(
    text: &[u8],
    format: &FormatFields,
    value: &mut Signed128,
) -> Outcome
    ensures { effect result (signed_number value.new)
        ≡ complete_call_under format.now (signed 128) text.now (signed_number value.old) }
{
    complete_under::<i128, Signed128>(text, format, value)
}

/// The text's front as an `i128`, under a format.
#[unsafe(no_mangle)]
pub extern "C" fn jadvolni_parse_i128_partial_with_format(
    text: &[u8],
    format: &FormatFields,
    value: &mut Signed128,
) -> Outcome
    ensures { effect result (signed_number value.new)
        ≡ partial_call_under format.now (signed 128) text.now (signed_number value.old) }
{
    partial_under::<i128, Signed128>(text, format, value)
}

/// The whole text as an `isize`, under the standard format.
#[unsafe(no_mangle)]
pub extern "C" fn jadvolni_parse_isize(text: &[u8], value: &mut isize) -> Outcome
    ensures { effect result value.new ≡ complete_call (signed 64) text.now value.old }
{
    complete::<isize, isize>(text, value)
}

/// The text's front as an `isize`, under the standard format.
#[unsafe(no_mangle)]
pub extern "C" fn jadvolni_parse_isize_partial(text: &[u8], value: &mut isize) -> Outcome
    ensures { effect result value.new ≡ partial_call (signed 64) text.now value.old }
{
    partial::<isize, isize>(text, value)
}

/// The whole text as an `isize`, under a format.
#[unsafe(no_mangle)]
pub extern "C" fn jadvolni_parse_isize_with_format(
    text: &[u8],
    format: &FormatFields,
    value: &mut isize,
) -> Outcome
    ensures { effect result value.new
        ≡ complete_call_under format.now (signed 64) text.now value.old }
{
    complete_under::<isize, isize>(text, format, value)
}

/// The text's front as an `isize`, under a format.
#[unsafe(no_mangle)]
pub extern "C" fn jadvolni_parse_isize_partial_with_format(
    text: &[u8],
    format: &FormatFields,
    value: &mut isize,
) -> Outcome
    ensures { effect result value.new
        ≡ partial_call_under format.now (signed 64) text.now value.old }
{
    partial_under::<isize, isize>(text, format, value)
}
