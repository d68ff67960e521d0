//! The calls for the unsigned types, as C makes them.

ghost use Rattle.std.specs.Prelude.{◌≡◌, pos};
ghost use Rattle.jadvolni.specs.Effect.{complete_call, complete_call_under, effect};
ghost use Rattle.jadvolni.specs.Effect.{partial_call, partial_call_under, unsigned};
ghost use Rattle.jadvolni.specs.Halves.{unsigned_number};

use crate::calls::{complete, complete_under, partial, partial_under};
use crate::format::FormatFields;
use crate::halves::Unsigned128;
use crate::outcome::Outcome;

/// The whole text as a `u8`, under the standard format.
#[unsafe(no_mangle)]
pub extern "C" fn jadvolni_parse_u8(text: &[u8], value: &mut u8) -> Outcome
    ensures { effect result (pos value.new) ≡ complete_call (unsigned 8) text.now (pos value.old) }
{
    complete::<u8, u8>(text, value)
}

/// The text's front as a `u8`, under the standard format.
#[unsafe(no_mangle)]
pub extern "C" fn jadvolni_parse_u8_partial(text: &[u8], value: &mut u8) -> Outcome
    ensures { effect result (pos value.new) ≡ partial_call (unsigned 8) text.now (pos value.old) }
{
    partial::<u8, u8>(text, value)
}

/// The whole text as a `u8`, under a format.
#[unsafe(no_mangle)]
pub extern "C" fn jadvolni_parse_u8_with_format(
    text: &[u8],
    format: &FormatFields,
    value: &mut u8,
) -> Outcome
    ensures { effect result (pos value.new)
        ≡ complete_call_under format.now (unsigned 8) text.now (pos value.old) }
{
    complete_under::<u8, u8>(text, format, value)
}

/// The text's front as a `u8`, under a format.
#[unsafe(no_mangle)]
pub extern "C" fn jadvolni_parse_u8_partial_with_format(
    text: &[u8],
    format: &FormatFields,
    value: &mut u8,
) -> Outcome
    ensures { effect result (pos value.new)
        ≡ partial_call_under format.now (unsigned 8) text.now (pos value.old) }
{
    partial_under::<u8, u8>(text, format, value)
}

/// The whole text as a `u16`, under the standard format.
#[unsafe(no_mangle)]
pub extern "C" fn jadvolni_parse_u16(text: &[u8], value: &mut u16) -> Outcome
    ensures { effect result (pos value.new) ≡ complete_call (unsigned 16) text.now (pos value.old) }
{
    complete::<u16, u16>(text, value)
}

/// The text's front as a `u16`, under the standard format.
#[unsafe(no_mangle)]
pub extern "C" fn jadvolni_parse_u16_partial(text: &[u8], value: &mut u16) -> Outcome
    ensures { effect result (pos value.new) ≡ partial_call (unsigned 16) text.now (pos value.old) }
{
    partial::<u16, u16>(text, value)
}

/// The whole text as a `u16`, under a format.
#[unsafe(no_mangle)]
pub extern "C" fn jadvolni_parse_u16_with_format(
    text: &[u8],
    format: &FormatFields,
    value: &mut u16,
) -> Outcome
    ensures { effect result (pos value.new)
        ≡ complete_call_under format.now (unsigned 16) text.now (pos value.old) }
{
    complete_under::<u16, u16>(text, format, value)
}

/// The text's front as a `u16`, under a format.
#[unsafe(no_mangle)]
pub extern "C" fn jadvolni_parse_u16_partial_with_format(
    text: &[u8],
    format: &FormatFields,
    value: &mut u16,
) -> Outcome
    ensures { effect result (pos value.new)
        ≡ partial_call_under format.now (unsigned 16) text.now (pos value.old) }
{
    partial_under::<u16, u16>(text, format, value)
}

/// The whole text as a `u32`, under the standard format.
#[unsafe(no_mangle)]
pub extern "C" fn jadvolni_parse_u32(text: &[u8], value: &mut u32) -> Outcome
    ensures { effect result (pos value.new) ≡ complete_call (unsigned 32) text.now (pos value.old) }
{
    complete::<u32, u32>(text, value)
}

/// The text's front as a `u32`, under the standard format.
#[unsafe(no_mangle)]
pub extern "C" fn jadvolni_parse_u32_partial(text: &[u8], value: &mut u32) -> Outcome
    ensures { effect result (pos value.new) ≡ partial_call (unsigned 32) text.now (pos value.old) }
{
    partial::<u32, u32>(text, value)
}

/// The whole text as a `u32`, under a format.
#[unsafe(no_mangle)]
pub extern "C" fn jadvolni_parse_u32_with_format(
    text: &[u8],
    format: &FormatFields,
    value: &mut u32,
) -> Outcome
    ensures { effect result (pos value.new)
        ≡ complete_call_under format.now (unsigned 32) text.now (pos value.old) }
{
    complete_under::<u32, u32>(text, format, value)
}

/// The text's front as a `u32`, under a format.
#[unsafe(no_mangle)]
pub extern "C" fn jadvolni_parse_u32_partial_with_format(
    text: &[u8],
    format: &FormatFields,
    value: &mut u32,
) -> Outcome
    ensures { effect result (pos value.new)
        ≡ partial_call_under format.now (unsigned 32) text.now (pos value.old) }
{
    partial_under::<u32, u32>(text, format, value)
}

/// The whole text as a `u64`, under the standard format.
#[unsafe(no_mangle)]
pub extern "C" fn jadvolni_parse_u64(text: &[u8], value: &mut u64) -> Outcome
    ensures { effect result (pos value.new) ≡ complete_call (unsigned 64) text.now (pos value.old) }
{
    complete::<u64, u64>(text, value)
}

/// The text's front as a `u64`, under the standard format.
#[unsafe(no_mangle)]
pub extern "C" fn jadvolni_parse_u64_partial(text: &[u8], value: &mut u64) -> Outcome
    ensures { effect result (pos value.new) ≡ partial_call (unsigned 64) text.now (pos value.old) }
{
    partial::<u64, u64>(text, value)
}

/// The whole text as a `u64`, under a format.
#[unsafe(no_mangle)]
pub extern "C" fn jadvolni_parse_u64_with_format(
    text: &[u8],
    format: &FormatFields,
    value: &mut u64,
) -> Outcome
    ensures { effect result (pos value.new)
        ≡ complete_call_under format.now (unsigned 64) text.now (pos value.old) }
{
    complete_under::<u64, u64>(text, format, value)
}

/// The text's front as a `u64`, under a format.
#[unsafe(no_mangle)]
pub extern "C" fn jadvolni_parse_u64_partial_with_format(
    text: &[u8],
    format: &FormatFields,
    value: &mut u64,
) -> Outcome
    ensures { effect result (pos value.new)
        ≡ partial_call_under format.now (unsigned 64) text.now (pos value.old) }
{
    partial_under::<u64, u64>(text, format, value)
}

/// The whole text as a `u128`, under the standard format.
#[unsafe(no_mangle)]
pub extern "C" fn jadvolni_parse_u128(text: &[u8], value: &mut Unsigned128) -> Outcome
    ensures { effect result (unsigned_number value.new)
        ≡ complete_call (unsigned 128) text.now (unsigned_number value.old) }
{
    complete::<u128, Unsigned128>(text, value)
}

/// The text's front as a `u128`, under the standard format.
#[unsafe(no_mangle)]
pub extern "C" fn jadvolni_parse_u128_partial(text: &[u8], value: &mut Unsigned128) -> Outcome
    ensures { effect result (unsigned_number value.new)
        ≡ partial_call (unsigned 128) text.now (unsigned_number value.old) }
{
    partial::<u128, Unsigned128>(text, value)
}

/// The whole text as a `u128`, under a format.
#[unsafe(no_mangle)]
pub extern "C" fn jadvolni_parse_u128_with_format(
    text: &[u8],
    format: &FormatFields,
    value: &mut Unsigned128,
) -> Outcome
    ensures { effect result (unsigned_number value.new)
        ≡ complete_call_under format.now (unsigned 128) text.now (unsigned_number value.old) }
{
    complete_under::<u128, Unsigned128>(text, format, value)
}

/// The text's front as a `u128`, under a format.
#[unsafe(no_mangle)]
pub extern "C" fn jadvolni_parse_u128_partial_with_format(
    text: &[u8],
    format: &FormatFields,
    value: &mut Unsigned128,
) -> Outcome
    ensures { effect result (unsigned_number value.new)
        ≡ partial_call_under format.now (unsigned 128) text.now (unsigned_number value.old) }
{
    partial_under::<u128, Unsigned128>(text, format, value)
}

/// The whole text as a `usize`, under the standard format.
#[unsafe(no_mangle)]
pub extern "C" fn jadvolni_parse_usize(text: &[u8], value: &mut usize) -> Outcome
    ensures { effect result (pos value.new) ≡ complete_call (unsigned 64) text.now (pos value.old) }
{
    complete::<usize, usize>(text, value)
}

/// The text's front as a `usize`, under the standard format.
#[unsafe(no_mangle)]
pub extern "C" fn jadvolni_parse_usize_partial(text: &[u8], value: &mut usize) -> Outcome
    ensures { effect result (pos value.new) ≡ partial_call (unsigned 64) text.now (pos value.old) }
{
    partial::<usize, usize>(text, value)
}

/// The whole text as a `usize`, under a format.
#[unsafe(no_mangle)]
pub extern "C" fn jadvolni_parse_usize_with_format(
    text: &[u8],
    format: &FormatFields,
    value: &mut usize,
) -> Outcome
    ensures { effect result (pos value.new)
        ≡ complete_call_under format.now (unsigned 64) text.now (pos value.old) }
{
    complete_under::<usize, usize>(text, format, value)
}

/// The text's front as a `usize`, under a format.
#[unsafe(no_mangle)]
pub extern "C" fn jadvolni_parse_usize_partial_with_format(
    text: &[u8],
    format: &FormatFields,
    value: &mut usize,
) -> Outcome
    ensures { effect result (pos value.new)
        ≡ partial_call_under format.now (unsigned 64) text.now (pos value.old) }
{
    partial_under::<usize, usize>(text, format, value)
}
