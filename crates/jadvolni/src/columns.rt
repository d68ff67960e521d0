//! Columns, as C reads them: the numbers of a text's fields, put into an array.

ghost use Rattle.std.specs.Prelude.{◌≡◌, map, pos};
ghost use Rattle.lexical_fields.specs.Parts.{whole_fields};
ghost use Rattle.jadvolni.specs.Columns.{column_call, column_effect};
ghost use Rattle.jadvolni.specs.Effect.{signed, unsigned};

use crate::calls::UNKNOWN;
use crate::format::FormatFields;
use crate::outcome::Outcome;
use lexical_fields::{ColumnError, read_column, whole_fields};
use lexical_parse_integer::options;
use lexical_parse_integer::parse::ParseInteger;

/// The numbers of a text's fields, under a format that may be invalid.
///
/// They are put at the front of `values`, as far as there is room, and the rest is as it was,
/// also after a fault. `count` then says how many they are. At status 0 the place is where reading
/// stopped: the text's end, or the start of the first field for which there was no room.
#[inline(always)]
pub fn column_under<T: ParseInteger>(
    text: &[u8],
    separator: u8,
    fields: &FormatFields,
    values: &mut [T],
    count: &mut usize,
) -> Outcome
    ensures { column_effect result count.new (map T.number values.new)
        ≡ column_call fields.now T.TYPE separator text.now (map T.number values.old) }
{
    *count = 0;
    if !fields.are_known() {
        return UNKNOWN;
    }
    match read_column::<T>(
        text,
        separator,
        &fields.format(),
        &options::STANDARD,
        values,
    ) {
        Ok(column) => {
            *count = column.count;
            Outcome {
                status: 0,
                place: column.stop,
            }
        }
        Err(ColumnError::InvalidFormat(error)) => Outcome::of_fault(error),
        Err(ColumnError::InvalidField { field, error, .. }) => {
            *count = field;
            Outcome::of_fault(error)
        }
    }
}

/// Where the field that a text ends in starts: behind the text's last separator, or at 0. All that stands before is
/// whole fields.
///
/// For a text up to a fault's place, this is where the field at fault starts. For a block that more follows, it is how
/// many bytes may be read as a column.
#[unsafe(no_mangle)]
pub extern "C" fn jadvolni_field_start(text: &[u8], separator: u8) -> usize
    ensures { result ≡ whole_fields separator text.now }
{
    whole_fields(text, separator)
}

/// The numbers of a text's fields as `u8`, under a format.
#[unsafe(no_mangle)]
pub extern "C" fn jadvolni_parse_u8_column(
    text: &[u8],
    separator: u8,
    format: &FormatFields,
    values: &mut [u8],
    count: &mut usize,
) -> Outcome
    ensures { column_effect result count.new (map pos values.new)
        ≡ column_call format.now (unsigned 8) separator text.now (map pos values.old) }
{
    column_under::<u8>(text, separator, format, values, count)
}

/// The numbers of a text's fields as `u16`, under a format.
#[unsafe(no_mangle)]
pub extern "C" fn jadvolni_parse_u16_column(
    text: &[u8],
    separator: u8,
    format: &FormatFields,
    values: &mut [u16],
    count: &mut usize,
) -> Outcome
    ensures { column_effect result count.new (map pos values.new)
        ≡ column_call format.now (unsigned 16) separator text.now (map pos values.old) }
{
    column_under::<u16>(text, separator, format, values, count)
}

/// The numbers of a text's fields as `u32`, under a format.
#[unsafe(no_mangle)]
pub extern "C" fn jadvolni_parse_u32_column(
    text: &[u8],
    separator: u8,
    format: &FormatFields,
    values: &mut [u32],
    count: &mut usize,
) -> Outcome
    ensures { column_effect result count.new (map pos values.new)
        ≡ column_call format.now (unsigned 32) separator text.now (map pos values.old) }
{
    column_under::<u32>(text, separator, format, values, count)
}

/// The numbers of a text's fields as `u64`, under a format.
#[unsafe(no_mangle)]
pub extern "C" fn jadvolni_parse_u64_column(
    text: &[u8],
    separator: u8,
    format: &FormatFields,
    values: &mut [u64],
    count: &mut usize,
) -> Outcome
    ensures { column_effect result count.new (map pos values.new)
        ≡ column_call format.now (unsigned 64) separator text.now (map pos values.old) }
{
    column_under::<u64>(text, separator, format, values, count)
}

/// The numbers of a text's fields as `i8`, under a format.
#[unsafe(no_mangle)]
pub extern "C" fn jadvolni_parse_i8_column(
    text: &[u8],
    separator: u8,
    format: &FormatFields,
    values: &mut [i8],
    count: &mut usize,
) -> Outcome
    ensures { column_effect result count.new values.new
        ≡ column_call format.now (signed 8) separator text.now values.old }
{
    column_under::<i8>(text, separator, format, values, count)
}

/// The numbers of a text's fields as `i16`, under a format.
#[unsafe(no_mangle)]
pub extern "C" fn jadvolni_parse_i16_column(
    text: &[u8],
    separator: u8,
    format: &FormatFields,
    values: &mut [i16],
    count: &mut usize,
) -> Outcome
    ensures { column_effect result count.new values.new
        ≡ column_call format.now (signed 16) separator text.now values.old }
{
    column_under::<i16>(text, separator, format, values, count)
}

/// The numbers of a text's fields as `i32`, under a format.
#[unsafe(no_mangle)]
pub extern "C" fn jadvolni_parse_i32_column(
    text: &[u8],
    separator: u8,
    format: &FormatFields,
    values: &mut [i32],
    count: &mut usize,
) -> Outcome
    ensures { column_effect result count.new values.new
        ≡ column_call format.now (signed 32) separator text.now values.old }
{
    column_under::<i32>(text, separator, format, values, count)
}

/// The numbers of a text's fields as `i64`, under a format.
#[unsafe(no_mangle)]
pub extern "C" fn jadvolni_parse_i64_column(
    text: &[u8],
    separator: u8,
    format: &FormatFields,
    values: &mut [i64],
    count: &mut usize,
) -> Outcome
    ensures { column_effect result count.new values.new
        ≡ column_call format.now (signed 64) separator text.now values.old }
{
    column_under::<i64>(text, separator, format, values, count)
}
