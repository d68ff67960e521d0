//! Columns: the numbers of a text's fields, read into a slice.

ghost use Rattle.std.specs.Prelude.{◌≡◌, length, take, drop, map, IfOk, IsNone};
ghost use Rattle.lexical_util.specs.Validity.{fault};
ghost use Rattle.lexical_fields.specs.Columns.{GoesOn, answer_of, numbers_of};

use crate::any_format::read_any_format;
use crate::first::read_first;
use crate::marked::read_marked;
use crate::places::error_in_text;
use crate::search::LEAST_MARKED;
use lexical_parse_integer::laws::grammar::fault_places;
use lexical_parse_integer::parse::ParseInteger;
use lexical_parse_integer::quick::is_separated;
use lexical_parse_integer::{Error, NumberFormat, Options};

/// How far a column was read.
#[derive(Debug, Copy, Clone, PartialEq, Eq)]
pub struct Column {
    /// How many numbers were read.
    pub count: usize,
    /// The place in the text where reading stopped: its end, or the start of the first field for which
    /// the slice had no room.
    pub stop: usize,
}

/// Why a column isn't read to its end.
#[derive(Debug, Copy, Clone, PartialEq, Eq)]
pub enum ColumnError {
    /// The format is invalid, and nothing was read.
    InvalidFormat(Error),
    /// A field isn't a number of the type. It is the first such field, and all before it were read.
    InvalidField {
        /// Which field it is, counted from 0. This is also how many numbers were read.
        field: usize,
        /// The place in the text at which it starts.
        start: usize,
        /// Its fault, whose place counts from the text's start.
        error: Error,
    },
}

// Reads a column under a valid format of any kind, as `read_column` does.
#[inline(always)]
fn read_any_column<T: ParseInteger>(
    text: &[u8],
    separator: u8,
    format: &NumberFormat,
    values: &mut [T],
) -> Result<Column, ColumnError>
    requires valid { IsNone (fault format.now) }
    ensures answer { result ≡ answer_of format.now T.TYPE
        (length values.old) separator text.now }
    ensures numbers { let numbers = numbers_of format.now T.TYPE
        (length values.old) separator text.now in
        map T.number (take (length numbers) values.new) ≡ numbers }
    ensures rest { let numbers = numbers_of format.now T.TYPE
        (length values.old) separator text.now in
        drop (length numbers) values.new ≡ drop (length numbers) values.old }
    ensures size { length values.new ≡ length values.old }
    ensures goes_on { IfOk result (GoesOn separator text.now (length values.old)
        (numbers_of format.now T.TYPE (length values.old) separator text.now)) }
{
    // The law by which a fault's place is at most the field's length, so that the sum fits.
    fault_places();
    let (count, rest, fault) = read_any_format::<T>(text, separator, format, values);
    let start = text.len() - rest.len();
    match fault {
        Some(error) => Err(ColumnError::InvalidField {
            field: count,
            start,
            error: error_in_text(start, error),
        }),
        None => Ok(Column { count, stop: start }),
    }
}

/// Reads the numbers in the fields of a text between a separator, as far as the slice has room.
///
/// The numbers are at the slice's front, and the rest of the slice is as it was, also after a
/// fault. If the text has more fields than the slice has room for, reading stops at the start of
/// the next field, which isn't looked at. A call on the text from `stop` on continues exactly
/// there, and its places count from that `stop`. An invalid format is reported before all else.
///
/// With a comma, `12,7,` gives two numbers and stops at 5; in a slice of one it gives one number and
/// stops at 3. `12,7x,1` gives `InvalidField` with `field` 1, `start` 3 and `InvalidDigit(4)`.
pub fn read_column<T: ParseInteger>(
    text: &[u8],
    separator: u8,
    format: &NumberFormat,
    options: &Options,
    values: &mut [T],
) -> Result<Column, ColumnError>
    ensures answer { result ≡ answer_of format.now T.TYPE
        (length values.old) separator text.now }
    ensures numbers { let numbers = numbers_of format.now T.TYPE
        (length values.old) separator text.now in
        map T.number (take (length numbers) values.new) ≡ numbers }
    ensures rest { let numbers = numbers_of format.now T.TYPE
        (length values.old) separator text.now in
        drop (length numbers) values.new ≡ drop (length numbers) values.old }
    ensures size { length values.new ≡ length values.old }
    ensures goes_on { IfOk result (GoesOn separator text.now (length values.old)
        (numbers_of format.now T.TYPE (length values.old) separator text.now)) }
{
    if let Some(error) = format.error() {
        return Err(ColumnError::InvalidFormat(error));
    }
    let separated = is_separated(format, separator);
    if !separated && text.len() >= LEAST_MARKED {
        return read_any_column::<T>(text, separator, format, values);
    }
    let mut rest = text;
    let mut count = 0;
    while count < values.len() && !rest.is_empty() {
        let start = text.len() - rest.len();
        let (answer, behind, has_marks) = read_first::<T>(
            start, rest, separator, format, options, separated,
        );
        match answer {
            Ok(value) => values[count] = value,
            Err(error) => {
                return Err(ColumnError::InvalidField {
                    field: count,
                    start,
                    error,
                });
            }
        }
        rest = behind;
        count += 1;
        if has_marks {
            (count, rest) = read_marked::<T>(rest, separator, format, values, count);
        }
    }
    Ok(Column {
        count,
        stop: text.len() - rest.len(),
    })
}
