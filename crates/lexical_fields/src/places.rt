// What a field stands for, with its fault's place counted from the start of the text.
ghost use Rattle.std.specs.Prelude.{◌≡◌, ◌+◌, ◌<◌, ◌^◌, length, IfSome, IsNone};
ghost use Rattle.lexical_util.specs.Faults.{place_of};
ghost use Rattle.lexical_util.specs.Validity.{fault};
ghost use Rattle.lexical_parse_integer.specs.Answer.{view_of};
ghost use Rattle.lexical_fields.specs.Places.{error_in_text};
ghost use Rattle.lexical_fields.specs.ReadFields.{field_answer};

use lexical_parse_integer::laws::grammar::fault_places;
use lexical_parse_integer::parse::ParseInteger;
use lexical_parse_integer::{Error, NumberFormat, Options, Result};

/// A fault of a field that starts at a place, with its own place counted from the start of the text.
///
/// A caller who cuts a text, and reads a part, reports the part's fault by it. The fault of a format has no place.
pub fn error_in_text(start: usize, error: Error) -> Error
    requires { IfSome (place_of error) (λ place. start + place < 2 ^ 64) }
    ensures { result ≡ error_in_text start error }
{
    match error {
        Error::Overflow(place) => Error::Overflow(start + place),
        Error::Underflow(place) => Error::Underflow(start + place),
        Error::InvalidDigit(place) => Error::InvalidDigit(start + place),
        Error::Empty(place) => Error::Empty(start + place),
        Error::MissingSign(place) => Error::MissingSign(start + place),
        Error::InvalidPositiveSign(place) => Error::InvalidPositiveSign(start + place),
        Error::InvalidLeadingZeros(place) => Error::InvalidLeadingZeros(start + place),
        Error::InvalidMantissaRadix => Error::InvalidMantissaRadix,
        Error::InvalidDigitSeparator => Error::InvalidDigitSeparator,
        Error::InvalidBasePrefix => Error::InvalidBasePrefix,
        Error::InvalidBaseSuffix => Error::InvalidBaseSuffix,
        Error::InvalidPunctuation => Error::InvalidPunctuation,
        Error::InvalidLiteralPrefixes => Error::InvalidLiteralPrefixes,
    }
}

// What a field that starts at a place stands for under a valid format.
#[inline(always)]
pub(crate) fn field_answer<T: ParseInteger>(
    start: usize,
    field: &[u8],
    format: &NumberFormat,
    options: &Options,
) -> Result<T>
    requires valid { IsNone (fault format.now) }
    requires fits { start + length field.now < 2 ^ 64 }
    ensures { view_of T.number result
        ≡ field_answer format.now T.TYPE (record { start = start; text = field.now }) }
{
    // The law by which a fault's place is at most the field's length, so that the sum fits.
    fault_places();
    match T::parse_complete(field, format, options) {
        Ok(value) => Ok(value),
        Err(error) => Err(error_in_text(start, error)),
    }
}
