//! The integer part of a JSON number, read from a stream whose bytes come piece by piece.

ghost use Rattle.std.specs.Prelude.{◌≡◌, ◌+◌, IfSome};
ghost use Rattle.uses.specs.Json.{IsFinal, part_in, settled_at};

use lexical_parse_integer::laws::grammar::locality;
use lexical_parse_integer::{Error, FromLexicalWithOptions, format, options, stops_after_digit};

/// What a reader knows of the number that its input begins with.
#[derive(Debug, Copy, Clone, PartialEq, Eq)]
pub enum Part {
    /// The integer part, and the place after its last digit.
    Whole { value: i64, end: usize },
    /// The input so far may go on as a longer integer part: read on, and ask again.
    Unfinished,
}

/// Why an input doesn't begin with the integer part of a JSON number that is an `i64`.
#[derive(Debug, Copy, Clone, PartialEq, Eq)]
pub enum NumberError {
    /// No digit is at this place, where the integer part's first would be.
    NoDigit(usize),
    /// The integer part leaves `i64`: `Overflow` or `Underflow`.
    OutOfRange(Error),
    /// A plus, or a zero before another digit.
    Malformed(Error),
}

/// The integer part of the JSON number that the input begins with, where `read` is the input so
/// far.
///
/// An answer other than `Unfinished` and `Malformed` is final: a reader may cut its buffer after
/// the byte at the answer's place, since the answer is the same whatever follows that byte.
///
/// `12` is `Unfinished`, and `12.5` and `12,` are `Whole { value: 12, end: 2 }`.
pub fn integer_part(read: &[u8]) -> Result<Part, NumberError>
    ensures answer { result ≡ part_in read.now }
    ensures settled { IfSome (settled_at result) (λ place. IsFinal (place + 1) read.now) }
{
    locality();
    match i64::from_lexical_partial_with_options(read, &format::JSON, &options::STANDARD) {
        Ok((value, end)) if end < read.len() => {
            if stops_after_digit(read, end, 10) {
                Ok(Part::Whole { value, end })
            } else {
                Err(NumberError::NoDigit(end))
            }
        }
        Ok(_) | Err(Error::Empty(_)) => Ok(Part::Unfinished),
        Err(error @ (Error::Overflow(_) | Error::Underflow(_))) => {
            Err(NumberError::OutOfRange(error))
        }
        Err(error) => Err(NumberError::Malformed(error)),
    }
}
