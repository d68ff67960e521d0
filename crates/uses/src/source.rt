//! Integer literals of C and of Python, as their references write them: `0777` is octal in C and a fault in Python,
//! and `0x_1F` is a literal of Python alone.

ghost use Rattle.std.specs.Prelude.{◌≡◌, false, pos};
ghost use Rattle.lexical_parse_integer.specs.Answer.{view_of};
ghost use Rattle.uses.specs.Source.{begins_with_o, c_format, c_in, padded_format, python_format, python_in, zero_or};
ghost use Rattle.lexical_parse_integer.specs.Grammar.{complete};
ghost use Rattle.lexical_util.specs.Number.{integer_type};

use lexical_parse_integer::{
    Error, FromLexicalWithOptions, NumberFormat, NumberFormatBuilder, Result, options,
};

/// Literals of C23, and `0o17` besides: `511`, `0777`, `0x1FF` and `0b101`, with `'` between digits.
pub fn c_format() -> NumberFormat
    ensures { result ≡ c_format }
{
    lexical_formats::c23()
}

/// Literals of Python, where no zero comes before another digit.
pub fn python_format() -> NumberFormat
    ensures { result ≡ python_format }
{
    lexical_formats::python()
}

// Literals of Python with any zeros in front: `0o777`, `0x_1FF` and `0b101`, with `_` between digits.
fn padded_format() -> NumberFormat
    ensures { result ≡ padded_format }
{
    NumberFormatBuilder::new()
        .no_positive_mantissa_sign(true)
        .digit_separator(Some(b'_'))
        .internal_digit_separator(true)
        .integer_prefix_digit_separator(true)
        .literal_prefixes(true)
        .build_strict()
}

// Whether a text begins with `0o`, which is no prefix of C's.
fn begins_with_o(text: &[u8]) -> bool
    ensures { result ≡ begins_with_o text.now }
{
    text.starts_with(b"0o") || text.starts_with(b"0O")
}

/// The `u64` that an integer literal of C stands for, without its suffix: decimal, octal after a `0`, hexadecimal
/// after `0x`, or binary after `0b`, with `'` between digits.
///
/// `0777` is 511, `0x1FF` too, and `1'000` is 1000. `08` and `0o7` give `InvalidDigit(1)`.
pub fn c(text: &[u8]) -> Result<u64>
    ensures { view_of pos result ≡ c_in text.now }
{
    if begins_with_o(text) {
        return Err(Error::InvalidDigit(1));
    }
    u64::from_lexical_with_options(text, &c_format(), &options::STANDARD)
}

// 0 where the text is one of zeros alone, and else the fault.
fn zero_or(fault: Error, text: &[u8]) -> Result<u64>
    ensures { view_of pos result
        ≡ zero_or fault (complete padded_format (integer_type 64 false) text.now) }
{
    match u64::from_lexical_with_options(text, &padded_format(), &options::STANDARD) {
        Ok(0) => Ok(0),
        _ => Err(fault),
    }
}

/// The `u64` that an integer literal of Python stands for: decimal, or hexadecimal, octal or binary after `0x`, `0o`
/// or `0b`, with `_` between digits and after the prefix. A zero before other digits is refused, unless all of
/// them are zeros.
///
/// `0x_1FF` is 511, and `00` is 0. `0777` gives `InvalidLeadingZeros(0)`, and `_1` `InvalidDigit(0)`.
pub fn python(text: &[u8]) -> Result<u64>
    ensures { view_of pos result ≡ python_in text.now }
{
    match u64::from_lexical_with_options(text, &python_format(), &options::STANDARD) {
        Err(Error::InvalidLeadingZeros(place)) => zero_or(Error::InvalidLeadingZeros(place), text),
        answer => answer,
    }
}
