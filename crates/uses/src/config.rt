//! Values of a configuration file: `64_000`, or `0x1F_FF` in radix 16.
//!
//! Each notation has a format of its own, so that a fault says in which one the text was read. A
//! single format with `literal_prefixes` would read both, and `0o17` and `0b11` too.

ghost use Rattle.std.specs.Prelude.{◌≡◌, pos};
ghost use Rattle.lexical_parse_integer.specs.Answer.{view_of};
ghost use Rattle.uses.specs.Config.{grouped, hexadecimal, value_in};

use lexical_parse_integer::{
    Error, FromLexicalWithOptions, NumberFormat, NumberFormatBuilder, options,
};

/// Why a text is no value, with the fault of the notation that it was read in.
///
/// The places count the bytes of the text from 0, the prefix included.
#[derive(Debug, Copy, Clone, PartialEq, Eq)]
pub enum ValueError {
    /// The text begins with `0x`.
    Hexadecimal(Error),
    /// The text doesn't begin with `0x`.
    Decimal(Error),
}

// `_` between digits, one at a time.
fn grouped_builder() -> NumberFormatBuilder
    ensures { result ≡ grouped }
{
    NumberFormatBuilder::new()
        .digit_separator(Some(b'_'))
        .internal_digit_separator(true)
}

/// Radix 10, with `_` between digits, one at a time: `64_000`.
pub fn grouped() -> NumberFormat
    ensures { result ≡ grouped }
{
    grouped_builder().build_strict()
}

/// Radix 16, with the prefix `0x` or without it, and with `_` between digits: `0x1F_FF`.
pub fn hexadecimal() -> NumberFormat
    ensures { result ≡ hexadecimal }
{
    grouped_builder()
        .mantissa_radix(16)
        .base_prefix(Some(b'x'))
        .case_sensitive_base_prefix(true)
        .build_strict()
}

/// The `u64` that a text stands for: hexadecimal where it begins with `0x`, and decimal elsewhere.
///
/// `0x1F_FF` is 8191, and `64_000` is 64000. `0x1G` gives `Hexadecimal(InvalidDigit(3))`.
pub fn value(text: &[u8]) -> Result<u64, ValueError>
    ensures { view_of pos result ≡ value_in text.now }
{
    if text.starts_with(b"0x") {
        let answer = u64::from_lexical_with_options(text, &hexadecimal(), &options::STANDARD);
        answer.map_err(ValueError::Hexadecimal)
    } else {
        let answer = u64::from_lexical_with_options(text, &grouped(), &options::STANDARD);
        answer.map_err(ValueError::Decimal)
    }
}
