//! What the lines so far have set.
//!
//! Its lists of fields are written from tools/fields.txt, by `make docs`.

ghost use Rattle.std.specs.Prelude.{◌≡◌, IsTrue};
ghost use Rattle.lexical_util.specs.Format.{standard};
ghost use Rattle.answer_lines.specs.Change.{with_change, with_flag, with_punctuation};
ghost use Rattle.answer_lines.specs.Settings.{standard_settings};

use crate::field::{Change, Flag, Punctuation};
use lexical_parse_integer::{NumberFormat, NumberFormatBuilder, Options};
use std::marker::Model;

/// The format that texts are parsed by, and the options.
#[derive(Drop)]
pub struct Settings {
    format: NumberFormatBuilder,
    // The format that `format` builds, kept so that it is built only when a line changes it.
    built: NumberFormat,
    // True only if no line has changed the standard settings: then the parser needn't look at the format.
    is_standard: bool,
    options: Options,
}

impl Model for Settings {
    ghost use Rattle.std.specs.Prelude.{◌≡◌, IsTrue};
    ghost use Rattle.answer_lines.specs.Settings.{Settings};
    ghost use Rattle.lexical_util.specs.Format.{standard};

    ghost Value = { Settings };

    ghost view = { λ s. record { format = s.format; no_multi_digit = s.options.no_multi_digit } };

    ghost invariant = { λ s. (s.built ≡ s.format)
        × (IsTrue s.is_standard → s.format ≡ standard) };
}

impl Settings {
    /// The standard format and the standard options.
    pub fn standard() -> Settings
        ensures { result ≡ standard_settings }
    {
        let format = NumberFormatBuilder::new();
        Settings {
            format,
            built: format.build_unchecked(),
            is_standard: true,
            options: Options::new(),
        }
    }

    /// The format, which may be invalid.
    pub fn format(&self) -> &NumberFormat
        ensures { result.now ≡ self.now.format }
    {
        &self.built
    }

    /// Whether the format is the standard one, where that is known.
    pub fn is_standard(&self) -> bool
        ensures { IsTrue result → self.now.format ≡ standard }
    {
        self.is_standard
    }

    /// The options.
    pub fn options(&self) -> &Options
        ensures { result.now.no_multi_digit ≡ self.now.no_multi_digit }
    {
        &self.options
    }

    /// Sets a field to its new value, and changes no other. No value is refused: the format may
    /// become invalid.
    pub fn apply(&mut self, change: Change)
        ensures { self.new ≡ with_change change self.old }
    {
        self.is_standard = false;
        let format = self.format;
        match change {
            Change::MantissaRadix(value) => self.format = format.mantissa_radix(value),
            Change::Punctuation(punctuation, value) => self.format = with_punctuation(
                punctuation,
                value,
                format,
            ),
            Change::Flag(flag, value) => self.format = with_flag(flag, value, format),
            Change::RequiredDigits(value) => self.format = format.required_digits(value),
            Change::NoMultiDigit(value) => self.options.set_no_multi_digit(value),
        }
        self.built = self.format.build_unchecked();
    }
}

// The format with one of its bytes set.
fn with_punctuation(
    punctuation: Punctuation,
    value: Option<u8>,
    format: NumberFormatBuilder,
) -> NumberFormatBuilder
    ensures { result ≡ with_punctuation punctuation value format }
{
    match punctuation {
        Punctuation::DigitSeparator => format.digit_separator(value),
        Punctuation::BasePrefix => format.base_prefix(value),
        Punctuation::BaseSuffix => format.base_suffix(value),
    }
}

// The format with one of its flags set.
fn with_flag(flag: Flag, value: bool, format: NumberFormatBuilder) -> NumberFormatBuilder
    ensures { result ≡ with_flag flag value format }
{
    match flag {
        Flag::CaseSensitiveBasePrefix => format.case_sensitive_base_prefix(value),
        Flag::CaseSensitiveBaseSuffix => format.case_sensitive_base_suffix(value),
        Flag::RequiredIntegerDigits => format.required_integer_digits(value),
        Flag::RequiredMantissaDigits => format.required_mantissa_digits(value),
        Flag::NoPositiveMantissaSign => format.no_positive_mantissa_sign(value),
        Flag::RequiredMantissaSign => format.required_mantissa_sign(value),
        Flag::NoIntegerLeadingZeros => format.no_integer_leading_zeros(value),
        Flag::IntegerLeadingDigitSeparator => format.integer_leading_digit_separator(value),
        Flag::IntegerInternalDigitSeparator => format.integer_internal_digit_separator(value),
        Flag::IntegerTrailingDigitSeparator => format.integer_trailing_digit_separator(value),
        Flag::IntegerConsecutiveDigitSeparator => format.integer_consecutive_digit_separator(value),
        Flag::IntegerPrefixDigitSeparator => format.integer_prefix_digit_separator(value),
        Flag::LiteralPrefixes => format.literal_prefixes(value),
        Flag::LiteralOctalZero => format.literal_octal_zero(value),
    }
}
