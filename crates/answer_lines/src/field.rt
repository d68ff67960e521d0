//! The fields that an `f` line names, and the values that it has for them.
//!
//! Its lists of fields are written from tools/fields.txt, by `make docs`.

ghost use Rattle.std.specs.Prelude.{◌≡◌};
ghost use Rattle.std.specs.Str.{bytes_eq};
ghost use Rattle.answer_lines.specs.Field.{change_in, field_name, field_named, flag_name, punctuation_in, punctuation_name, radix_in, truth_in};

use lexical_parse_integer::FromLexical;

/// A field of a format that is one byte or none.
#[derive(Debug, Clone, Copy, PartialEq, Eq)]
pub enum Punctuation {
    DigitSeparator,
    BasePrefix,
    BaseSuffix,
}

/// A field of a format that is true or false.
#[derive(Debug, Clone, Copy, PartialEq, Eq)]
pub enum Flag {
    CaseSensitiveBasePrefix,
    CaseSensitiveBaseSuffix,
    RequiredIntegerDigits,
    RequiredMantissaDigits,
    NoPositiveMantissaSign,
    RequiredMantissaSign,
    NoIntegerLeadingZeros,
    IntegerLeadingDigitSeparator,
    IntegerInternalDigitSeparator,
    IntegerTrailingDigitSeparator,
    IntegerConsecutiveDigitSeparator,
    IntegerPrefixDigitSeparator,
    LiteralPrefixes,
    LiteralOctalZero,
}

/// What an `f` line can set.
#[derive(Debug, Clone, Copy, PartialEq, Eq)]
pub enum Field {
    MantissaRadix,
    Punctuation(Punctuation),
    Flag(Flag),
    /// Both flags that ask for digits.
    RequiredDigits,
    /// The one field of the options.
    NoMultiDigit,
}

/// A field with the value that it is to have.
#[derive(Debug, Clone, Copy, PartialEq, Eq)]
pub enum Change {
    MantissaRadix(u8),
    Punctuation(Punctuation, Option<u8>),
    Flag(Flag, bool),
    RequiredDigits(bool),
    NoMultiDigit(bool),
}

impl Punctuation {
    // The setter's name.
    fn name(self) -> &'static str
        ensures { result.now ≡ punctuation_name self }
    {
        match self {
            Punctuation::DigitSeparator => "digit_separator",
            Punctuation::BasePrefix => "base_prefix",
            Punctuation::BaseSuffix => "base_suffix",
        }
    }
}

impl Flag {
    // The setter's name.
    fn name(self) -> &'static str
        ensures { result.now ≡ flag_name self }
    {
        match self {
            Flag::CaseSensitiveBasePrefix => "case_sensitive_base_prefix",
            Flag::CaseSensitiveBaseSuffix => "case_sensitive_base_suffix",
            Flag::RequiredIntegerDigits => "required_integer_digits",
            Flag::RequiredMantissaDigits => "required_mantissa_digits",
            Flag::NoPositiveMantissaSign => "no_positive_mantissa_sign",
            Flag::RequiredMantissaSign => "required_mantissa_sign",
            Flag::NoIntegerLeadingZeros => "no_integer_leading_zeros",
            Flag::IntegerLeadingDigitSeparator => "integer_leading_digit_separator",
            Flag::IntegerInternalDigitSeparator => "integer_internal_digit_separator",
            Flag::IntegerTrailingDigitSeparator => "integer_trailing_digit_separator",
            Flag::IntegerConsecutiveDigitSeparator => "integer_consecutive_digit_separator",
            Flag::IntegerPrefixDigitSeparator => "integer_prefix_digit_separator",
            Flag::LiteralPrefixes => "literal_prefixes",
            Flag::LiteralOctalZero => "literal_octal_zero",
        }
    }
}

/// Every field.
const FIELDS: &[Field] = &[
    Field::MantissaRadix,
    Field::Punctuation(Punctuation::DigitSeparator),
    Field::Punctuation(Punctuation::BasePrefix),
    Field::Punctuation(Punctuation::BaseSuffix),
    Field::Flag(Flag::CaseSensitiveBasePrefix),
    Field::Flag(Flag::CaseSensitiveBaseSuffix),
    Field::Flag(Flag::RequiredIntegerDigits),
    Field::Flag(Flag::RequiredMantissaDigits),
    Field::Flag(Flag::NoPositiveMantissaSign),
    Field::Flag(Flag::RequiredMantissaSign),
    Field::Flag(Flag::NoIntegerLeadingZeros),
    Field::Flag(Flag::IntegerLeadingDigitSeparator),
    Field::Flag(Flag::IntegerInternalDigitSeparator),
    Field::Flag(Flag::IntegerTrailingDigitSeparator),
    Field::Flag(Flag::IntegerConsecutiveDigitSeparator),
    Field::Flag(Flag::IntegerPrefixDigitSeparator),
    Field::Flag(Flag::LiteralPrefixes),
    Field::Flag(Flag::LiteralOctalZero),
    Field::RequiredDigits,
    Field::NoMultiDigit,
];

impl Field {
    // The setter's name.
    fn name(self) -> &'static str
        ensures { result.now ≡ field_name self }
    {
        match self {
            Field::MantissaRadix => "mantissa_radix",
            Field::Punctuation(punctuation) => punctuation.name(),
            Field::Flag(flag) => flag.name(),
            Field::RequiredDigits => "required_digits",
            Field::NoMultiDigit => "no_multi_digit",
        }
    }

    // Whether the field has this name.
    fn has_name(self, name: &[u8]) -> bool
        ensures { result ≡ bytes_eq name.now (field_name self) }
    {
        name == self.name().as_bytes()
    }

    /// The field of a name, which is that of its setter.
    pub fn of_name(name: &[u8]) -> Option<Field>
        ensures { result ≡ field_named name.now }
    {
        FIELDS.iter().copied().find(|field| field.has_name(name))
    }

    /// The change that sets the field to the value of a text, and `None` where the text has no
    /// value for it: `true` or `false`, one byte or `none`, or a number of `u8`.
    pub fn change(self, text: &[u8]) -> Option<Change>
        ensures { result ≡ change_in self text.now }
    {
        match self {
            Field::MantissaRadix => radix_in(text).map(Change::MantissaRadix),
            Field::Punctuation(punctuation) => punctuation_in(text).map(|value| Change::Punctuation(
                punctuation,
                value,
            )),
            Field::Flag(flag) => truth_in(text).map(|value| Change::Flag(flag, value)),
            Field::RequiredDigits => truth_in(text).map(Change::RequiredDigits),
            Field::NoMultiDigit => truth_in(text).map(Change::NoMultiDigit),
        }
    }
}

// The number of `u8` that a text stands for under the standard format.
fn radix_in(text: &[u8]) -> Option<u8>
    ensures { result ≡ radix_in text.now }
{
    u8::from_lexical(text).ok()
}

// `none`, or a text of one byte.
fn punctuation_in(text: &[u8]) -> Option<Option<u8>>
    ensures { result ≡ punctuation_in text.now }
{
    match text {
        b"none" => Some(None),
        [byte] => Some(Some(*byte)),
        _ => None,
    }
}

// `true` or `false`.
fn truth_in(text: &[u8]) -> Option<bool>
    ensures { result ≡ truth_in text.now }
{
    match text {
        b"true" => Some(true),
        b"false" => Some(false),
        _ => None,
    }
}
