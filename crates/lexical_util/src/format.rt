//! Formats: what a text of an integer may look like.
//!
//! A format is made by a [`NumberFormatBuilder`] from [`STANDARD`], field by field, and is then
//! handed to a parser by reference. The names of the fields are those of the Rust crate
//! `lexical-util`; a field for floats has no place here.

ghost use Rattle.std.specs.Prelude.{◌≡◌, ◌↔◌, ◌||◌, IsTrue, None, is_some};
ghost use Rattle.lexical_util.specs.Format.{json, standard};
ghost use Rattle.lexical_util.specs.Kind.{kind_of};
ghost use Rattle.lexical_util.specs.Validity.{fault};

mod builder;
mod content;
mod kind;
mod validity;

use crate::error::Error;
pub use builder::NumberFormatBuilder;
use content::{Fields, STANDARD_FIELDS};
pub use kind::FormatKind;
use std::marker::Model;

/// What a text of an integer may look like: its radix, its punctuation, and what is required or
/// forbidden.
///
/// Any values of the fields make a format. Whether it is valid is another question, which
/// [`NumberFormat::error`] answers. Two formats are equal where all their fields are.
#[derive(Debug, Copy, Clone, PartialEq, Eq)]
pub struct NumberFormat {
    fields: Fields,
    // Found when the format is made, so that a parser needn't ask field by field.
    kind: FormatKind,
}

impl Model for NumberFormat {
    ghost use Rattle.std.specs.Prelude.{◌≡◌};
    ghost use Rattle.std.proofs.Common.{sym};
    ghost use Rattle.lexical_util.specs.Format.{Format};
    ghost use Rattle.lexical_util.specs.Kind.{kind_of};

    ghost Value = { Format };

    ghost view = { λ a. a.fields };

    ghost invariant = { λ a. a.kind ≡ kind_of a.fields };

    ghost inverse = { λ v. record { fields = v; kind = kind_of v } };

    ghost inverse_ok = { λ a h i. record { fields = a.fields; kind = sym h i } };
}

/// Plain numerals in radix 10: an optional sign, and then at least one digit.
pub const STANDARD: NumberFormat = NumberFormat {
    fields: STANDARD_FIELDS,
    kind: FormatKind::Decimal,
};

/// Integers as JSON writes them (RFC 8259, section 6): [`STANDARD`] without a plus, and without a zero
/// before another digit. Digits are required twice over, as integer and as mantissa digits.
pub const JSON: NumberFormat = NumberFormat {
    fields: Fields {
        required_integer_digits: true,
        no_positive_mantissa_sign: true,
        no_integer_leading_zeros: true,
        ..STANDARD_FIELDS
    },
    kind: FormatKind::Decimal,
};

// The fields of the constants: a clause can't name a constant of this type, so it stands here.
fn constants() -> (NumberFormat, NumberFormat)
    ensures { result ≡ (standard, json) }
{
    (STANDARD, JSON)
}

impl NumberFormat {
    /// The radix of the digits, from 2 to 36 where the format is valid.
    #[inline(always)]
    pub fn mantissa_radix(&self) -> u32
        ensures { result ≡ self.now.mantissa_radix }
    {
        u32::from(self.fields.mantissa_radix)
    }

    /// The radix of the digits, as `mantissa_radix`.
    #[inline(always)]
    pub fn radix(&self) -> u32
        ensures { result ≡ self.now.mantissa_radix }
    {
        self.mantissa_radix()
    }

    /// The byte that may come among the digits and counts for nothing, as `_` in `1_000`. It is no decimal comma: with `,`
    /// between digits `12,505` is 12505. For amounts there are fixed-point numbers.
    ///
    /// It is matched exactly, even if it is a letter. The `integer_` flags say where it may be; if none is set, it may
    /// stand nowhere. Without a separator they have no effect.
    #[inline(always)]
    pub fn digit_separator(&self) -> Option<u8>
        ensures { result ≡ self.now.digit_separator }
    {
        self.fields.digit_separator
    }

    /// The byte that makes a prefix with a `0` before it: with `x` a text may begin with `0x`, directly
    /// after the sign.
    ///
    /// A text may leave the prefix out. It doesn't change the radix.
    #[inline(always)]
    pub fn base_prefix(&self) -> Option<u8>
        ensures { result ≡ self.now.base_prefix }
    {
        self.fields.base_prefix
    }

    /// The byte that may come after the last digit, as `h` in `1Fh`.
    ///
    /// A text may leave the suffix out. It is read once, and only where there is a digit before it.
    #[inline(always)]
    pub fn base_suffix(&self) -> Option<u8>
        ensures { result ≡ self.now.base_suffix }
    {
        self.fields.base_suffix
    }

    /// Whether a prefix is set.
    #[inline(always)]
    pub fn has_base_prefix(&self) -> bool
        ensures { result ≡ is_some self.now.base_prefix }
    {
        self.fields.base_prefix.is_some()
    }

    /// Whether the prefix is matched exactly, so that `0X` is none where `x` is set. Else ASCII case
    /// doesn't matter.
    #[inline(always)]
    pub fn case_sensitive_base_prefix(&self) -> bool
        ensures { result ≡ self.now.case_sensitive_base_prefix }
    {
        self.fields.case_sensitive_base_prefix
    }

    /// Whether the suffix is matched exactly, so that `H` is none where `h` is set. Else ASCII case
    /// doesn't matter.
    #[inline(always)]
    pub fn case_sensitive_base_suffix(&self) -> bool
        ensures { result ≡ self.now.case_sensitive_base_suffix }
    {
        self.fields.case_sensitive_base_suffix
    }

    /// Whether digits are required in the integer part, which is all that an integer has.
    #[inline(always)]
    pub fn required_integer_digits(&self) -> bool
        ensures { result ≡ self.now.required_integer_digits }
    {
        self.fields.required_integer_digits
    }

    /// Whether digits are required, as in [`STANDARD`].
    #[inline(always)]
    pub fn required_mantissa_digits(&self) -> bool
        ensures { result ≡ self.now.required_mantissa_digits }
    {
        self.fields.required_mantissa_digits
    }

    /// Whether a text without digits is refused (`Error::Empty`), since `required_integer_digits` or
    /// `required_mantissa_digits` is set.
    #[inline(always)]
    pub fn required_digits(&self) -> bool
        ensures { result ≡ (self.now.required_integer_digits || self.now.required_mantissa_digits) }
    {
        self.fields.required_integer_digits || self.fields.required_mantissa_digits
    }

    /// Whether a text that begins with `+` is refused (`Error::InvalidPositiveSign`).
    #[inline(always)]
    pub fn no_positive_mantissa_sign(&self) -> bool
        ensures { result ≡ self.now.no_positive_mantissa_sign }
    {
        self.fields.no_positive_mantissa_sign
    }

    /// Whether a text without a sign is refused (`Error::MissingSign`).
    ///
    /// For an unsigned type `-` is no sign.
    #[inline(always)]
    pub fn required_mantissa_sign(&self) -> bool
        ensures { result ≡ self.now.required_mantissa_sign }
    {
        self.fields.required_mantissa_sign
    }

    /// Whether a zero before another digit is refused (`Error::InvalidLeadingZeros`): `01` is,
    /// `0` isn't. Zeros after a prefix, and in a numeral that a zero makes octal, are never refused.
    #[inline(always)]
    pub fn no_integer_leading_zeros(&self) -> bool
        ensures { result ≡ self.now.no_integer_leading_zeros }
    {
        self.fields.no_integer_leading_zeros
    }

    /// Whether separators may come before the first digit, as in `_12`, or where there is none.
    #[inline(always)]
    pub fn integer_leading_digit_separator(&self) -> bool
        ensures { result ≡ self.now.integer_leading_digit_separator }
    {
        self.fields.integer_leading_digit_separator
    }

    /// Whether separators may come between two digits, as in `1_2`.
    #[inline(always)]
    pub fn integer_internal_digit_separator(&self) -> bool
        ensures { result ≡ self.now.integer_internal_digit_separator }
    {
        self.fields.integer_internal_digit_separator
    }

    /// Whether separators may come after the last digit, as in `12_`, or where there is none.
    #[inline(always)]
    pub fn integer_trailing_digit_separator(&self) -> bool
        ensures { result ≡ self.now.integer_trailing_digit_separator }
    {
        self.fields.integer_trailing_digit_separator
    }

    /// Whether separators may come side by side, as in `1__2`. Where this isn't set, two in a
    /// row may be nowhere, whatever the other three flags are.
    #[inline(always)]
    pub fn integer_consecutive_digit_separator(&self) -> bool
        ensures { result ≡ self.now.integer_consecutive_digit_separator }
    {
        self.fields.integer_consecutive_digit_separator
    }

    /// Whether separators may come directly after a prefix, as in `0x_1F`: a run of them with no digit before it is
    /// judged there as if `integer_leading_digit_separator` were set. Without a prefix this has no effect.
    #[inline(always)]
    pub fn integer_prefix_digit_separator(&self) -> bool
        ensures { result ≡ self.now.integer_prefix_digit_separator }
    {
        self.fields.integer_prefix_digit_separator
    }

    /// Whether the text may choose its radix: a `0x`, `0o` or `0b` directly after the sign is a prefix, and makes the
    /// effective radix 16, 8 or 2. Either letter case is matched, unless `case_sensitive_base_prefix` is set: then the
    /// small letters alone. Without such a prefix the radix is 10.
    #[inline(always)]
    pub fn literal_prefixes(&self) -> bool
        ensures { result ≡ self.now.literal_prefixes }
    {
        self.fields.literal_prefixes
    }

    /// Whether a first zero makes a numeral octal, as in C: where a `0` is directly after the sign, and is no part
    /// of a prefix, the effective radix is 8, and that zero is the numeral's first digit. `0777` is 511, and `0` is 0.
    #[inline(always)]
    pub fn literal_octal_zero(&self) -> bool
        ensures { result ≡ self.now.literal_octal_zero }
    {
        self.fields.literal_octal_zero
    }

    /// What kind of texts the format admits: found when it was made.
    #[inline(always)]
    pub fn kind(&self) -> FormatKind
        ensures { result ≡ kind_of self.now }
    {
        self.kind
    }

    /// The first rule that the format breaks, and `None` where it is valid.
    ///
    /// 1. The radix is from 2 to 36; else `InvalidMantissaRadix`.
    /// 2. A separator is an ASCII byte, and not `+`, `-` or a digit of the radix; else
    ///    `InvalidDigitSeparator`.
    /// 3. A prefix is such a byte; else `InvalidBasePrefix`.
    /// 4. A suffix is such a byte; else `InvalidBaseSuffix`.
    /// 5. No two of the three are alike, that is the same byte or the same letter in two cases; else
    ///    `InvalidPunctuation`.
    /// 6. Where literal prefixes or octal zeros are asked for, the radix is 10; and where literal prefixes are, the
    ///    format has no prefix of its own, and separator and suffix are neither digits of radix 16 nor `x`, `o` or
    ///    `b`, in either case; else `InvalidLiteralPrefixes`.
    ///
    /// The first rule is that of the Rust crate `lexical-util`; the others, and which fault each has,
    /// are this crate's own.
    #[inline(always)]
    pub fn error(&self) -> Option<Error>
        ensures { result ≡ fault self.now }
    {
        match self.kind {
            FormatKind::Invalid => self.fields.fault(),
            _ => None,
        }
    }

    /// Whether the format breaks no rule, so that `error` answers `None`.
    #[inline(always)]
    pub fn is_valid(&self) -> bool
        ensures { IsTrue result ↔ (fault self.now ≡ None) }
    {
        match self.kind {
            FormatKind::Invalid => false,
            _ => true,
        }
    }

    // The format with these fields.
    #[inline(always)]
    fn of(fields: &Fields) -> NumberFormat
        ensures { result ≡ fields.now }
    {
        NumberFormat {
            fields: *fields,
            kind: fields.kind(),
        }
    }
}
