//! Making a format, field by field.

ghost use Rattle.std.specs.Prelude.{◌≡◌, ◌↔◌, IsTrue, None};
ghost use Rattle.lexical_util.specs.Format.{standard};
ghost use Rattle.lexical_util.specs.Kind.{kind_of};
ghost use Rattle.lexical_util.specs.Validity.{fault};

use super::NumberFormat;
use super::content::{Fields, STANDARD_FIELDS};
use super::kind::FormatKind;
use std::marker::Model;

/// A format in the making. It starts as [`STANDARD`]; each setter changes its own field and keeps
/// the others, whatever the fields are so far.
///
/// ```rust
/// // C's hexadecimal integers, with or without their prefix.
/// let format = NumberFormatBuilder::new()
///     .mantissa_radix(16)
///     .base_prefix(Some(b'x'))
///     .build_strict();
/// ```
#[derive(Debug, Copy, Clone, PartialEq, Eq)]
pub struct NumberFormatBuilder {
    fields: Fields,
}

impl Model for NumberFormatBuilder {
    ghost use Rattle.lexical_util.specs.Format.{Format};

    ghost Value = { Format };

    ghost view = { λ a. a.fields };

    ghost inverse = { λ a. record { fields = a } };
}

impl NumberFormatBuilder {
    /// A builder with the fields of [`STANDARD`].
    #[inline]
    pub fn new() -> Self
        ensures { result ≡ standard }
    {
        NumberFormatBuilder {
            fields: STANDARD_FIELDS,
        }
    }

    /// [`STANDARD`] with this radix. Nothing is checked: with a radix that isn't from 2 to 36 the
    /// format is invalid.
    #[inline(always)]
    pub fn from_radix(radix: u8) -> NumberFormat
        ensures { result ≡ record standard { mantissa_radix = radix } }
    {
        NumberFormatBuilder::new()
            .mantissa_radix(radix)
            .build_unchecked()
    }

    /// [`STANDARD`] with the radix 2.
    #[inline]
    pub fn binary() -> NumberFormat
        ensures { result ≡ record standard { mantissa_radix = 2 } }
    {
        NumberFormatBuilder::from_radix(2)
    }

    /// Sets the radix of the digits. A valid format has one from 2 to 36.
    #[inline]
    pub fn mantissa_radix(mut self, value: u8) -> Self
        ensures { result ≡ record self { mantissa_radix = value } }
    {
        self.fields.mantissa_radix = value;
        self
    }

    /// Sets the separator. Flags say where it may be:
    ///
    /// ```rust
    /// // 1_000_000, but not 1__000 or _1.
    /// let format = NumberFormatBuilder::new()
    ///     .digit_separator(Some(b'_'))
    ///     .integer_internal_digit_separator(true)
    ///     .build_unchecked();
    /// ```
    #[inline]
    pub fn digit_separator(mut self, value: Option<u8>) -> Self
        ensures { result ≡ record self { digit_separator = value } }
    {
        self.fields.digit_separator = value;
        self
    }

    /// Sets the prefix: with `Some(b'x')` a text may begin with `0x`, directly after the sign. The
    /// radix stays as it is.
    #[inline]
    pub fn base_prefix(mut self, value: Option<u8>) -> Self
        ensures { result ≡ record self { base_prefix = value } }
    {
        self.fields.base_prefix = value;
        self
    }

    /// Sets the suffix: with `Some(b'h')` a text may end with `h`, directly after its digits.
    #[inline]
    pub fn base_suffix(mut self, value: Option<u8>) -> Self
        ensures { result ≡ record self { base_suffix = value } }
    {
        self.fields.base_suffix = value;
        self
    }

    /// Sets whether the prefix is matched exactly. With `false` ASCII case doesn't matter.
    #[inline]
    pub fn case_sensitive_base_prefix(mut self, value: bool) -> Self
        ensures { result ≡ record self { case_sensitive_base_prefix = value } }
    {
        self.fields.case_sensitive_base_prefix = value;
        self
    }

    /// Sets whether the suffix is matched exactly. With `false` ASCII case doesn't matter.
    #[inline]
    pub fn case_sensitive_base_suffix(mut self, value: bool) -> Self
        ensures { result ≡ record self { case_sensitive_base_suffix = value } }
    {
        self.fields.case_sensitive_base_suffix = value;
        self
    }

    /// Sets whether digits are required in the integer part. They are where this or
    /// `required_mantissa_digits` is set, so setting this one to `false` may not be enough.
    #[inline]
    pub fn required_integer_digits(mut self, value: bool) -> Self
        ensures { result ≡ record self { required_integer_digits = value } }
    {
        self.fields.required_integer_digits = value;
        self
    }

    /// Sets whether digits are required. They are where this or `required_integer_digits` is set, so
    /// setting this one to `false` may not be enough.
    #[inline]
    pub fn required_mantissa_digits(mut self, value: bool) -> Self
        ensures { result ≡ record self { required_mantissa_digits = value } }
    {
        self.fields.required_mantissa_digits = value;
        self
    }

    /// Sets `required_integer_digits` and `required_mantissa_digits` to one value. With `false` a text
    /// without digits is 0, unless it ends with its prefix.
    #[inline]
    pub fn required_digits(self, value: bool) -> Self
        ensures { result ≡ record self {
          required_integer_digits = value;
          required_mantissa_digits = value;
        } }
    {
        self.required_integer_digits(value)
            .required_mantissa_digits(value)
    }

    /// Sets whether a text that begins with `+` is refused.
    #[inline]
    pub fn no_positive_mantissa_sign(mut self, value: bool) -> Self
        ensures { result ≡ record self { no_positive_mantissa_sign = value } }
    {
        self.fields.no_positive_mantissa_sign = value;
        self
    }

    /// Sets whether a text without a sign is refused.
    #[inline]
    pub fn required_mantissa_sign(mut self, value: bool) -> Self
        ensures { result ≡ record self { required_mantissa_sign = value } }
    {
        self.fields.required_mantissa_sign = value;
        self
    }

    /// Sets whether a zero before another digit is refused.
    #[inline]
    pub fn no_integer_leading_zeros(mut self, value: bool) -> Self
        ensures { result ≡ record self { no_integer_leading_zeros = value } }
    {
        self.fields.no_integer_leading_zeros = value;
        self
    }

    /// Sets `integer_leading_digit_separator`, since an integer has no part but the integer part.
    #[inline]
    pub fn leading_digit_separator(self, value: bool) -> Self
        ensures { result ≡ record self { integer_leading_digit_separator = value } }
    {
        self.integer_leading_digit_separator(value)
    }

    /// Sets `integer_internal_digit_separator`.
    #[inline]
    pub fn internal_digit_separator(self, value: bool) -> Self
        ensures { result ≡ record self { integer_internal_digit_separator = value } }
    {
        self.integer_internal_digit_separator(value)
    }

    /// Sets `integer_trailing_digit_separator`.
    #[inline]
    pub fn trailing_digit_separator(self, value: bool) -> Self
        ensures { result ≡ record self { integer_trailing_digit_separator = value } }
    {
        self.integer_trailing_digit_separator(value)
    }

    /// Sets `integer_consecutive_digit_separator`.
    #[inline]
    pub fn consecutive_digit_separator(self, value: bool) -> Self
        ensures { result ≡ record self { integer_consecutive_digit_separator = value } }
    {
        self.integer_consecutive_digit_separator(value)
    }

    /// Sets whether separators may come before the first digit, as in `_12`, or where there is none.
    #[inline]
    pub fn integer_leading_digit_separator(mut self, value: bool) -> Self
        ensures { result ≡ record self { integer_leading_digit_separator = value } }
    {
        self.fields.integer_leading_digit_separator = value;
        self
    }

    /// Sets whether separators may come between two digits, as in `1_2`.
    #[inline]
    pub fn integer_internal_digit_separator(mut self, value: bool) -> Self
        ensures { result ≡ record self { integer_internal_digit_separator = value } }
    {
        self.fields.integer_internal_digit_separator = value;
        self
    }

    /// Sets whether separators may come after the last digit, as in `12_`, or where there is none.
    #[inline]
    pub fn integer_trailing_digit_separator(mut self, value: bool) -> Self
        ensures { result ≡ record self { integer_trailing_digit_separator = value } }
    {
        self.fields.integer_trailing_digit_separator = value;
        self
    }

    /// Sets whether separators may come side by side, as in `1__2`.
    #[inline]
    pub fn integer_consecutive_digit_separator(mut self, value: bool) -> Self
        ensures { result ≡ record self { integer_consecutive_digit_separator = value } }
    {
        self.fields.integer_consecutive_digit_separator = value;
        self
    }

    /// Sets whether separators may come directly after a prefix:
    ///
    /// ```rust
    /// // 0x_1F and 0x1_F, but not _1F.
    /// let format = NumberFormatBuilder::new()
    ///     .literal_prefixes(true)
    ///     .digit_separator(Some(b'_'))
    ///     .integer_internal_digit_separator(true)
    ///     .integer_prefix_digit_separator(true)
    ///     .build_strict();
    /// ```
    #[inline]
    pub fn integer_prefix_digit_separator(mut self, value: bool) -> Self
        ensures { result ≡ record self { integer_prefix_digit_separator = value } }
    {
        self.fields.integer_prefix_digit_separator = value;
        self
    }

    /// Sets whether the text may choose its radix by `0x`, `0o` or `0b`.
    #[inline]
    pub fn literal_prefixes(mut self, value: bool) -> Self
        ensures { result ≡ record self { literal_prefixes = value } }
    {
        self.fields.literal_prefixes = value;
        self
    }

    /// Sets whether a first zero makes a numeral octal:
    ///
    /// ```rust
    /// // C's integers: 511, 0777, 0x1FF and 1'000.
    /// let format = NumberFormatBuilder::new()
    ///     .literal_prefixes(true)
    ///     .literal_octal_zero(true)
    ///     .digit_separator(Some(b'\''))
    ///     .integer_internal_digit_separator(true)
    ///     .build_strict();
    /// ```
    #[inline]
    pub fn literal_octal_zero(mut self, value: bool) -> Self
        ensures { result ≡ record self { literal_octal_zero = value } }
    {
        self.fields.literal_octal_zero = value;
        self
    }

    /// Whether the format is valid as it is so far (`NumberFormat::error` has the rules).
    #[inline]
    pub fn is_valid(&self) -> bool
        ensures { IsTrue result ↔ (fault self.now ≡ None) }
    {
        self.fields.fault().is_none()
    }

    /// The format, valid or not. A parser that takes any format refuses an invalid one with the
    /// fault that `NumberFormat::error` answers.
    #[inline(always)]
    pub fn build_unchecked(&self) -> NumberFormat
        ensures { result ≡ self.now }
    {
        NumberFormat::of(&self.fields)
    }

    /// The format, whose kind has to be this one: it isn't found by the fields.
    #[inline(always)]
    pub fn build_of_kind(&self, kind: FormatKind) -> NumberFormat
        requires { kind ≡ kind_of self.now }
        ensures { result ≡ self.now }
    {
        NumberFormat {
            fields: self.fields,
            kind,
        }
    }

    /// The format, which has to be valid, as `is_valid` tests.
    #[inline(always)]
    pub fn build_strict(&self) -> NumberFormat
        requires { fault self.now ≡ None }
        ensures { result ≡ self.now }
    {
        self.build_unchecked()
    }
}
