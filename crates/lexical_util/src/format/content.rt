// What a format says, field by field, and the rules that its fields may break.
// Its lists of fields are written from tools/fields.txt, by `make docs`.

ghost use Rattle.std.specs.Prelude.{◌≡◌, IsTrue, None, Some};
ghost use Rattle.lexical_util.specs.Kind.{is_punctuated};
ghost use Rattle.lexical_util.specs.Validity.{fault, has_unfit_literals};

use super::validity::{are_alike, is_unfit, is_unfit_beside_literals};
use crate::error::Error;
use std::marker::Model;

// The fields of a format: any values of them.
#[derive(Debug, Copy, Clone, PartialEq, Eq)]
pub(super) struct Fields {
    pub(super) mantissa_radix: u8,
    pub(super) case_sensitive_base_prefix: bool,
    pub(super) case_sensitive_base_suffix: bool,
    pub(super) required_integer_digits: bool,
    pub(super) required_mantissa_digits: bool,
    pub(super) no_positive_mantissa_sign: bool,
    pub(super) required_mantissa_sign: bool,
    pub(super) no_integer_leading_zeros: bool,
    pub(super) integer_leading_digit_separator: bool,
    pub(super) integer_internal_digit_separator: bool,
    pub(super) integer_trailing_digit_separator: bool,
    pub(super) integer_consecutive_digit_separator: bool,
    pub(super) integer_prefix_digit_separator: bool,
    pub(super) literal_prefixes: bool,
    pub(super) literal_octal_zero: bool,
    // These stand last because the derived equality is proved in this order alone.
    pub(super) digit_separator: Option<u8>,
    pub(super) base_prefix: Option<u8>,
    pub(super) base_suffix: Option<u8>,
}

impl Model for Fields {
    ghost use Rattle.lexical_util.specs.Format.{Format};

    ghost Value = { Format };

    ghost view = { λ a. record {
      mantissa_radix = a.mantissa_radix;
      digit_separator = a.digit_separator;
      base_prefix = a.base_prefix;
      base_suffix = a.base_suffix;
      case_sensitive_base_prefix = a.case_sensitive_base_prefix;
      case_sensitive_base_suffix = a.case_sensitive_base_suffix;
      required_integer_digits = a.required_integer_digits;
      required_mantissa_digits = a.required_mantissa_digits;
      no_positive_mantissa_sign = a.no_positive_mantissa_sign;
      required_mantissa_sign = a.required_mantissa_sign;
      no_integer_leading_zeros = a.no_integer_leading_zeros;
      integer_leading_digit_separator = a.integer_leading_digit_separator;
      integer_internal_digit_separator = a.integer_internal_digit_separator;
      integer_trailing_digit_separator = a.integer_trailing_digit_separator;
      integer_consecutive_digit_separator = a.integer_consecutive_digit_separator;
      integer_prefix_digit_separator = a.integer_prefix_digit_separator;
      literal_prefixes = a.literal_prefixes;
      literal_octal_zero = a.literal_octal_zero;
    } };

    ghost inverse = { λ a. record {
      mantissa_radix = a.mantissa_radix;
      digit_separator = a.digit_separator;
      base_prefix = a.base_prefix;
      base_suffix = a.base_suffix;
      case_sensitive_base_prefix = a.case_sensitive_base_prefix;
      case_sensitive_base_suffix = a.case_sensitive_base_suffix;
      required_integer_digits = a.required_integer_digits;
      required_mantissa_digits = a.required_mantissa_digits;
      no_positive_mantissa_sign = a.no_positive_mantissa_sign;
      required_mantissa_sign = a.required_mantissa_sign;
      no_integer_leading_zeros = a.no_integer_leading_zeros;
      integer_leading_digit_separator = a.integer_leading_digit_separator;
      integer_internal_digit_separator = a.integer_internal_digit_separator;
      integer_trailing_digit_separator = a.integer_trailing_digit_separator;
      integer_consecutive_digit_separator = a.integer_consecutive_digit_separator;
      integer_prefix_digit_separator = a.integer_prefix_digit_separator;
      literal_prefixes = a.literal_prefixes;
      literal_octal_zero = a.literal_octal_zero;
    } };
}

// The fields of `STANDARD`.
pub(super) const STANDARD_FIELDS: Fields = Fields {
    mantissa_radix: 10,
    digit_separator: None,
    base_prefix: None,
    base_suffix: None,
    case_sensitive_base_prefix: false,
    case_sensitive_base_suffix: false,
    required_integer_digits: false,
    required_mantissa_digits: true,
    no_positive_mantissa_sign: false,
    required_mantissa_sign: false,
    no_integer_leading_zeros: false,
    integer_leading_digit_separator: false,
    integer_internal_digit_separator: false,
    integer_trailing_digit_separator: false,
    integer_consecutive_digit_separator: false,
    integer_prefix_digit_separator: false,
    literal_prefixes: false,
    literal_octal_zero: false,
};

impl Fields {
    // Whether the fields set punctuation, or ask for a sign, by one test of all.
    #[inline(always)]
    pub(super) fn is_punctuated(&self) -> bool
        ensures { result ≡ is_punctuated self.now }
    {
        self.digit_separator.is_some()
            | self.base_prefix.is_some()
            | self.base_suffix.is_some()
            | self.literal_prefixes
            | self.literal_octal_zero
            | self.required_mantissa_sign
    }

    // Whether fields with a separator are surely valid: they are decimal, have no prefix of their own and no suffix,
    // and the separator is no letter if there are literal prefixes.
    #[inline(always)]
    pub(super) fn is_valid_with_separator(&self, separator: u8) -> bool
        requires { self.now.digit_separator ≡ Some separator }
        ensures { IsTrue result → fault self.now ≡ None }
    {
        if self.base_suffix.is_some() | self.base_prefix.is_some() | (self.mantissa_radix != 10) {
            return false;
        }
        if separator > b'9' {
            return separator == b'_' || (separator < 128 && !self.literal_prefixes);
        }
        separator < b'0' && separator != b'+' && separator != b'-'
    }

    // Whether fields without a separator are surely valid. They have no suffix. Without a prefix of their own the radix
    // is 10, or there are no literals; with one the radix is 16, there are no literals, and the prefix is above `f`.
    #[inline(always)]
    pub(super) fn is_valid_without_separator(&self) -> bool
        requires { self.now.digit_separator ≡ None }
        ensures { IsTrue result → fault self.now ≡ None }
    {
        if self.base_suffix.is_some() {
            return false;
        }
        let radix = self.mantissa_radix;
        let has_literals = self.literal_prefixes | self.literal_octal_zero;
        let Some(prefix) = self.base_prefix else {
            return radix == 10 || (radix >= 2 && radix <= 36 && !has_literals);
        };
        let is_past_digits = prefix > b'f' && prefix < 128;
        radix == 16 && !has_literals && is_past_digits
    }

    // The first rule that the fields break.
    #[inline(always)]
    pub(super) fn fault(&self) -> Option<Error>
        ensures { result ≡ fault self.now }
    {
        let radix = u32::from(self.mantissa_radix);
        if radix < 2 || radix > 36 {
            Some(Error::InvalidMantissaRadix)
        } else if is_unfit(self.digit_separator, radix) {
            Some(Error::InvalidDigitSeparator)
        } else if is_unfit(self.base_prefix, radix) {
            Some(Error::InvalidBasePrefix)
        } else if is_unfit(self.base_suffix, radix) {
            Some(Error::InvalidBaseSuffix)
        } else if are_alike(self.digit_separator, self.base_prefix)
            || are_alike(self.digit_separator, self.base_suffix)
            || are_alike(self.base_prefix, self.base_suffix)
        {
            Some(Error::InvalidPunctuation)
        } else if self.has_unfit_literals() {
            Some(Error::InvalidLiteralPrefixes)
        } else {
            None
        }
    }

    // Whether literal prefixes or octal zeros are asked for beside a radix or punctuation that doesn't allow them.
    #[inline(always)]
    fn has_unfit_literals(&self) -> bool
        ensures { result ≡ has_unfit_literals self.now }
    {
        let are_asked_for = self.literal_prefixes;
        let chooses_radix = are_asked_for || self.literal_octal_zero;
        (chooses_radix && self.mantissa_radix != 10)
            || (are_asked_for
                && (self.base_prefix.is_some()
                    || is_unfit_beside_literals(self.digit_separator)
                    || is_unfit_beside_literals(self.base_suffix)))
    }
}
