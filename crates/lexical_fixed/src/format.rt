//! Descriptions of fixed-point numbers.

ghost use Rattle.std.specs.Prelude.{◌≡◌, ◌↔◌, IsTrue, None, is_some};
ghost use Rattle.lexical_fixed.specs.Validity.{fixed_fault, has_affix, is_unfit_point};

use crate::error::FixedFormatError;
use lexical_util::format::{FormatKind, NumberFormat, STANDARD};
use std::marker::Model;

/// What a text of a fixed-point number may look like: an integer part, and behind a point digits alone.
///
/// Any values of the fields make a description. Whether it is valid is another question, which [`FixedFormat::error`]
/// answers. The fields are public, so a description may be a constant:
///
/// ```rust
/// const THOUSANDTHS: FixedFormat = FixedFormat { places: 3, ..CENTS };
/// ```
#[derive(Debug, Copy, Clone, PartialEq, Eq)]
pub struct FixedFormat {
    /// The byte between integer part and fraction: `.` or `,` mostly.
    pub point: u8,

    /// How many digits stand behind the point, from 0 to 38. The number counts units of the last one: with two
    /// places `12.50` is 1250. Without places no point is read.
    pub places: u8,

    /// Whether fewer digits than `places` are taken behind the point, as if zeros stood for the others: `12.5` is 1250
    /// and so is `12.50`, and `12` is 1200. A point without a digit behind it is never taken.
    pub takes_fewer: bool,

    /// What the integer part may look like: its sign, its separators of groups, its zeros, and whether it needs a digit.
    /// The separator stands in the integer part alone.
    pub integer: NumberFormat,
}

impl Model for FixedFormat {
    ghost use Rattle.lexical_fixed.specs.Fixed.{Fixed};

    ghost Value = { Fixed };

    ghost view = { λ a. record {
      integer = a.integer;
      point = a.point;
      places = a.places;
      takes_fewer = a.takes_fewer;
    } };

    ghost inverse = { λ a. record {
      integer = a.integer;
      point = a.point;
      places = a.places;
      takes_fewer = a.takes_fewer;
    } };
}

/// Two places behind a `.`, or fewer: `12.50`, `12.5` and `12` are read.
pub const CENTS: FixedFormat = FixedFormat {
    point: b'.',
    places: 2,
    takes_fewer: true,
    integer: STANDARD,
};

impl FixedFormat {
    /// The first rule that the description breaks, and `None` where it is valid.
    ///
    /// 1. The format of the integer part is valid; else `Integer` with its fault.
    /// 2. Its radix is 10; else `Radix`.
    /// 3. It has no prefix, no suffix, no literal prefixes and no octal zeros; else `Affix`.
    /// 4. The point is neither a decimal digit, nor `+` or `-`, nor the separator; else `Point`.
    /// 5. There are at most 38 places; else `Places`.
    #[inline(always)]
    pub fn error(&self) -> Option<FixedFormatError>
        ensures { result ≡ fixed_fault self.now }
    {
        if self.is_plain() {
            return None;
        }
        self.first_fault()
    }

    // The first rule that the description breaks: by the rules, one after the other.
    #[inline(never)]
    fn first_fault(&self) -> Option<FixedFormatError>
        ensures { result ≡ fixed_fault self.now }
    {
        if let Some(error) = self.integer.error() {
            return Some(FixedFormatError::Integer(error));
        }
        if self.integer.radix() != 10 {
            Some(FixedFormatError::Radix)
        } else if has_affix(&self.integer) {
            Some(FixedFormatError::Affix)
        } else if is_unfit_point(&self.integer, self.point) {
            Some(FixedFormatError::Point)
        } else if self.places > 38 {
            Some(FixedFormatError::Places)
        } else {
            None
        }
    }

    /// Whether a few tests suffice to show that the description is valid: most have neither a separator nor a required
    /// sign.
    ///
    /// `false` says nothing of the description.
    #[inline(always)]
    pub fn is_plain(&self) -> bool
        ensures { IsTrue result → fixed_fault self.now ≡ None }
    {
        match self.integer.kind() {
            FormatKind::Decimal => !is_unfit_point(&self.integer, self.point) && self.places <= 38,
            _ => false,
        }
    }

    /// What the integer part may look like.
    #[inline(always)]
    pub fn integer(&self) -> &NumberFormat
        ensures { result.now ≡ self.now.integer }
    {
        &self.integer
    }

    /// The byte between integer part and fraction.
    #[inline(always)]
    pub fn point(&self) -> u8
        ensures { result ≡ self.now.point }
    {
        self.point
    }

    /// How many digits stand behind the point.
    #[inline(always)]
    pub fn places(&self) -> usize
        ensures { result ≡ self.now.places }
    {
        usize::from(self.places)
    }

    /// Whether fewer digits than `places` are taken behind the point.
    #[inline(always)]
    pub fn takes_fewer(&self) -> bool
        ensures { result ≡ self.now.takes_fewer }
    {
        self.takes_fewer
    }

    /// Whether the description breaks no rule, so that `error` answers `None`.
    #[inline]
    pub fn is_valid(&self) -> bool
        ensures { IsTrue result ↔ (fixed_fault self.now ≡ None) }
    {
        self.error().is_none()
    }
}

// Whether the format has what names another radix or stands behind digits.
#[inline]
fn has_affix(format: &NumberFormat) -> bool
    ensures { result ≡ has_affix format.now }
{
    format.base_prefix().is_some()
        || format.base_suffix().is_some()
        || format.literal_prefixes()
        || format.literal_octal_zero()
}

// Whether the byte is a sign, a decimal digit or the separator.
#[inline]
#[tactic(auto, unfolding(lexical_parse_integer::specs::Runs::are_same))]
fn is_unfit_point(format: &NumberFormat, byte: u8) -> bool
    ensures { result ≡ is_unfit_point format.now byte }
{
    byte == b'+' || byte == b'-' || byte.is_ascii_digit() || format.digit_separator() == Some(byte)
}
