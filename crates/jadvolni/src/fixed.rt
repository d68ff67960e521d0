//! Descriptions of fixed-point numbers as C writes them, byte by byte.

ghost use Rattle.std.specs.Prelude.{◌≡◌, IsTrue, None, true};
ghost use Rattle.lexical_fixed.specs.Validity.{fixed_fault};
ghost use Rattle.lexical_util.specs.Format.{standard};
ghost use Rattle.lexical_util.specs.Kind.{kind_of};
ghost use Rattle.lexical_util.specs.declared.format.kind.FormatKind.TheVariants.{Decimal};
ghost use Rattle.jadvolni.specs.Fixed.{IsPlainFixed, fixed_format_status, fixed_known, fixed_of, fixed_status, integer_of, separated};
ghost use Rattle.jadvolni.specs.FormatFields.{are_known, are_zeros, format_of};
ghost use Rattle.jadvolni.specs.Tables.{number_status};

use crate::format::FormatFields;
use crate::outcome::{UNKNOWN_FIELD, status_of};
use lexical_fixed::{FixedFormat, FixedFormatError};
use lexical_parse_integer::NumberFormatBuilder;
use lexical_parse_integer::format::STANDARD;
use lexical_util::format::FormatKind;

/// A description of fixed-point numbers, byte by byte: `jadvolni_fixed` in C, where each field is described.
///
/// Any bytes may be here: the calls refuse what breaks a rule.
#[repr(C)]
#[derive(Copy, Clone)]
pub struct FixedFields {
    pub integer: FormatFields,
    pub point: u8,
    pub places: u8,
    pub takes_fewer: u8,
    pub reserved: [u8; 13],
}

// Makes the fields of the integer part those of its format: a radix of 0 becomes 10, and then a digit is required.
#[inline(always)]
fn set_radix(fields: &mut FormatFields)
    ensures { format_of fields.new ≡ integer_of fields.old }
{
    if fields.mantissa_radix == 0 {
        fields.mantissa_radix = 10;
        fields.required_mantissa_digits = 1;
    }
}

// The status of a fault of a description.
pub(crate) fn fixed_status(error: FixedFormatError) -> u32
    ensures { result ≡ fixed_status error }
{
    match error {
        FixedFormatError::Integer(error) => status_of(&error),
        FixedFormatError::Radix => 19,
        FixedFormatError::Affix => 20,
        FixedFormatError::Point => 21,
        FixedFormatError::Places => 22,
    }
}

impl FixedFields {
    /// Whether the bits and bytes that are kept for later versions are 0.
    pub fn are_known(&self) -> bool
        ensures { result ≡ fixed_known self.now }
    {
        self.integer.are_known() && self.keeps_reserved()
    }

    // Whether the reserved bytes are 0. `FormatFields` tests them, as if they were those of a format.
    #[inline(always)]
    fn keeps_reserved(&self) -> bool
        ensures { result ≡ are_zeros self.now.reserved }
    {
        let kept = FormatFields {
            nul_is_punctuation: 0,
            reserved: self.reserved,
            ..self.integer
        };
        kept.are_known()
    }

    // The status of the format if there are no places, and otherwise of the description. A decimal format without
    // punctuation, as most columns have, isn't tested rule by rule.
    pub(crate) fn number_status(&self) -> u32
        ensures { result ≡ number_status self.now }
    {
        if !self.keeps_reserved() {
            return UNKNOWN_FIELD;
        }
        if self.places == 0 {
            if self.integer.is_plain_decimal() {
                return 0;
            }
            return self.integer.status();
        }
        self.description_status()
    }

    // The status of the description, as C gets it. Two calls need it, once each.
    #[inline(never)]
    fn description_status(&self) -> u32
        ensures { result ≡ fixed_format_status self.now }
    {
        if !self.are_known() {
            return UNKNOWN_FIELD;
        }
        match self.format().error() {
            None => 0,
            Some(error) => fixed_status(error),
        }
    }

    // Whether the integer part has the standard format, and nothing that is unknown: its fields say so, or all are 0.
    #[inline(always)]
    pub(crate) fn has_standard_integer(&self) -> bool
        ensures known { IsTrue result → IsTrue (are_known self.now.integer) }
        ensures integer { IsTrue result → integer_of self.now.integer ≡ standard }
    {
        self.integer.is_standard() || self.integer.is_zero()
    }

    // Whether the integer part is decimal and has no punctuation, and nothing that is unknown.
    #[inline(always)]
    pub(crate) fn has_decimal_integer(&self) -> bool
        ensures known { IsTrue result → IsTrue (are_known self.now.integer) }
        ensures kind { IsTrue result → kind_of (integer_of self.now.integer) ≡ Decimal }
    {
        self.integer.is_plain_decimal() || self.integer.is_plain_but_radix()
    }

    // Whether the description is valid and its integer part has the standard format: a few of its words show this.
    #[inline(always)]
    pub(crate) fn is_valid_standard(&self) -> bool
        ensures { IsTrue result → IsPlainFixed self.now }
    {
        self.has_standard_integer() && self.keeps_reserved() && self.standard().is_plain()
    }

    // Whether the description is valid. Its integer part has to be decimal and without punctuation.
    #[inline(always)]
    pub(crate) fn is_valid_decimal(&self) -> bool
        requires known { IsTrue (are_known self.now.integer) }
        requires kind { kind_of (integer_of self.now.integer) ≡ Decimal }
        ensures known { IsTrue result → fixed_known self.now ≡ true }
        ensures valid { IsTrue result → fixed_fault (fixed_of self.now) ≡ None }
    {
        self.keeps_reserved() && self.decimal().is_plain()
    }

    // The description, whose integer part is decimal and has no punctuation.
    #[inline(always)]
    pub(crate) fn decimal(&self) -> FixedFormat
        requires { kind_of (integer_of self.now.integer) ≡ Decimal }
        ensures { result ≡ fixed_of self.now }
    {
        let mut integer = self.integer;
        set_radix(&mut integer);
        FixedFormat {
            integer: integer.decimal_format(),
            ..self.standard()
        }
    }

    // The description with the standard format for its integer part: that format isn't built field by field.
    #[inline(always)]
    pub(crate) fn standard(&self) -> FixedFormat
        ensures { result ≡ record (fixed_of self.now) { integer = standard } }
    {
        FixedFormat {
            point: if self.point == 0 { b'.' } else { self.point },
            places: self.places,
            takes_fewer: self.takes_fewer != 0,
            integer: STANDARD,
        }
    }

    // Whether the integer part's format forbids leading zeros.
    #[inline(always)]
    pub(crate) fn has_zero_rule(&self) -> bool
        ensures { result ≡ (fixed_of self.now).integer.no_integer_leading_zeros }
    {
        self.integer.no_integer_leading_zeros != 0
    }

    // Whether the integer part asks for a separator between digits, and has the standard format in all else.
    #[inline(always)]
    pub(crate) fn has_separator_alone(&self) -> bool
        ensures { IsTrue result → integer_of self.now.integer ≡ separated self.now.integer }
    {
        if self.integer.digit_separator == 0 || self.integer.integer_internal_digit_separator == 0 {
            return false;
        }
        let rest = FormatFields {
            digit_separator: 0,
            integer_internal_digit_separator: 0,
            ..self.integer
        };
        rest.is_standard() || rest.is_zero()
    }

    // The description of fields that `has_separator_alone` takes. It has to be valid, and isn't built field by field.
    #[inline(always)]
    pub(crate) fn separated(&self) -> FixedFormat
        requires valid { fixed_fault (fixed_of self.now) ≡ None }
        requires alone { integer_of self.now.integer ≡ separated self.now.integer }
        ensures { result ≡ fixed_of self.now }
    {
        FixedFormat {
            integer: NumberFormatBuilder::new()
                .mantissa_radix(10)
                .required_mantissa_digits(true)
                .digit_separator(Some(self.integer.digit_separator))
                .integer_internal_digit_separator(true)
                .build_of_kind(FormatKind::Other),
            ..self.standard()
        }
    }

    // The description of fields for which it is valid, as for each cell of a column.
    #[inline(always)]
    pub(crate) fn valid_format(&self) -> FixedFormat
        requires { fixed_fault (fixed_of self.now) ≡ None }
        ensures { result ≡ fixed_of self.now }
    {
        let mut integer = self.integer;
        set_radix(&mut integer);
        FixedFormat {
            integer: integer.valid_format(),
            ..self.standard()
        }
    }

    /// The description that the fields stand for, which may be invalid.
    #[inline(always)]
    pub fn format(&self) -> FixedFormat
        ensures { result ≡ fixed_of self.now }
    {
        let mut integer = self.integer;
        set_radix(&mut integer);
        FixedFormat {
            integer: integer.format(),
            ..self.standard()
        }
    }
}

/// 64 if a reserved byte or bit isn't 0; otherwise the status of the first rule that the description breaks, or 0.
#[unsafe(no_mangle)]
pub extern "C" fn jadvolni_fixed_error(fixed: &FixedFields) -> u32
    ensures { result ≡ fixed_format_status fixed.now }
{
    fixed.description_status()
}
