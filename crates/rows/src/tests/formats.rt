// Formats by their fields: each bit of a number stands for one that isn't the standard format's.
// Its lists of fields are written from tools/fields.txt, by `make docs`.
use lexical_parse_integer::{NumberFormat, NumberFormatBuilder};

// The separator, the prefix and the suffix are byte 0, and not `_`, `x` and `h`.
pub(super) const BYTE_ZERO: u32 = 1;

pub(super) const SEPARATOR: u32 = 2;

pub(super) const PREFIX: u32 = 4;

pub(super) const SUFFIX: u32 = 8;

pub(super) const PREFIX_CASE: u32 = 16;

pub(super) const SUFFIX_CASE: u32 = 32;

pub(super) const INTEGER_DIGITS: u32 = 64;

pub(super) const DIGITS_OPTIONAL: u32 = 128;

pub(super) const NO_PLUS: u32 = 256;

pub(super) const SIGN_REQUIRED: u32 = 512;

pub(super) const NO_LEADING_ZEROS: u32 = 1_024;

pub(super) const LEADING: u32 = 2_048;

pub(super) const INTERNAL: u32 = 4_096;

pub(super) const TRAILING: u32 = 8_192;

pub(super) const CONSECUTIVE: u32 = 16_384;

pub(super) const BEHIND_PREFIX: u32 = 32_768;

pub(super) const LITERAL_PREFIXES: u32 = 65_536;

pub(super) const OCTAL_ZERO: u32 = 131_072;

// The byte, where this bit is set.
fn punctuation(bits: u32, bit: u32, byte: u8) -> Option<u8> {
    let byte = if bits & BYTE_ZERO != 0 { 0 } else { byte };
    if bits & bit != 0 { Some(byte) } else { None }
}

// The flag, which isn't that of the standard format where this bit is set.
fn flag(bits: u32, bit: u32, standard: bool) -> bool {
    (bits & bit != 0) != standard
}

// The flags that say where separators may be, which stand in a row: 16 settings. Below 8 none has CONSECUTIVE.
pub(super) fn setting(number: u32) -> u32 {
    number.wrapping_mul(LEADING)
}

// The format of this radix with the fields of these bits.
pub(super) fn format_of(radix: u8, bits: u32) -> NumberFormat {
    NumberFormatBuilder::new()
        .mantissa_radix(radix)
        .digit_separator(punctuation(bits, SEPARATOR, b'_'))
        .base_prefix(punctuation(bits, PREFIX, b'x'))
        .base_suffix(punctuation(bits, SUFFIX, b'h'))
        .case_sensitive_base_prefix(flag(bits, PREFIX_CASE, false))
        .case_sensitive_base_suffix(flag(bits, SUFFIX_CASE, false))
        .required_integer_digits(flag(bits, INTEGER_DIGITS, false))
        .required_mantissa_digits(flag(bits, DIGITS_OPTIONAL, true))
        .no_positive_mantissa_sign(flag(bits, NO_PLUS, false))
        .required_mantissa_sign(flag(bits, SIGN_REQUIRED, false))
        .no_integer_leading_zeros(flag(bits, NO_LEADING_ZEROS, false))
        .integer_leading_digit_separator(flag(bits, LEADING, false))
        .integer_internal_digit_separator(flag(bits, INTERNAL, false))
        .integer_trailing_digit_separator(flag(bits, TRAILING, false))
        .integer_consecutive_digit_separator(flag(bits, CONSECUTIVE, false))
        .integer_prefix_digit_separator(flag(bits, BEHIND_PREFIX, false))
        .literal_prefixes(flag(bits, LITERAL_PREFIXES, false))
        .literal_octal_zero(flag(bits, OCTAL_ZERO, false))
        .build_unchecked()
}
