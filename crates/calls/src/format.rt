//! A format from the bytes of its fields.

use lexical_parse_integer::{NumberFormat, NumberFormatBuilder};

// A byte of punctuation, where 0 is none.
fn punctuation(byte: u8) -> Option<u8> {
    (byte != 0).then_some(byte)
}

/// The format whose fields are these bytes, in the order that they have in C.
pub fn format_of(bytes: &[u8; 18]) -> NumberFormat {
    NumberFormatBuilder::new()
        .mantissa_radix(bytes[0])
        .digit_separator(punctuation(bytes[1]))
        .base_prefix(punctuation(bytes[2]))
        .base_suffix(punctuation(bytes[3]))
        .case_sensitive_base_prefix(bytes[4] != 0)
        .case_sensitive_base_suffix(bytes[5] != 0)
        .required_integer_digits(bytes[6] != 0)
        .required_mantissa_digits(bytes[7] != 0)
        .no_positive_mantissa_sign(bytes[8] != 0)
        .required_mantissa_sign(bytes[9] != 0)
        .no_integer_leading_zeros(bytes[10] != 0)
        .integer_leading_digit_separator(bytes[11] != 0)
        .integer_internal_digit_separator(bytes[12] != 0)
        .integer_trailing_digit_separator(bytes[13] != 0)
        .integer_consecutive_digit_separator(bytes[14] != 0)
        .integer_prefix_digit_separator(bytes[15] != 0)
        .literal_prefixes(bytes[16] != 0)
        .literal_octal_zero(bytes[17] != 0)
        .build_unchecked()
}
