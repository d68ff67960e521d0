//! What the bytes of a format ask for, read as words: so that a call from C needs few tests to know a common format.

ghost use Rattle.std.specs.Int.{from_le_bytes, w64};
ghost use Rattle.std.specs.Prelude.{◌≡◌, ◌&&◌, ◌∷◌, [], IsTrue};
ghost use Rattle.lexical_util.specs.Ascii.{letter_x};
ghost use Rattle.jadvolni.specs.FormatFields.{are_zeros, flag};

use crate::format::FormatFields;
use std::simd::prelude::*;

// The first eight bytes as a word: the radix, punctuation and its case, and which digits are required.
#[inline(always)]
fn first_word(fields: &FormatFields) -> u64
    ensures { result ≡ from_le_bytes w64 (
        fields.now.mantissa_radix ∷ fields.now.digit_separator ∷ fields.now.base_prefix
        ∷ fields.now.base_suffix ∷ fields.now.case_sensitive_base_prefix
        ∷ fields.now.case_sensitive_base_suffix ∷ fields.now.required_integer_digits
        ∷ fields.now.required_mantissa_digits ∷ []) }
{
    u64::from_le_bytes([
        fields.mantissa_radix,
        fields.digit_separator,
        fields.base_prefix,
        fields.base_suffix,
        fields.case_sensitive_base_prefix,
        fields.case_sensitive_base_suffix,
        fields.required_integer_digits,
        fields.required_mantissa_digits,
    ])
}

// Whether a digit is required, and the fields before that one ask for nothing but a radix.
#[inline(always)]
#[tactic(auto, using(crate::proofs::ZeroBytes::radix_and_flag))]
pub(crate) fn asks_for_digits(fields: &FormatFields) -> bool
    ensures { result ≡ (flag fields.now.required_mantissa_digits && are_zeros (
        fields.now.digit_separator ∷ fields.now.base_prefix ∷ fields.now.base_suffix
        ∷ fields.now.case_sensitive_base_prefix ∷ fields.now.case_sensitive_base_suffix
        ∷ fields.now.required_integer_digits ∷ [])) }
{
    let radix = fields.mantissa_radix as u64;
    let required = fields.required_mantissa_digits as u64;
    required != 0 && first_word(fields) == radix + required * 0x100_0000_0000_0000
}

// Whether the first eight bytes ask for digits of radix 10, and for no more, by a flag of 1.
#[inline(always)]
#[tactic(auto, using(crate::proofs::ZeroBytes::standard_word))]
pub(crate) fn asks_for_ten_alone(fields: FormatFields) -> bool
    ensures radix { IsTrue result → fields.mantissa_radix ≡ 10 }
    ensures digits { IsTrue result → fields.required_mantissa_digits ≡ 1 }
    ensures rest { IsTrue result → IsTrue (are_zeros (
        fields.digit_separator ∷ fields.base_prefix ∷ fields.base_suffix
        ∷ fields.case_sensitive_base_prefix ∷ fields.case_sensitive_base_suffix
        ∷ fields.required_integer_digits ∷ [])) }
{
    first_word(&fields) == 0x100_0000_0000_000A
}

// Whether the first four bytes ask for hexadecimal digits behind `0x`, and for no more.
#[inline(always)]
#[tactic(auto, using(crate::proofs::ZeroBytes::word_of_x))]
pub(crate) fn asks_for_x(fields: FormatFields) -> bool
    ensures radix { IsTrue result → fields.mantissa_radix ≡ 16 }
    ensures separator { IsTrue result → fields.digit_separator ≡ 0 }
    ensures prefix { IsTrue result → fields.base_prefix ≡ letter_x }
    ensures suffix { IsTrue result → fields.base_suffix ≡ 0 }
{
    let first = u32::from_le_bytes([
        fields.mantissa_radix,
        fields.digit_separator,
        fields.base_prefix,
        fields.base_suffix,
    ]);
    first == 0x78_0010
}

// Whether the first eight bytes are 0.
#[inline(always)]
#[tactic(auto, using(crate::proofs::ZeroBytes::word_of_zeros))]
pub(crate) fn asks_for_nothing_first(fields: &FormatFields) -> bool
    ensures { result ≡ are_zeros (
        fields.now.mantissa_radix ∷ fields.now.digit_separator ∷ fields.now.base_prefix
        ∷ fields.now.base_suffix ∷ fields.now.case_sensitive_base_prefix
        ∷ fields.now.case_sensitive_base_suffix ∷ fields.now.required_integer_digits
        ∷ fields.now.required_mantissa_digits ∷ []) }
{
    first_word(fields) == 0
}

// Whether nothing is asked for of signs, zeros and separators: the next eight bytes.
#[inline(always)]
#[tactic(auto, using(crate::proofs::ZeroBytes::word_of_zeros))]
pub(crate) fn asks_for_no_signs(fields: &FormatFields) -> bool
    ensures { result ≡ are_zeros (
        fields.now.no_positive_mantissa_sign ∷ fields.now.required_mantissa_sign
        ∷ fields.now.no_integer_leading_zeros ∷ fields.now.integer_leading_digit_separator
        ∷ fields.now.integer_internal_digit_separator
        ∷ fields.now.integer_trailing_digit_separator
        ∷ fields.now.integer_consecutive_digit_separator
        ∷ fields.now.integer_prefix_digit_separator ∷ []) }
{
    let word = u64::from_le_bytes([
        fields.no_positive_mantissa_sign,
        fields.required_mantissa_sign,
        fields.no_integer_leading_zeros,
        fields.integer_leading_digit_separator,
        fields.integer_internal_digit_separator,
        fields.integer_trailing_digit_separator,
        fields.integer_consecutive_digit_separator,
        fields.integer_prefix_digit_separator,
    ]);
    word == 0
}

// Whether no literal prefix and no byte 0 is asked for, and nothing that is unknown: the last sixteen bytes.
#[inline(always)]
#[tactic(auto, using(crate::proofs::ZeroBytes::lanes_of_zeros))]
pub(crate) fn asks_for_no_literals(fields: &FormatFields) -> bool
    ensures { result ≡ (are_zeros (
        fields.now.literal_prefixes ∷ fields.now.literal_octal_zero
        ∷ fields.now.nul_is_punctuation ∷ fields.now.reserved)) }
{
    let [a, b, c, d, e, f, g, h, i, j, k, l, m] = fields.reserved;
    let last = u8x16::from_array([
        fields.literal_prefixes,
        fields.literal_octal_zero,
        fields.nul_is_punctuation,
        a,
        b,
        c,
        d,
        e,
        f,
        g,
        h,
        i,
        j,
        k,
        l,
        m,
    ]);
    last.simd_eq(u8x16::splat(0)).to_bitmask() == 0xFFFF
}
