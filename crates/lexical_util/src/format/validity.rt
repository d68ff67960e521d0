// The tests that decide whether a format is valid.

ghost use Rattle.std.specs.Prelude.{◌≡◌};
ghost use Rattle.lexical_util.specs.Digit.{IsRadix};
ghost use Rattle.lexical_util.specs.Validity.{are_alike, is_literal_letter, is_unfit, is_unfit_beside_literals};

use crate::digit::char_is_digit;

// Whether a separator, prefix or suffix is set to a byte that can't be one.
#[inline(always)]
pub(super) fn is_unfit(punctuation: Option<u8>, radix: u32) -> bool
    requires { IsRadix radix }
    ensures { result ≡ is_unfit radix punctuation }
{
    match punctuation {
        None => false,
        Some(byte) => {
            !byte.is_ascii() || byte == b'+' || byte == b'-' || char_is_digit(byte, radix)
        }
    }
}

// Whether both are set, to one byte or to one letter in two cases.
#[inline(always)]
pub(super) fn are_alike(punctuation: Option<u8>, other: Option<u8>) -> bool
    ensures { result ≡ are_alike punctuation other }
{
    match (punctuation, other) {
        (Some(punctuation), Some(other)) => punctuation.eq_ignore_ascii_case(&other),
        _ => false,
    }
}

// Whether the byte is the letter of a literal prefix, in either case.
#[inline(always)]
fn is_literal_letter(byte: u8) -> bool
    ensures { result ≡ is_literal_letter byte }
{
    let letter = byte.to_ascii_lowercase();
    letter == b'x' || letter == b'o' || letter == b'b'
}

// Whether a separator or suffix is set to a byte that literal prefixes need.
#[inline(always)]
pub(super) fn is_unfit_beside_literals(punctuation: Option<u8>) -> bool
    ensures { result ≡ is_unfit_beside_literals punctuation }
{
    match punctuation {
        None => false,
        Some(byte) => char_is_digit(byte, 16) || is_literal_letter(byte),
    }
}
