// Faults: which test holds of each, its place, and its text.

ghost use Rattle.std.specs.Prelude.{◌≡◌, IfOk, string_bytes};
ghost use Rattle.lexical_util.specs.Faults.{fault_text};

use crate::tests::answers;
use lexical_util::error::Error;
use std::alloc::{AllocError, Allocator, Global};
use std::error;
use std::process::Abort;
use std::test::Fail;

// Which of the thirteen tests hold, in the order of the variants.
fn tests_of(fault: &Error) -> [bool; 13] {
    [
        fault.is_overflow(),
        fault.is_underflow(),
        fault.is_invalid_digit(),
        fault.is_empty(),
        fault.is_missing_sign(),
        fault.is_invalid_positive_sign(),
        fault.is_invalid_leading_zeros(),
        fault.is_invalid_mantissa_radix(),
        fault.is_invalid_digit_separator(),
        fault.is_invalid_base_prefix(),
        fault.is_invalid_base_suffix(),
        fault.is_invalid_punctuation(),
        fault.is_invalid_literal_prefixes(),
    ]
}

// The fault has this place, and of the thirteen tests only the one with this number holds.
fn is_of(rt: &impl Abort, fault: Error, place: Option<usize>, variant: usize) {
    let mut want = [false; 13];
    if let Some(holds) = want.get_mut(variant) {
        *holds = true;
    }
    answers(
        rt,
        (fault, fault.index(), tests_of(&fault)),
        (fault, place, want),
    );
}

#[test]
fn faults_and_their_places(rt: HostRuntime) {
    is_of(&rt, Error::Overflow(19), Some(19), 0);
    is_of(&rt, Error::Underflow(3), Some(3), 1);
    is_of(&rt, Error::InvalidDigit(1), Some(1), 2);
    is_of(&rt, Error::Empty(0), Some(0), 3);
    is_of(&rt, Error::MissingSign(0), Some(0), 4);
    is_of(&rt, Error::InvalidPositiveSign(0), Some(0), 5);
    is_of(&rt, Error::InvalidLeadingZeros(1), Some(1), 6);
    is_of(&rt, Error::InvalidMantissaRadix, None, 7);
    is_of(&rt, Error::InvalidDigitSeparator, None, 8);
    is_of(&rt, Error::InvalidBasePrefix, None, 9);
    is_of(&rt, Error::InvalidBaseSuffix, None, 10);
    is_of(&rt, Error::InvalidPunctuation, None, 11);
    is_of(&rt, Error::InvalidLiteralPrefixes, None, 12);
}

// A caller knows the text of a fault by the contract of `Display`.
fn text_of<A: Allocator>(alloc: A, fault: &Error) -> Result<String<A>, AllocError>
    ensures { IfOk result (λ text. string_bytes text ≡ fault_text fault.now) }
{
    fault.to_string(alloc)
}

// A caller that handles errors of many crates gets the text by a bound.
fn message_of<A: Allocator, E: error::Error>(alloc: A, e: &E) -> Result<String<A>, AllocError> {
    format!(in alloc; "{e}")
}

// Both calls write this text of a fault.
fn has_text(rt: &impl Abort, alloc: Global, fault: Error, text: &str) -> Result<(), Fail> {
    answers(rt, text_of(alloc, &fault)?.as_str(), text);
    answers(rt, message_of(alloc, &fault)?.as_str(), text);
    Ok(())
}

const TEXTS: [(Error, &str); 14] = [
    (Error::Overflow(19), "overflow at byte 19"),
    (Error::Underflow(3), "underflow at byte 3"),
    (Error::InvalidDigit(1), "invalid digit at byte 1"),
    (Error::Empty(0), "missing digit at byte 0"),
    (Error::MissingSign(0), "missing sign at byte 0"),
    (
        Error::InvalidPositiveSign(0),
        "forbidden plus sign at byte 0",
    ),
    (
        Error::InvalidLeadingZeros(10),
        "forbidden leading zero at byte 10",
    ),
    (
        Error::InvalidMantissaRadix,
        "the radix of the format is not from 2 to 36",
    ),
    (
        Error::InvalidDigitSeparator,
        "the separator of the format is not ASCII, or is a sign or a digit",
    ),
    (
        Error::InvalidBasePrefix,
        "the prefix of the format is not ASCII, or is a sign or a digit",
    ),
    (
        Error::InvalidBaseSuffix,
        "the suffix of the format is not ASCII, or is a sign or a digit",
    ),
    (
        Error::InvalidPunctuation,
        "two of separator, prefix and suffix of the format are alike",
    ),
    (
        Error::InvalidLiteralPrefixes,
        "the format cannot have literal prefixes",
    ),
    (
        Error::Overflow(18446744073709551615),
        "overflow at byte 18446744073709551615",
    ),
];

#[test]
fn texts_of_faults(rt: HostRuntime) -> Result<(), Fail> {
    for (fault, text) in TEXTS {
        has_text(&rt, rt.alloc(), fault, text)?;
    }
    Ok(())
}
