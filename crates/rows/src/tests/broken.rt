// The rules of formats, and formats that break one rule, two, or any number of them.
use super::compare::{I64, U8, agrees};
use super::reference::digit_of;
use lexical_parse_integer::{Error, NumberFormat, NumberFormatBuilder};

// Whether a byte may be no separator, prefix or suffix.
fn is_unfit(byte: Option<u8>, radix: u32) -> bool {
    match byte {
        Some(byte) => {
            !byte.is_ascii() || byte == b'+' || byte == b'-' || digit_of(byte, radix).is_some()
        }
        None => false,
    }
}

// Whether both are set, to one byte or to one letter.
fn are_alike(one: Option<u8>, other: Option<u8>) -> bool {
    match (one, other) {
        (Some(one), Some(other)) => one.eq_ignore_ascii_case(&other),
        _ => false,
    }
}

// Whether a byte could be taken for a part of a numeral with a literal prefix.
fn is_in_literals(byte: Option<u8>) -> bool {
    match byte {
        Some(byte) => {
            digit_of(byte, 16).is_some() || matches!(byte, b'x' | b'X' | b'o' | b'O' | b'b' | b'B')
        }
        None => false,
    }
}

// Whether a format that chooses the radix by the text breaks what that asks for.
fn breaks_literals(format: &NumberFormat) -> bool {
    let chooses_radix = format.literal_prefixes() || format.literal_octal_zero();
    let has_other_punctuation = format.base_prefix().is_some()
        || is_in_literals(format.digit_separator())
        || is_in_literals(format.base_suffix());
    (chooses_radix && format.radix() != 10) || (format.literal_prefixes() && has_other_punctuation)
}

// The fault of the first rule that a format breaks, by a list of the rules.
pub(super) fn first_broken(format: &NumberFormat) -> Option<Error> {
    let radix = format.radix();
    let separator = format.digit_separator();
    let prefix = format.base_prefix();
    let suffix = format.base_suffix();
    if radix < 2 || radix > 36 {
        Some(Error::InvalidMantissaRadix)
    } else if is_unfit(separator, radix) {
        Some(Error::InvalidDigitSeparator)
    } else if is_unfit(prefix, radix) {
        Some(Error::InvalidBasePrefix)
    } else if is_unfit(suffix, radix) {
        Some(Error::InvalidBaseSuffix)
    } else if are_alike(separator, prefix)
        || are_alike(separator, suffix)
        || are_alike(prefix, suffix)
    {
        Some(Error::InvalidPunctuation)
    } else if breaks_literals(format) {
        Some(Error::InvalidLiteralPrefixes)
    } else {
        None
    }
}

const RADIXES: [u8; 8] = [0, 1, 2, 10, 16, 36, 37, 255];

// `n` among these bytes stands for no byte.
const PUNCTUATION: [u8; 9] = *b"n_xXa5-\0\xc8";

// How many formats there are: of each radix, separator, prefix and suffix, with literal prefixes and without, and with
// strict rules on signs and zeros or without them.
const FORMATS: usize = 4 * 8 * 9 * 9 * 9;

fn punctuation_of(number: usize) -> Option<u8> {
    let byte = PUNCTUATION[number % 9];
    if byte == b'n' { None } else { Some(byte) }
}

// The builder of this number, which counts them.
fn builder_of(number: usize) -> NumberFormatBuilder {
    let is_strict = number / 2 % 2 == 1;
    NumberFormatBuilder::new()
        .mantissa_radix(RADIXES[number / 4 % 8])
        .digit_separator(punctuation_of(number / 32))
        .base_prefix(punctuation_of(number / 288))
        .base_suffix(punctuation_of(number / 2592))
        .literal_prefixes(number % 2 == 1)
        .integer_internal_digit_separator(true)
        .integer_trailing_digit_separator(true)
        .case_sensitive_base_prefix(true)
        .no_positive_mantissa_sign(is_strict)
        .required_mantissa_sign(is_strict)
        .no_integer_leading_zeros(is_strict)
}

// Texts most of which have a fault of their own: one that is empty, and those with no digit, a value outside of a byte,
// zeros in front, a prefix alone, or bytes of other kinds.
const FAULTY: [&[u8]; 15] = [
    b"",
    b"+",
    b"+-",
    b"999",
    b"00",
    b"0x",
    b"_",
    b"1\xff",
    b"\0",
    b"1",
    b"0x1_A5",
    b"00x",
    b"1000_",
    b"-\x001\0",
    b"-128",
];

// A format has the fault of the first rule that it breaks, and refuses every text with it, also where it is strict.
#[test]
fn any_broken_rules(rt: HostRuntime) {
    for number in 0..FORMATS {
        let builder = builder_of(number);
        let format = builder.build_unchecked();
        let fault = first_broken(&format);
        let told = (format.error(), format.is_valid(), builder.is_valid());
        assert_eq!(rt;
            told,
            (fault, fault.is_none(), fault.is_none()),
            "{format:?}"
        );
        for text in FAULTY {
            agrees(&rt, U8, &format, text);
            agrees(&rt, I64, &format, text);
        }
    }
}
