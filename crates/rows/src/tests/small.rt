// Every text of up to four or five bytes out of a few, by the reference.
use super::compare::{I8, I64, Kind, U8, U32, agrees};
use super::formats::{
    BEHIND_PREFIX, DIGITS_OPTIONAL, LITERAL_PREFIXES, NO_LEADING_ZEROS, NO_PLUS, OCTAL_ZERO,
    PREFIX, SEPARATOR, SIGN_REQUIRED, SUFFIX, format_of, setting,
};
use lexical_parse_integer::NumberFormat;
use std::process::Abort;

// Nine bytes that texts are made of.
type Bytes = [u8; 9];

// Digits, a separator, signs, letters of a prefix and of a suffix, and a byte that is nothing.
const PLAIN: Bytes = *b"019_+-xh\xff";

// Letters that are digits of radix 16, and some that aren't.
const HEXADECIMAL: Bytes = *b"01fF_-xXh";

// Letters of literal prefixes, which are digits behind one of them.
const LITERAL: Bytes = *b"0178_-xob";

// How many texts there are of each length.
const POWERS: [usize; 6] = [1, 9, 81, 729, 6561, 59_049];

// The text of this number, least digit first.
fn text_of(number: usize, bytes: &Bytes) -> [u8; 5] {
    let mut rest = number;
    let mut text = [0; 5];
    for byte in text.iter_mut() {
        *byte = bytes[rest % 9];
        rest /= 9;
    }
    text
}

// Every text of `length` bytes. Each number of `length` digits to the base 9 stands for one.
fn of_length(rt: &impl Abort, kind: Kind, format: &NumberFormat, bytes: &Bytes, length: usize) {
    for number in 0..POWERS[length.min(5)] {
        if let Some(text) = text_of(number, bytes).get(..length) {
            agrees(rt, kind, format, text);
        }
    }
}

fn up_to(rt: &impl Abort, kind: Kind, format: &NumberFormat, bytes: &Bytes, longest: usize) {
    for length in 0..=longest {
        of_length(rt, kind, format, bytes, length);
    }
}

// With a separator, under each set of its flags.
fn with_separators(rt: &impl Abort, radix: u8, fields: u32, bytes: &Bytes) {
    for number in 0..16 {
        let format = format_of(radix, fields | SEPARATOR | setting(number));
        up_to(rt, I8, &format, bytes, 4);
        up_to(rt, U8, &format, bytes, 4);
        up_to(rt, I64, &format, bytes, 3);
    }
}

// Without a separator, digits are read by words: here by words of four, with a byte before or behind them.
fn without_separators(rt: &impl Abort, radix: u8, fields: u32, bytes: &Bytes) {
    let format = format_of(radix, fields);
    up_to(rt, I8, &format, bytes, 4);
    up_to(rt, U32, &format, bytes, 5);
}

#[test]
fn small_texts_with_separators(rt: HostRuntime) {
    let affixes = PREFIX | SUFFIX;
    with_separators(&rt, 10, 0, &PLAIN);
    with_separators(&rt, 10, DIGITS_OPTIONAL, &PLAIN);
    with_separators(&rt, 10, affixes, &PLAIN);
    with_separators(
        &rt,
        10,
        affixes | DIGITS_OPTIONAL | NO_LEADING_ZEROS,
        &PLAIN,
    );
    with_separators(&rt, 10, NO_LEADING_ZEROS | NO_PLUS, &PLAIN);
    with_separators(&rt, 10, affixes | SIGN_REQUIRED, &PLAIN);
    with_separators(&rt, 10, LITERAL_PREFIXES | SUFFIX, &PLAIN);
    with_separators(&rt, 10, OCTAL_ZERO | NO_LEADING_ZEROS, &PLAIN);
}

#[test]
fn small_texts_with_separators_and_prefixes(rt: HostRuntime) {
    let affixes = PREFIX | SUFFIX;
    with_separators(&rt, 10, BEHIND_PREFIX | affixes, &PLAIN);
    with_separators(&rt, 10, BEHIND_PREFIX | DIGITS_OPTIONAL | affixes, &PLAIN);
    with_separators(&rt, 10, LITERAL_PREFIXES, &LITERAL);
    with_separators(&rt, 10, LITERAL_PREFIXES | BEHIND_PREFIX, &LITERAL);
    with_separators(&rt, 10, OCTAL_ZERO, &LITERAL);
    with_separators(
        &rt,
        10,
        OCTAL_ZERO | LITERAL_PREFIXES | BEHIND_PREFIX,
        &LITERAL,
    );
    with_separators(&rt, 16, affixes, &HEXADECIMAL);
}

#[test]
fn small_texts_without_separators(rt: HostRuntime) {
    let affixes = PREFIX | SUFFIX;
    without_separators(&rt, 10, 0, &PLAIN);
    without_separators(&rt, 10, DIGITS_OPTIONAL, &PLAIN);
    without_separators(&rt, 10, NO_LEADING_ZEROS, &PLAIN);
    without_separators(&rt, 10, PREFIX, &PLAIN);
    without_separators(&rt, 10, SUFFIX, &PLAIN);
    without_separators(&rt, 10, affixes | NO_LEADING_ZEROS, &PLAIN);
    without_separators(&rt, 10, OCTAL_ZERO | NO_LEADING_ZEROS, &PLAIN);
    without_separators(&rt, 10, LITERAL_PREFIXES, &LITERAL);
    without_separators(&rt, 10, OCTAL_ZERO, &LITERAL);
    without_separators(&rt, 16, affixes, &HEXADECIMAL);
}
