// Texts of digits alone, at both ends of each range of lengths that has a reader of its own, with one other byte at
// each place. The reference says what they stand for.
use super::compare::{I32, I64, KINDS, Kind, U64, agrees};
use super::formats::{
    INTERNAL, LITERAL_PREFIXES, NO_LEADING_ZEROS, NO_PLUS, PREFIX, SEPARATOR, SIGN_REQUIRED,
    SUFFIX, format_of,
};
use super::texts::put;
use lexical_parse_integer::NumberFormat;
use std::process::Abort;

// One digit; two and three; a word of four, and up to eight; a word of eight, and up to sixteen; and longer texts.
const LENGTHS: [usize; 17] = [1, 2, 3, 4, 5, 7, 8, 9, 10, 15, 16, 17, 18, 19, 20, 24, 25];

const LONGEST: usize = 25;

// Signs, the bytes next to the digits, the least and the greatest digit, letters, a separator, a digit with its highest
// bit set, and bytes that carry or borrow where words are added or taken away.
const BYTES: [u8; 14] = *b"+-/:09.aAx_\x00\xb1\xff";

// A text of one digit over and over, but for its first byte and one other.
fn text_of(fill: u8, first: u8, place: usize, byte: u8) -> [u8; LONGEST] {
    let mut text = [fill; LONGEST];
    text[0] = first;
    put(&mut text, place, byte);
    text
}

// Texts of one length, one for each byte at each place.
fn of_length(
    rt: &impl Abort,
    kind: Kind,
    format: &NumberFormat,
    length: usize,
    (fill, first): (u8, u8),
) {
    for place in 0..length {
        for byte in BYTES {
            if let Some(text) = text_of(fill, first, place, byte).get(..length) {
                agrees(rt, kind, format, text);
            }
        }
    }
}

// Texts of each length, of a small digit and of the greatest.
fn of_each_length(rt: &impl Abort, kind: Kind, format: &NumberFormat) {
    for length in LENGTHS {
        of_length(rt, kind, format, length, (b'1', b'1'));
        of_length(rt, kind, format, length, (b'9', b'-'));
        of_length(rt, kind, format, length, (b'7', b'0'));
    }
}

#[test]
fn each_length_of_each_type(rt: HostRuntime) {
    let format = format_of(10, 0);
    for kind in KINDS {
        of_each_length(&rt, kind, &format);
    }
}

fn under(rt: &impl Abort, fields: u32) {
    let format = format_of(10, fields);
    for kind in [U64, I32, I64] {
        of_each_length(rt, kind, &format);
    }
}

// Zeros in front that the format forbids, and a plus that it forbids. Punctuation that no digit stands beside changes
// nothing: neither a separator, nor a prefix, nor a suffix.
#[test]
fn each_length_under_other_formats(rt: HostRuntime) {
    under(&rt, NO_LEADING_ZEROS | NO_PLUS);
    under(&rt, SEPARATOR | INTERNAL);
    under(&rt, PREFIX);
    under(&rt, SUFFIX);
    under(&rt, LITERAL_PREFIXES);
    under(&rt, SIGN_REQUIRED);
}

fn in_radix(rt: &impl Abort, radix: u8) {
    let format = format_of(radix, 0);
    of_each_length(rt, U64, &format);
    of_each_length(rt, I64, &format);
}

// Radixes that are read by a table, with letters or without.
#[test]
fn each_length_of_other_radixes(rt: HostRuntime) {
    in_radix(&rt, 2);
    in_radix(&rt, 8);
    in_radix(&rt, 9);
    in_radix(&rt, 11);
    in_radix(&rt, 16);
    in_radix(&rt, 36);
}
