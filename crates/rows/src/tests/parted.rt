// Digits with separators between them: runs at each place of texts of several lengths, under each setting of the flags,
// at the front of a text and behind a prefix. The reference says what they stand for.
use super::compare::{I32, I64, I128, Kind, U8, U32, U64, agrees};
use super::formats::{
    CONSECUTIVE, INTERNAL, LITERAL_PREFIXES, NO_LEADING_ZEROS, PREFIX, PREFIX_CASE, SEPARATOR,
    SUFFIX, format_of, setting,
};
use super::texts::{put, put_front};
use lexical_parse_integer::NumberFormat;
use std::process::Abort;

const LONGEST: usize = 24;

// More digits between two separators than a text has: no separators.
const NONE: usize = 100;

// Ones, with a separator before each `every` bytes, counted back from `length`.
fn ones(every: usize, length: usize) -> [u8; LONGEST] {
    let mut text = [b'1'; LONGEST];
    for (place, byte) in text.iter_mut().enumerate() {
        if every > 0 && place % every == length % every {
            *byte = b'_';
        }
    }
    text
}

// The text with these bytes at its front.
fn headed(mut text: [u8; LONGEST], head: &[u8]) -> [u8; LONGEST] {
    put_front(&mut text, head);
    text
}

// Ones behind some bytes, with separators at two places.
fn with_two(head: &[u8], place: usize, other: usize) -> [u8; LONGEST] {
    let mut text = headed([b'1'; LONGEST], head);
    put(&mut text, place, b'_');
    put(&mut text, other, b'_');
    text
}

// Texts of one length: one separator, two side by side, and two with digits between them.
fn of_length(rt: &impl Abort, kind: Kind, format: &NumberFormat, head: &[u8], length: usize) {
    for place in 0..length {
        for behind in [0, 1, 4] {
            let other = place.saturating_add(behind);
            if let Some(text) = with_two(head, place, other).get(..length) {
                agrees(rt, kind, format, text);
            }
        }
    }
}

// Each setting of three flags, together with these fields.
fn flagged(rt: &impl Abort, kind: Kind, radix: u8, fields: u32, head: &[u8]) {
    for number in 0..8 {
        let format = format_of(radix, fields | SEPARATOR | setting(number));
        for length in [2, 3, 5, 9, 16, 20, 24] {
            of_length(rt, kind, &format, head, length);
        }
    }
}

#[test]
fn separators_at_each_place(rt: HostRuntime) {
    flagged(&rt, U64, 10, 0, b"");
    flagged(&rt, I64, 10, CONSECUTIVE, b"-");
    flagged(&rt, U64, 16, PREFIX | SUFFIX, b"0x");
    flagged(&rt, I64, 16, PREFIX | SUFFIX | CONSECUTIVE, b"-0X");
}

// The text itself, and with each of its bytes changed.
fn with_each_byte_changed(rt: &impl Abort, kind: Kind, format: &NumberFormat, text: &[u8]) {
    agrees(rt, kind, format, text);
    for place in 0..text.len() {
        for byte in [b'0', b'9', b'_', b'x'] {
            let mut changed = headed([b'1'; LONGEST], text);
            put(&mut changed, place, byte);
            if let Some(changed) = changed.get(..text.len()) {
                agrees(rt, kind, format, changed);
            }
        }
    }
}

// Texts of each length, with a separator before each `every` digits, counted from the end. `head`
// stands in front of them, a prefix or nothing.
fn of_each_length(rt: &impl Abort, kind: Kind, format: &NumberFormat, head: &[u8], every: usize) {
    for length in 1..=LONGEST {
        if let Some(text) = headed(ones(every, length), head).get(..length) {
            with_each_byte_changed(rt, kind, format, text);
        }
    }
}

#[test]
fn threes_with_each_byte_changed(rt: HostRuntime) {
    let format = format_of(10, SEPARATOR | INTERNAL);
    for kind in [U64, I128, U8] {
        of_each_length(&rt, kind, &format, b"", 4);
    }
    let strict = format_of(10, SEPARATOR | INTERNAL | CONSECUTIVE | NO_LEADING_ZEROS);
    of_each_length(&rt, I32, &strict, b"-", 4);
}

#[test]
fn digits_behind_a_prefix_alone(rt: HostRuntime) {
    let prefixed = format_of(16, PREFIX);
    of_each_length(&rt, U64, &prefixed, b"0x", NONE);
    of_each_length(&rt, I64, &prefixed, b"-0X", NONE);
    of_each_length(&rt, U32, &prefixed, b"", NONE);
    let literal = format_of(10, LITERAL_PREFIXES | PREFIX_CASE);
    of_each_length(&rt, U64, &literal, b"0x", NONE);
    of_each_length(&rt, I64, &literal, b"-0b", NONE);
    of_each_length(&rt, U64, &literal, b"", NONE);
}
