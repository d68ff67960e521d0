// Each of the 256 bytes at each place of a text, among them byte 0 and byte 255.
use super::compare::{I8, I32, I64, I128, Kind, U8, U32, U64, agrees};
use super::formats::{
    BYTE_ZERO, CONSECUTIVE, INTERNAL, LEADING, LITERAL_PREFIXES, NO_LEADING_ZEROS, NO_PLUS, PREFIX,
    PREFIX_CASE, SEPARATOR, SIGN_REQUIRED, SUFFIX, SUFFIX_CASE, TRAILING, format_of,
};
use super::texts::{put, put_front};
use lexical_parse_integer::NumberFormat;
use std::process::Abort;

// The longest of these texts: two words and what is left of a third, behind a sign.
const LENGTH: usize = 20;

// Types of each width that is read in its own way.
const KINDS: [Kind; 7] = [U8, I8, U32, I32, U64, I64, I128];

// The text with another byte at this place.
fn changed(text: &[u8], place: usize, byte: u8) -> [u8; LENGTH] {
    let mut changed = [0; LENGTH];
    put_front(&mut changed, text);
    put(&mut changed, place, byte);
    changed
}

// Every text that differs from this one at one place.
fn at_place(rt: &impl Abort, format: &NumberFormat, text: &[u8], place: usize) {
    for byte in 0..=255 {
        if let Some(changed) = changed(text, place, byte).get(..text.len()) {
            for kind in KINDS {
                agrees(rt, kind, format, changed);
            }
        }
    }
}

fn each_byte(rt: &impl Abort, radix: u8, fields: u32, text: &[u8]) {
    let format = format_of(radix, fields);
    for place in 0..text.len() {
        at_place(rt, &format, text, place);
    }
}

// Texts that are read by words, in radixes up to 10, and one digit at a time, in greater ones.
#[test]
fn each_byte_among_digits(rt: HostRuntime) {
    each_byte(&rt, 10, 0, b"12345678123456781234");
    each_byte(&rt, 10, 0, b"-00000000128");
    each_byte(&rt, 2, 0, b"101010101010101010");
    each_byte(&rt, 9, 0, b"888888881234");
    each_byte(&rt, 11, 0, b"A987654321");
    each_byte(&rt, 36, 0, b"zZaA09");
    each_byte(
        &rt,
        10,
        NO_LEADING_ZEROS | NO_PLUS | SIGN_REQUIRED,
        b"-12345678",
    );
    each_byte(&rt, 10, NO_LEADING_ZEROS | NO_PLUS | SIGN_REQUIRED, b"+1");
}

// Words of four and of eight bytes whose other bytes are this digit.
fn each_byte_beside(rt: &impl Abort, radix: u8, digit: u8) {
    each_byte(rt, radix, 0, &[digit; 4]);
    each_byte(rt, radix, 0, &[digit; 8]);
}

// The other digits are `0`, or the greatest of the radix.
#[test]
fn each_byte_of_a_word(rt: HostRuntime) {
    for radix in 2..=10_u8 {
        each_byte_beside(&rt, radix, b'0');
        each_byte_beside(&rt, radix, b'/'.saturating_add(radix));
    }
}

fn each_byte_beside_affixes(rt: &impl Abort, radix: u8, fields: u32) {
    each_byte(rt, radix, fields | PREFIX | SUFFIX, b"-0x12345678h");
    each_byte(rt, radix, fields | PREFIX | SUFFIX, b"00h");
}

#[test]
fn each_byte_beside_prefix_and_suffix(rt: HostRuntime) {
    each_byte_beside_affixes(&rt, 10, 0);
    each_byte_beside_affixes(&rt, 16, 0);
    each_byte_beside_affixes(&rt, 10, PREFIX_CASE);
    each_byte_beside_affixes(&rt, 10, SUFFIX_CASE);
    each_byte(&rt, 10, LITERAL_PREFIXES, b"0x1F");
    each_byte(&rt, 10, LITERAL_PREFIXES, b"-0b1010");
    each_byte(&rt, 10, LITERAL_PREFIXES, b"+0o17");
}

#[test]
fn each_byte_beside_separators(rt: HostRuntime) {
    let everywhere = SEPARATOR | INTERNAL | LEADING | TRAILING | CONSECUTIVE;
    each_byte(&rt, 10, SEPARATOR | INTERNAL, b"1_234_567");
    each_byte(&rt, 10, SEPARATOR | INTERNAL, b"12345678");
    each_byte(&rt, 10, everywhere, b"-__1__23_");
}

// Byte 0 is a byte like others: it may separate, and stand in a prefix or behind the digits.
#[test]
fn each_byte_beside_byte_zero(rt: HostRuntime) {
    let separated = BYTE_ZERO | SEPARATOR | INTERNAL | TRAILING;
    each_byte(&rt, 10, separated, b"1\x0012\0");
    each_byte(&rt, 10, separated, b"12345678\0");
    each_byte(&rt, 10, BYTE_ZERO | PREFIX, b"0\x0012");
    each_byte(&rt, 10, BYTE_ZERO | SUFFIX, b"12345678\0");
}

// Words of four and of eight bytes in which several are no digits: bytes next to the first digit and to the last, and
// bytes that carry or borrow where words are added or taken away.
fn word_of_edges(rt: &impl Abort, radix: u8, number: usize) {
    let last = b'/'.saturating_add(radix);
    let edges = [
        0,
        b'/',
        b'0',
        last,
        last.saturating_add(1),
        127,
        128,
        0xb0,
        255,
    ];
    let a = edges[number % 9];
    let b = edges[number / 9 % 9];
    let c = edges[number / 81 % 9];
    let d = edges[number / 729 % 9];
    let format = format_of(radix, 0);
    agrees(rt, U64, &format, &[a, b, c, d]);
    agrees(rt, U64, &format, &[a, b, c, d, d, c, b, a]);
}

#[test]
fn each_word_of_bytes_at_the_edges(rt: HostRuntime) {
    for radix in 2..=10_u8 {
        for number in 0..6561 {
            word_of_edges(&rt, radix, number);
        }
    }
}
