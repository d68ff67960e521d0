// The first number of a column, where it is read with its end in one pass.
use crate::tests::answers;
use lexical_parse_integer::NumberFormatBuilder;
use lexical_parse_integer::format::{JSON, NumberFormat, STANDARD};
use lexical_parse_integer::quick::{field_in_front, is_separated};

// The first field between these separators, where it may be read so.
fn front(text: &[u8], separator: u8, format: &NumberFormat) -> Option<(i16, usize)> {
    if !is_separated(format, separator) {
        return None;
    }
    field_in_front::<i16>(text, separator, format)
}

// Texts with their separators, and the first field under the standard format.
const FIELDS: [(&[u8], u8, Option<(i16, usize)>); 7] = [
    (b"12,345,x,67", b',', Some((12, 2))),
    (b"-32767\n1234", b'\n', Some((-32767, 6))),
    (b"32768,5,6,7", b',', None),
    (b"12 ,345,x,6", b',', None),
    (b",1,2,3,4,5,", b',', None),
    (b"12", b',', None),
    (b"", b',', None),
];

#[test]
fn first_fields(rt: HostRuntime) {
    for (text, separator, want) in FIELDS {
        answers(&rt, front(text, separator, &STANDARD), want);
    }
}

#[test]
fn first_fields_of_json(rt: HostRuntime) {
    let fields = [
        front(b"0;;;;;;;;;;", b';', &JSON),
        front(b"01;;;;;;;;;", b';', &JSON),
    ];
    answers(&rt, fields, [Some((0, 1)), None]);
}

#[test]
fn separators(rt: HostRuntime) {
    let hexadecimal = NumberFormatBuilder::new()
        .mantissa_radix(16)
        .build_unchecked();
    let grouped = NumberFormatBuilder::new()
        .digit_separator(Some(b'_'))
        .build_unchecked();
    let separate = [
        is_separated(&STANDARD, b'x'),
        is_separated(&JSON, 255),
        is_separated(&STANDARD, b'+'),
        is_separated(&STANDARD, 0),
    ];
    answers(&rt, separate, [true; 4]);
    let others = [
        is_separated(&STANDARD, b'0'),
        is_separated(&STANDARD, b'9'),
        is_separated(&STANDARD, b'-'),
        is_separated(&hexadecimal, b','),
        is_separated(&grouped, b','),
    ];
    answers(&rt, others, [false; 5]);
}
