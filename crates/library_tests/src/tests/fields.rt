// Fields and columns, as callers have them. proofs/Fields.antt has more texts.

mod caller;
mod long;

use crate::tests::answers;
use lexical_fields::{
    Column, ColumnError, Field, Fields, field_length, read_column, read_column_part, whole_fields,
};
use lexical_parse_integer::format::STANDARD;
use lexical_parse_integer::{Error, NumberFormat, NumberFormatBuilder, options};

// What reading a column answers.
type Answer = Result<Column, ColumnError>;

// The answer that `count` numbers were read, and that reading stopped at `stop`.
fn column(count: usize, stop: usize) -> Answer {
    Ok(Column { count, stop })
}

// A fault in a field that starts at a place.
fn fault_in(field: usize, start: usize, error: Error) -> Answer {
    Err(ColumnError::InvalidField {
        field,
        start,
        error,
    })
}

// What is read of a text into room for two, and what that then holds.
fn column_of(text: &[u8], separator: u8, format: &NumberFormat) -> (Answer, [u64; 2]) {
    let mut room = [9; 2];
    let answer = read_column::<u64>(text, separator, format, &options::LARGE_NUMBERS, &mut room);
    (answer, room)
}

// The same for a part of a text, between commas under the standard format.
fn column_of_part(part: &[u8], is_last: bool) -> (Answer, [u64; 2]) {
    let mut room = [9; 2];
    let options = &options::STANDARD;
    let answer = read_column_part(part, is_last, b',', &STANDARD, options, &mut room);
    (answer, room)
}

#[test]
fn fields_one_by_one(rt: HostRuntime) {
    let mut fields = Fields::<u8>::new(b"12,7x", b',', &STANDARD, &options::STANDARD);
    let number = Field {
        start: 0,
        text: b"12".as_slice(),
        answer: Ok(12),
    };
    let fault = Field {
        start: 3,
        text: b"7x".as_slice(),
        answer: Err(Error::InvalidDigit(4)),
    };
    answers(
        &rt,
        [fields.next(), fields.next()],
        [Some(number), Some(fault)],
    );
    answers(&rt, [fields.next(), fields.next()], [None, None]);
}

#[test]
fn columns_in_room_for_two(rt: HostRuntime) {
    let letter = fault_in(1, 3, Error::InvalidDigit(4));
    answers(
        &rt,
        column_of(b"12,7x,x", b',', &STANDARD),
        (letter, [12, 9]),
    );
    let format = NumberFormatBuilder::new()
        .digit_separator(Some(b'_'))
        .integer_internal_digit_separator(true)
        .base_suffix(Some(b'h'))
        .build_strict();
    answers(
        &rt,
        column_of(b"1_2h4hx", b'h', &format),
        (column(2, 6), [12, 4]),
    );
    let radix = NumberFormatBuilder::from_radix(1);
    let fault = ColumnError::InvalidFormat(Error::InvalidMantissaRadix);
    answers(&rt, column_of(b"1", b',', &radix), (Err(fault), [9, 9]));
    answers(
        &rt,
        column_of_part(b"12,25", false),
        (column(1, 3), [12, 9]),
    );
    answers(
        &rt,
        column_of_part(b"12,25", true),
        (column(2, 5), [12, 25]),
    );
    answers(&rt, whole_fields(b"1,23", b','), 2);
    answers(&rt, whole_fields(b"1,+2", b','), 2);
}

#[test]
fn a_length_is_that_of_the_first_field(rt: HostRuntime) {
    let zeros = [b'0'; 40];
    for place in 0..40 {
        let mut text = zeros;
        text[place] = b';';
        answers(&rt, field_length(&text, b';'), place);
    }
}
