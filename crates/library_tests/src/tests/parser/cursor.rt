// A cursor's calls, on texts that have every part of a numeral.
use crate::tests::answers;
use lexical_parse_integer::cursor::Cursor;
use lexical_parse_integer::format::STANDARD;
use lexical_parse_integer::{NumberFormat, NumberFormatBuilder};
use std::process::Abort;

/// A sign, a prefix, digits with separators between them, and a suffix.
pub fn with_all_parts() -> NumberFormat {
    NumberFormatBuilder::new()
        .digit_separator(Some(b'_'))
        .integer_internal_digit_separator(true)
        .base_prefix(Some(b'x'))
        .base_suffix(Some(b'h'))
        .build_unchecked()
}

// Where a cursor stands, where its region starts, how many digits it read, and whether it is closed.
fn state(c: &Cursor<'_>) -> (usize, usize, usize, bool) {
    (c.cursor(), c.start(), c.digits(), c.is_closed())
}

// A cursor is in this state.
fn stands(rt: &impl Abort, c: &Cursor<'_>, want: (usize, usize, usize, bool)) {
    answers(rt, state(c), want);
}

// The cursor gives this digit, or none, and is in this state then.
fn gives(
    rt: &impl Abort,
    c: &mut Cursor<'_>,
    digit: Option<u32>,
    want: (usize, usize, usize, bool),
) {
    assert!(rt; !c.is_closed());
    answers(rt, c.next_digit(), digit);
    stands(rt, c, want);
}

#[test]
fn a_cursor_reads_part_by_part(rt: HostRuntime) {
    let format = with_all_parts();
    assert!(rt; format.is_valid());
    let mut c = Cursor::new(b"+0x1_23h.", &format);
    let shown = (c.buffer_length(), c.is_contiguous(), c.radix());
    answers(&rt, shown, (9, false, 10));
    c.step_sign();
    let is_prefixed = c.read_prefix();
    answers(&rt, (is_prefixed, state(&c)), (true, (3, 3, 0, false)));
    gives(&rt, &mut c, Some(1), (4, 3, 1, false));
    gives(&rt, &mut c, Some(2), (6, 3, 2, false));
    gives(&rt, &mut c, Some(3), (7, 3, 3, false));
    gives(&rt, &mut c, None, (7, 3, 3, false));
    assert!(rt; !c.is_closed() && c.read_suffix());
    answers(&rt, (state(&c), c.first()), ((8, 3, 3, true), Some(b'.')));
}

#[test]
fn a_cursor_takes_four_bytes_at_once(rt: HostRuntime) {
    let mut c = Cursor::new(b"12345", &STANDARD);
    answers(&rt, c.peek_word(4), Some(&b"1234"[..]));
    answers(&rt, c.peek_word(8), None);
    c.take_digits(4);
    answers(&rt, (c.next_digit(), c.is_buffer_empty()), (Some(5), true));
}

// The text's first eight bytes. The cursor that lent them is gone when it returns.
fn first_word<'a>(text: &'a [u8]) -> Option<&'a [u8]> {
    let c = Cursor::new(text, &STANDARD);
    c.peek_word(8)
}

#[test]
fn a_word_outlives_the_cursor(rt: HostRuntime) {
    let text = *b"12345678, 9";
    answers(&rt, first_word(&text), Some(&b"12345678"[..]));
}
