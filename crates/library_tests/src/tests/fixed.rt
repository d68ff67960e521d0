// Fixed-point numbers, and lines and columns of places, as callers have them. proofs/FixedRows.antt of lexical_fixed has
// more texts.

use crate::tests::answers;
use lexical_fields::{LineColumn, line_column};
use lexical_fixed::format::CENTS;
use lexical_fixed::{
    Error, FixedError, FixedFormat, FixedFormatError, FromFixed, NumberFormat, NumberFormatBuilder,
    ParseFixed,
};

// Amounts as `-1.234,50`, with just two places.
fn grouped() -> FixedFormat {
    FixedFormat {
        point: b',',
        takes_fewer: false,
        integer: points(),
        ..CENTS
    }
}

// Integers as `1.234`.
fn points() -> NumberFormat {
    NumberFormatBuilder::new()
        .digit_separator(Some(b'.'))
        .internal_digit_separator(true)
        .build_unchecked()
}

#[test]
fn whole_amounts(rt: HostRuntime) {
    answers(&rt, i64::from_fixed(b"12.5", &CENTS), Ok(1250));
    answers(&rt, i64::from_fixed(b"-0.05", &CENTS), Ok(-5));
    answers(&rt, i32::from_fixed(b"-1.234,50", &grouped()), Ok(-123_450));
    let third_place = FixedError::Text(Error::InvalidDigit(5));
    answers(&rt, i64::from_fixed(b"12.505", &CENTS), Err(third_place));
    let too_large = FixedError::Text(Error::Overflow(1));
    answers(&rt, u8::from_fixed(b"3", &CENTS), Err(too_large));
}

// The fault of a whole text under a description.
fn fault_of(text: &[u8], format: &FixedFormat) -> Option<FixedError> {
    u8::from_fixed(text, format).err()
}

#[test]
fn faults_of_whole_amounts(rt: HostRuntime) {
    let text = |error| Some(FixedError::Text(error));
    answers(&rt, u8::from_fixed(b"2", &CENTS), Ok(200));
    answers(&rt, u8::from_fixed(b"2.5", &CENTS), Ok(250));
    answers(&rt, fault_of(b"30.5", &CENTS), text(Error::Overflow(3)));
    answers(&rt, fault_of(b"30.55", &CENTS), text(Error::Overflow(3)));
    answers(&rt, fault_of(b"1.5a", &CENTS), text(Error::InvalidDigit(3)));
    answers(&rt, fault_of(b"1.a", &CENTS), text(Error::InvalidDigit(2)));
    answers(&rt, fault_of(b"x", &CENTS), text(Error::InvalidDigit(0)));
    let behind_minus = FixedError::Text(Error::InvalidDigit(1));
    answers(&rt, i64::from_fixed(b"-x", &CENTS), Err(behind_minus));
    // the zeros that aren't written come last
    answers(&rt, fault_of(b"3.", &CENTS), text(Error::Empty(2)));
    let exact = FixedFormat {
        takes_fewer: false,
        ..CENTS
    };
    answers(&rt, fault_of(b"3", &exact), text(Error::Empty(1)));
}

#[test]
fn amounts_in_front(rt: HostRuntime) {
    answers(
        &rt,
        i64::from_fixed_partial(b"12.50 EUR", &CENTS),
        Ok((1250, 5)),
    );
    answers(
        &rt,
        i64::from_fixed_partial(b"12. And", &CENTS),
        Ok((1200, 2)),
    );
    answers(
        &rt,
        i64::from_fixed_partial(b"-1.234,50 EUR", &grouped()),
        Ok((-123_450, 9)),
    );
}

// What is read in front of a text with two places or fewer.
fn front(text: &[u8]) -> Result<(u16, usize), FixedError> {
    u16::from_fixed_partial(text, &CENTS)
}

// Digits behind another byte than the point are no places, however many they are, and a letter is
// no digit.
#[test]
fn what_ends_an_amount_in_front(rt: HostRuntime) {
    let unread = [front(b"12 34"), front(b"12,34"), front(b"12 3456")];
    answers(&rt, unread, [Ok((1200, 2)); 3]);
    answers(
        &rt,
        [front(b"1.5a"), front(b"1.a")],
        [Ok((150, 3)), Ok((100, 1))],
    );
}

// What is read of a whole text and in front of another, where the description was tested once.
fn tested_once(format: &FixedFormat) -> Option<(Result<i128, Error>, Result<(u16, usize), Error>)> {
    if !format.is_valid() {
        return None;
    }
    let whole = i128::parse_fixed(b"-7,25", format);
    Some((whole, u16::parse_fixed_partial(b"12,5;", format)))
}

#[test]
fn amounts_under_a_tested_description(rt: HostRuntime) {
    let missing = Err(Error::Empty(4));
    answers(&rt, tested_once(&grouped()), Some((Ok(-725), missing)));
}

#[test]
fn refused_descriptions(rt: HostRuntime) {
    let point = FixedFormat {
        point: b'.',
        ..grouped()
    };
    answers(&rt, (CENTS.is_valid(), point.is_valid()), (true, false));
    answers(&rt, point.error(), Some(FixedFormatError::Point));
    let refused = FixedError::Format(FixedFormatError::Point);
    answers(&rt, u64::from_fixed(b"1", &point), Err(refused));
    answers(&rt, u64::from_fixed_partial(b"1", &point), Err(refused));
    let places = FixedFormat {
        places: 39,
        ..CENTS
    };
    answers(&rt, places.error(), Some(FixedFormatError::Places));
}

// The fault of a description with this point.
fn fault_of_point(point: u8) -> Option<FixedFormatError> {
    FixedFormat { point, ..CENTS }.error()
}

#[test]
fn bytes_and_formats_of_descriptions(rt: HostRuntime) {
    let unfit = [
        fault_of_point(b'+'),
        fault_of_point(b'-'),
        fault_of_point(b'0'),
        fault_of_point(b'9'),
    ];
    answers(&rt, unfit, [Some(FixedFormatError::Point); 4]);
    let fit = [
        fault_of_point(b'/'),
        fault_of_point(b':'),
        fault_of_point(b'a'),
    ];
    answers(&rt, fit, [None; 3]);
    let octal = FixedFormat {
        integer: NumberFormatBuilder::from_radix(8),
        ..CENTS
    };
    answers(&rt, octal.error(), Some(FixedFormatError::Radix));
    let prefixes = FixedFormat {
        integer: NumberFormatBuilder::new()
            .literal_prefixes(true)
            .build_unchecked(),
        ..CENTS
    };
    answers(&rt, prefixes.error(), Some(FixedFormatError::Affix));
}

#[test]
fn lines_and_columns(rt: HostRuntime) {
    let third = LineColumn { line: 2, column: 1 };
    answers(&rt, line_column(b"12\n34\n5x", 7), third);
    let first = LineColumn { line: 0, column: 2 };
    answers(&rt, line_column(b"12\n34\n5x", 2), first);
    answers(&rt, line_column(b"\t\t1", 2), first);
}
