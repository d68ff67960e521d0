// The greatest number of each type that a suffix may name, and the one behind it; and which fault
// of a literal comes first.

use crate::tests::answers;
use lexical_literals::{IntegerKind, LiteralError, Suffix, literal_format, typed_literal_in_front};
use lexical_parse_integer::{Error, NumberFormat, NumberFormatBuilder};

// A suffix that names a kind.
fn names(text: &'static [u8], kind: IntegerKind) -> Suffix<'static> {
    Suffix { text, kind }
}

// The name of each kind.
fn all() -> [Suffix<'static>; 12] {
    [
        names(b"u8", IntegerKind::U8),
        names(b"u16", IntegerKind::U16),
        names(b"u32", IntegerKind::U32),
        names(b"u64", IntegerKind::U64),
        names(b"u128", IntegerKind::U128),
        names(b"usize", IntegerKind::Usize),
        names(b"i8", IntegerKind::I8),
        names(b"i16", IntegerKind::I16),
        names(b"i32", IntegerKind::I32),
        names(b"i64", IntegerKind::I64),
        names(b"i128", IntegerKind::I128),
        names(b"isize", IntegerKind::Isize),
    ]
}

// The value of the literal in front of a text, or its fault.
fn value(text: &[u8], format: &NumberFormat) -> Result<u128, LiteralError> {
    typed_literal_in_front(text, format, &all()).map(|found| found.value)
}

// The value of a literal as most languages have it.
fn literal(text: &[u8]) -> Result<u128, LiteralError> {
    value(text, &literal_format())
}

// A fault of the number.
fn fault(error: Error) -> Result<u128, LiteralError> {
    Err(LiteralError::Number(error))
}

#[test]
fn the_greatest_of_each_unsigned_type(rt: HostRuntime) {
    answers(&rt, literal(b"255u8"), Ok(255));
    answers(&rt, literal(b"256u8"), fault(Error::Overflow(2)));
    answers(&rt, literal(b"65535u16"), Ok(65535));
    answers(&rt, literal(b"65536u16"), fault(Error::Overflow(4)));
    answers(&rt, literal(b"4294967295u32"), Ok(4294967295));
    answers(&rt, literal(b"4294967296u32"), fault(Error::Overflow(9)));
    answers(
        &rt,
        literal(b"18446744073709551615u64"),
        Ok(18446744073709551615),
    );
    answers(
        &rt,
        literal(b"18446744073709551616u64"),
        fault(Error::Overflow(19)),
    );
    answers(
        &rt,
        literal(b"340282366920938463463374607431768211455u128"),
        Ok(340282366920938463463374607431768211455),
    );
    answers(
        &rt,
        literal(b"340282366920938463463374607431768211456u128"),
        fault(Error::Overflow(38)),
    );
    answers(
        &rt,
        literal(b"18446744073709551615usize"),
        Ok(18446744073709551615),
    );
    answers(
        &rt,
        literal(b"18446744073709551616usize"),
        fault(Error::Overflow(19)),
    );
}

#[test]
fn the_greatest_of_each_signed_type(rt: HostRuntime) {
    answers(&rt, literal(b"127i8"), Ok(127));
    answers(&rt, literal(b"128i8"), fault(Error::Overflow(2)));
    answers(&rt, literal(b"32767i16"), Ok(32767));
    answers(&rt, literal(b"32768i16"), fault(Error::Overflow(4)));
    answers(&rt, literal(b"2147483647i32"), Ok(2147483647));
    answers(&rt, literal(b"2147483648i32"), fault(Error::Overflow(9)));
    answers(
        &rt,
        literal(b"9223372036854775807i64"),
        Ok(9223372036854775807),
    );
    answers(
        &rt,
        literal(b"9223372036854775808i64"),
        fault(Error::Overflow(18)),
    );
    answers(
        &rt,
        literal(b"170141183460469231731687303715884105727i128"),
        Ok(170141183460469231731687303715884105727),
    );
    answers(
        &rt,
        literal(b"170141183460469231731687303715884105728i128"),
        fault(Error::Overflow(38)),
    );
    answers(
        &rt,
        literal(b"9223372036854775807isize"),
        Ok(9223372036854775807),
    );
    answers(
        &rt,
        literal(b"9223372036854775808isize"),
        fault(Error::Overflow(18)),
    );
}

#[test]
fn a_digit_behind_a_number_is_none_of_its_suffix(rt: HostRuntime) {
    answers(&rt, literal(b"0b19u8"), fault(Error::InvalidDigit(3)));
    answers(&rt, literal(b"0o70u8"), Ok(56));
}

// What is wrong with the format, or with the number but for its range, comes before a suffix that
// no entry has.
#[test]
fn the_first_fault_is_reported(rt: HostRuntime) {
    let radix = NumberFormatBuilder::from_radix(37);
    answers(
        &rt,
        value(b"u8", &radix),
        fault(Error::InvalidMantissaRadix),
    );
    answers(
        &rt,
        value(b"1zz", &radix),
        fault(Error::InvalidMantissaRadix),
    );
    let strict = NumberFormatBuilder::new()
        .no_integer_leading_zeros(true)
        .literal_prefixes(true)
        .build_unchecked();
    answers(
        &rt,
        value(b"01zz", &strict),
        fault(Error::InvalidLeadingZeros(0)),
    );
    answers(
        &rt,
        value(b"0x01zz", &strict),
        Err(LiteralError::UnknownSuffix(4)),
    );
}
