// Comparisons of the parsers with the reference, as each of the integer types.
use super::broken::first_broken;
use super::reference::{Number, complete, partial, read};
use lexical_parse_integer::format::STANDARD;
use lexical_parse_integer::options::{LARGE_NUMBERS, SMALL_NUMBERS};
use lexical_parse_integer::{FromLexicalWithOptions, NumberFormat, Options, Result};
use std::process::Abort;

// An integer type: how many bits it has, whether it is signed, and whether it is `usize` or `isize`. These are written
// here, and not taken from the crates under test.
pub(super) type Kind = (u32, bool, bool);

pub(super) const U8: Kind = (8, false, false);

pub(super) const U16: Kind = (16, false, false);

pub(super) const U32: Kind = (32, false, false);

pub(super) const U64: Kind = (64, false, false);

pub(super) const U128: Kind = (128, false, false);

const USIZE: Kind = (64, false, true);

pub(super) const I8: Kind = (8, true, false);

pub(super) const I16: Kind = (16, true, false);

pub(super) const I32: Kind = (32, true, false);

pub(super) const I64: Kind = (64, true, false);

pub(super) const I128: Kind = (128, true, false);

const ISIZE: Kind = (64, true, true);

pub(super) const KINDS: [Kind; 12] = [
    U8, U16, U32, U64, U128, USIZE, I8, I16, I32, I64, I128, ISIZE,
];

// What both parsers answer, in whole numbers.
type Answers = (Result<Number>, Result<(Number, usize)>);

// An integer type whose values are whole numbers.
trait Whole: FromLexicalWithOptions<Options = Options> {
    fn number(self) -> Number;
}

// What both parsers of a type answer with these options, and without any by the calls that have neither format nor
// options.
fn answers_as<T: Whole>(text: &[u8], format: &NumberFormat, options: Option<Options>) -> Answers {
    let (whole, front) = match options {
        Some(options) => (
            T::from_lexical_with_options(text, format, &options),
            T::from_lexical_partial_with_options(text, format, &options),
        ),
        None => (T::from_lexical(text), T::from_lexical_partial(text)),
    };
    let whole = match whole {
        Ok(value) => Ok(value.number()),
        Err(fault) => Err(fault),
    };
    match front {
        Ok((value, place)) => (whole, Ok((value.number(), place))),
        Err(fault) => (whole, Err(fault)),
    }
}

fn answers(kind: Kind, text: &[u8], format: &NumberFormat, options: Option<Options>) -> Answers {
    match kind {
        (8, false, _) => answers_as::<u8>(text, format, options),
        (16, false, _) => answers_as::<u16>(text, format, options),
        (32, false, _) => answers_as::<u32>(text, format, options),
        (64, false, false) => answers_as::<u64>(text, format, options),
        (64, false, true) => answers_as::<usize>(text, format, options),
        (_, false, _) => answers_as::<u128>(text, format, options),
        (8, true, _) => answers_as::<i8>(text, format, options),
        (16, true, _) => answers_as::<i16>(text, format, options),
        (32, true, _) => answers_as::<i32>(text, format, options),
        (64, true, false) => answers_as::<i64>(text, format, options),
        (64, true, true) => answers_as::<isize>(text, format, options),
        (_, true, _) => answers_as::<i128>(text, format, options),
    }
}

// What both parsers have to answer, by the reference.
fn expected(kind: Kind, text: &[u8], format: &NumberFormat) -> Answers {
    if let Some(fault) = first_broken(format) {
        return (Err(fault), Err(fault));
    }
    let (bits, is_signed, _) = kind;
    let reading = read(text, format, bits, is_signed);
    (
        complete(text, format, &reading),
        partial(text, format, &reading),
    )
}

// Both parsers answer what the reference does, with either kind of options, and under the standard format also by
// the calls without options.
pub(super) fn agrees(rt: &impl Abort, kind: Kind, format: &NumberFormat, text: &[u8]) {
    let expected = expected(kind, text, format);
    for options in [Some(SMALL_NUMBERS), Some(LARGE_NUMBERS), None] {
        if options.is_some() || *format == STANDARD {
            assert_eq!(rt;
                answers(kind, text, format, options),
                expected,
                "{} as {kind:?} under {format:?}",
                text.escape_ascii()
            );
        }
    }
}

impl Whole for u8 {
    fn number(self) -> Number {
        (false, u128::from(self))
    }
}

impl Whole for u16 {
    fn number(self) -> Number {
        (false, u128::from(self))
    }
}

impl Whole for u32 {
    fn number(self) -> Number {
        (false, u128::from(self))
    }
}

impl Whole for u64 {
    fn number(self) -> Number {
        (false, u128::from(self))
    }
}

impl Whole for u128 {
    fn number(self) -> Number {
        (false, self)
    }
}

impl Whole for usize {
    fn number(self) -> Number {
        (false, self as u128)
    }
}

impl Whole for i8 {
    fn number(self) -> Number {
        (self < 0, u128::from(self.unsigned_abs()))
    }
}

impl Whole for i16 {
    fn number(self) -> Number {
        (self < 0, u128::from(self.unsigned_abs()))
    }
}

impl Whole for i32 {
    fn number(self) -> Number {
        (self < 0, u128::from(self.unsigned_abs()))
    }
}

impl Whole for i64 {
    fn number(self) -> Number {
        (self < 0, u128::from(self.unsigned_abs()))
    }
}

impl Whole for i128 {
    fn number(self) -> Number {
        (self < 0, self.unsigned_abs())
    }
}

impl Whole for isize {
    fn number(self) -> Number {
        (self < 0, self.unsigned_abs() as u128)
    }
}
