// The parsers: each call at concrete types, and generic callers that know a type by its bound alone.
ghost use Rattle.std.specs.Prelude.{◌≡◌};
ghost use Rattle.lexical_util.specs.Format.{standard};
ghost use Rattle.lexical_parse_integer.specs.Answer.{with_place, view_of};
ghost use Rattle.lexical_parse_integer.specs.Grammar.{complete, partial, partial_if_valid};

use super::cursor::with_all_parts;
use crate::tests::answers;
use lexical_parse_integer::algorithm::{
    algorithm_complete, algorithm_complete_on, algorithm_partial, algorithm_partial_on,
};
use lexical_parse_integer::cursor::Cursor;
use lexical_parse_integer::format::{JSON, STANDARD};
use lexical_parse_integer::options::{LARGE_NUMBERS, SMALL_NUMBERS};
use lexical_parse_integer::parse::ParseInteger;
use lexical_parse_integer::{
    Error, FromLexical, FromLexicalWithOptions, NumberFormat, NumberFormatBuilder, Options, Result,
};
use std::process::Abort;

#[test]
fn complete_parsers_of_a_type(rt: HostRuntime) {
    let whole = [
        u64::parse_complete(b"18446744073709551616", &STANDARD, &LARGE_NUMBERS),
        algorithm_complete::<u64>(b"01", &JSON, &LARGE_NUMBERS),
    ];
    let faults = [Err(Error::Overflow(19)), Err(Error::InvalidLeadingZeros(0))];
    answers(&rt, whole, faults);
}

#[test]
fn partial_parsers_of_a_type(rt: HostRuntime) {
    let fronts = [
        i128::parse_partial(b"1234 }, {\"Key\"", &STANDARD, &SMALL_NUMBERS),
        algorithm_partial::<i128>(b"+123.45", &STANDARD, &SMALL_NUMBERS),
    ];
    answers(&rt, fronts, [Ok((1234, 4)), Ok((123, 4))]);
}

// At an answer the cursor stands behind the suffix, and counts the digits alone.
fn whole_stands(rt: &impl Abort, format: &NumberFormat, options: &Options) {
    assert!(rt; format.is_valid());
    let mut c = Cursor::new(b"-0x1_2h", format);
    let answer = algorithm_complete_on::<i32>(&mut c, options);
    answers(rt, (answer, c.cursor(), c.digits()), (Ok(-12), 7, 2));
}

fn front_stands(rt: &impl Abort, format: &NumberFormat, options: &Options) {
    assert!(rt; format.is_valid());
    let mut c = Cursor::new(b"-0x1_2hh", format);
    let answer = algorithm_partial_on::<i32>(&mut c, options);
    answers(rt, (answer, c.cursor(), c.digits()), (Ok((-12, 7)), 7, 2));
}

#[test]
fn cursors_stand_where_reading_stops(rt: HostRuntime) {
    let format = with_all_parts();
    for options in [SMALL_NUMBERS, LARGE_NUMBERS] {
        whole_stands(&rt, &format, &options);
        front_stands(&rt, &format, &options);
    }
}

// The number of the whole text and of its front, by what the bound says of the type alone.
fn both<T: FromLexical>(text: &[u8]) -> (Result<T>, Result<(T, usize)>)
    ensures whole { view_of T.number result.0 ≡ complete standard T.TYPE text.now }
    ensures front { view_of (with_place T.number) result.1 ≡ partial standard T.TYPE text.now }
{
    (T::from_lexical(text), T::from_lexical_partial(text))
}

#[test]
fn callers_over_every_type_that_reads_itself(rt: HostRuntime) {
    let text = b"-12,5";
    answers(
        &rt,
        both::<i8>(text),
        (Err(Error::InvalidDigit(3)), Ok((-12, 3))),
    );
}

// The number at the front of a text under a format.
fn field<T>(text: &[u8], format: &NumberFormat) -> Result<(T, usize)>
where
    T: FromLexicalWithOptions<Options = Options>,
    ensures { view_of (with_place T.number) result ≡ partial_if_valid format.now T.TYPE text.now }
{
    T::from_lexical_partial_with_options(text, format, &LARGE_NUMBERS)
}

#[test]
fn callers_over_every_type_that_reads_itself_with_options(rt: HostRuntime) {
    let format = with_all_parts();
    answers(&rt, field::<i16>(b"-0x1_2h,", &format), Ok((-12, 7)));
    let radixless = NumberFormatBuilder::from_radix(1);
    answers(
        &rt,
        field::<u128>(b"0", &radixless),
        Err(Error::InvalidMantissaRadix),
    );
}
