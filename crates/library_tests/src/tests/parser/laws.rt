// The laws at examples, and callers that lean on them.

ghost use Rattle.std.specs.Prelude.{◌≡◌, ◌<◌, ◌≤◌, Ok, length};
ghost use Rattle.std.specs.Fmt.{decimal};
ghost use Rattle.lexical_parse_integer.specs.Answer.{with_place, view_of};
ghost use Rattle.lexical_parse_integer.specs.Laws.{IsSettledAt};

use crate::tests::answers;
use lexical_parse_integer::FromLexical;
use lexical_parse_integer::cursor::Cursor;
use lexical_parse_integer::laws::grammar::{numerals, range_faults};
use lexical_parse_integer::laws::turns::{complete_in_few_turns, partial_in_few_turns};
use lexical_parse_integer::laws::{
    complete_and_partial, local, numeral, rebuilt, small_and_large, zeros_in_front,
};
use lexical_parse_integer::options::{LARGE_NUMBERS, SMALL_NUMBERS};
use lexical_util::error::Error;
use lexical_util::format::{JSON, STANDARD};
use lexical_util::num::Integer;
use lexical_util::result::Result as Answer;

// A reader that cuts its text behind a place: where the answer is settled there, the rest isn't needed.
fn cut<T: Integer>(text: &[u8], place: usize) -> (Answer<(T, usize)>, Answer<(T, usize)>)
    requires { place < length text.now }
    ensures { IsSettledAt (length text.now) place (view_of (with_place T.number) result.0)
        → result.1 ≡ result.0 }
{
    local::<T>(text, &text[..place + 1], &STANDARD, &SMALL_NUMBERS)
}

// A round trip: what std writes of a number is read back.
fn read_back(text: &[u8], value: u64) -> Answer<u64>
    requires { text.now ≡ decimal value }
    ensures { result ≡ Ok value }
{
    numerals();
    numeral::<u64>(text, 10)
}

// The byte with which a value leaves `u8`: its place is within the text, so that no index fails.
fn byte_too_many(text: &[u8]) -> Option<u8> {
    range_faults();
    match u8::from_lexical(text) {
        Err(Error::Overflow(place)) => Some(text[place]),
        _ => None,
    }
}

// Readers that count: eight digits of 64 bits are one turn, and a sign that is a fault is none.
fn eight_in_a_turn() -> (Answer<u64>, Cursor<'static>)
    ensures { result.1.turns ≤ 1 }
{
    complete_in_few_turns::<u64>(b"12345678", &STANDARD)
}

fn front_in_a_turn() -> (Answer<(u64, usize)>, Cursor<'static>)
    ensures { result.1.turns ≤ 1 }
{
    partial_in_few_turns::<u64>(b"12345678", &STANDARD)
}

fn plus_in_no_turn() -> (Answer<u64>, Cursor<'static>)
    ensures { result.1.turns ≡ 0 }
{
    complete_in_few_turns::<u64>(b"+1", &JSON)
}

#[test]
fn turns_follow_from_digits(rt: HostRuntime) {
    answers(&rt, eight_in_a_turn().0, Ok(12_345_678));
    answers(&rt, front_in_a_turn().0, Ok((12_345_678, 8)));
    answers(&rt, plus_in_no_turn().0, Err(Error::InvalidPositiveSign(0)));
}

#[test]
fn callers_that_lean_on_laws(rt: HostRuntime) {
    answers(&rt, byte_too_many(b"256"), Some(b'6'));
    answers(&rt, cut::<u64>(b"12 x", 2), (Ok((12, 2)), Ok((12, 2))));
}

#[test]
fn what_std_writes_is_read_back(rt: HostRuntime) {
    answers(&rt, read_back(b"42", 42), Ok(42));
}

#[test]
fn laws_make_their_parses(rt: HostRuntime) {
    answers(
        &rt,
        complete_and_partial::<i32>(b"12x", &STANDARD, &SMALL_NUMBERS),
        (Err(Error::InvalidDigit(2)), Ok((12, 2))),
    );
    answers(&rt, numeral::<u16>(b"zZ", 36), Ok(1295));
    let zeros = zeros_in_front::<i8>(b"-128", b"-00128");
    answers(&rt, zeros, (Ok(-128), Ok(-128)));
    let small = small_and_large::<u64>(b"18446744073709551616", &STANDARD);
    let overflow = Err(Error::Overflow(19));
    answers(&rt, small, (overflow, overflow));
    answers(&rt, rebuilt(&LARGE_NUMBERS), LARGE_NUMBERS);
}
