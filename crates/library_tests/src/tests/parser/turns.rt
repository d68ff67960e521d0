// How many turns a parse takes. Contracts and lemmas have the numbers, which the check proves for these texts
// (proofs/WorkedTurns.antt). A run shows only the answers.
ghost use Rattle.std.specs.Prelude.{◌≡◌, IsNone, OnOk, false};
ghost use Rattle.lexical_util.specs.Validity.{fault};
ghost use Rattle.lexical_parse_integer.specs.Turns.{AsksWords, HasFewTurns};

use crate::tests::answers;
use lexical_parse_integer::algorithm::{algorithm_complete_on, algorithm_partial_on};
use lexical_parse_integer::cursor::Cursor;
use lexical_parse_integer::format::STANDARD;
use lexical_parse_integer::options::{LARGE_NUMBERS, SMALL_NUMBERS};
use lexical_parse_integer::{Error, NumberFormat, NumberFormatBuilder, Result};
use lexical_util::num::Integer;

// Reads a whole text by words of digits; the cursor has the turns.
fn complete<T: Integer>(text: &'static [u8], format: &NumberFormat) -> (Result<T>, Cursor<'static>)
    requires valid { IsNone (fault format.now) }
    requires words { AsksWords T.BITS false format.now }
    ensures { HasFewTurns format.now T.TYPE text.now result.1.turns }
{
    let mut c = Cursor::new(text, format);
    let answer = algorithm_complete_on::<T>(&mut c, &LARGE_NUMBERS);
    (answer, c)
}

// Reads the front of a text by words of digits; the cursor has the turns.
fn partial<T: Integer>(
    text: &'static [u8],
    format: &NumberFormat,
) -> (Result<(T, usize)>, Cursor<'static>)
    requires valid { IsNone (fault format.now) }
    requires words { AsksWords T.BITS false format.now }
    ensures { HasFewTurns format.now T.TYPE text.now result.1.turns }
{
    let mut c = Cursor::new(text, format);
    let answer = algorithm_partial_on::<T>(&mut c, &LARGE_NUMBERS);
    (answer, c)
}

// A fault of the sign takes no turn.
#[tactic(auto, unfolding(lexical_parse_integer::specs::Computed::grammar))]
fn refused_plus() -> (Result<i32>, Cursor<'static>)
    ensures { result.1.turns ≡ 0 }
{
    let format = NumberFormatBuilder::new()
        .no_positive_mantissa_sign(true)
        .build_unchecked();
    complete(b"+1", &format)
}

// Without words an answer takes a turn for each digit, for every type.
fn sixteen_one_by_one() -> (Result<u64>, Cursor<'static>)
    ensures { OnOk result.0 (result.1.turns ≡ 16) }
{
    let mut c = Cursor::new(b"1234567812345678", &STANDARD);
    let answer = algorithm_complete_on::<u64>(&mut c, &SMALL_NUMBERS);
    (answer, c)
}

fn three_one_by_one() -> (Result<(u8, usize)>, Cursor<'static>)
    ensures { OnOk result.0 (result.1.turns ≡ 3) }
{
    let mut c = Cursor::new(b"255.5", &STANDARD);
    let answer = algorithm_partial_on::<u8>(&mut c, &SMALL_NUMBERS);
    (answer, c)
}

// Only the answers: what is known of a cursor slows the proof of each call behind it.
fn answers_in_turns() -> (Result<u32>, Result<(i32, usize)>) {
    (
        complete::<u32>(b"12345678", &STANDARD).0,
        partial::<i32>(b"12345x", &STANDARD).0,
    )
}

fn answers_one_by_one() -> (Result<i32>, Result<u64>, Result<(u8, usize)>) {
    (
        refused_plus().0,
        sixteen_one_by_one().0,
        three_one_by_one().0,
    )
}

#[test]
fn texts_in_their_turns(rt: HostRuntime) {
    answers(&rt, answers_in_turns(), (Ok(12_345_678), Ok((12_345, 5))));
    let plus = Err(Error::InvalidPositiveSign(0));
    let expected = (plus, Ok(1_234_567_812_345_678), Ok((255, 3)));
    answers(&rt, answers_one_by_one(), expected);
}
