//! How many turns a parse takes.
//!
//! A turn is one digit taken alone, or one word of four or eight digits taken at once. Each call here parses over a
//! cursor with `LARGE_NUMBERS` and hands back the answer and the cursor, which counts its turns. Let `d` be how many
//! digits the numeral has, whatever comes before or after it, and `m` the smaller of `d` and what `T::overflow_digits`
//! answers for the effective radix. For every text and every answer, where the format has no separator byte and the
//! effective radix is at most 10, it takes at most `m / w + m % w + (d - m)` turns: `w` is 4 for types of 32 bits, and
//! 8 for those of 64 bits and more. A fault of the sign takes none.
ghost use Rattle.std.specs.Prelude.{◌≡◌, ◌≤◌, IsNone, OnOk};
ghost use Rattle.lexical_parse_integer.specs.Answer.{with_place, view_of};
ghost use Rattle.lexical_parse_integer.specs.Grammar.{complete, partial};
ghost use Rattle.lexical_parse_integer.specs.Reading.{IsOver, StandsAtStop};
ghost use Rattle.lexical_parse_integer.specs.Turns.{HasFewTurns};
ghost use Rattle.lexical_util.specs.Validity.{fault};

use crate::algorithm::{algorithm_complete_on, algorithm_partial_on};
use crate::cursor::Cursor;
use crate::options::LARGE_NUMBERS;
use lexical_util::format::NumberFormat;
use lexical_util::num::Integer;
use lexical_util::result::Result;

/// The complete answer, and the cursor that it was read with, after few turns.
///
/// Lean on it to bound the work of a parse by the digits of its numeral alone.
///
/// Under the standard format `1234567812345678` as `u64` takes at most 2 turns, and `+1` takes none where the format
/// forbids the plus.
pub fn complete_in_few_turns<'a, T: Integer>(
    bytes: &'a [u8],
    format: &NumberFormat,
) -> (Result<T>, Cursor<'a>)
    requires valid { IsNone (fault format.now) }
    ensures answer { view_of T.number result.0 ≡ complete format.now T.TYPE bytes.now }
    ensures over { IsOver bytes.now format.now result.1 }
    ensures at_stop { OnOk result.0 (StandsAtStop format.now T.TYPE bytes.now result.1) }
    ensures few { IsNone format.now.digit_separator → 32 ≤ T.BITS
        → HasFewTurns format.now T.TYPE bytes.now result.1.turns }
{
    let mut c = Cursor::new(bytes, format);
    let answer = algorithm_complete_on::<T>(&mut c, &LARGE_NUMBERS);
    (answer, c)
}

/// The partial answer, and the cursor that it was read with, after few turns.
///
/// Lean on it to bound the work of a parse by the digits of its numeral alone.
///
/// Under the standard format `12345678, 9` as `u64` takes at most 1 turn, since eight digits are a word.
pub fn partial_in_few_turns<'a, T: Integer>(
    bytes: &'a [u8],
    format: &NumberFormat,
) -> (Result<(T, usize)>, Cursor<'a>)
    requires valid { IsNone (fault format.now) }
    ensures answer { view_of (with_place T.number) result.0 ≡ partial format.now T.TYPE bytes.now }
    ensures over { IsOver bytes.now format.now result.1 }
    ensures at_stop { OnOk result.0 (StandsAtStop format.now T.TYPE bytes.now result.1) }
    ensures few { IsNone format.now.digit_separator → 32 ≤ T.BITS
        → HasFewTurns format.now T.TYPE bytes.now result.1.turns }
{
    let mut c = Cursor::new(bytes, format);
    let answer = algorithm_partial_on::<T>(&mut c, &LARGE_NUMBERS);
    (answer, c)
}
