//! Laws of the grammar and of its parsers.
//!
//! A law is a call whose contract says what always holds. Each call here makes its parses and hands
//! their answers back; those of `grammar` are about the definitions alone.
//! A text's front is what the partial parser reads.
ghost use Rattle.std.specs.Prelude.{◌≡◌, ◌+◌, IsNone, Ok, OnOk, length, ℕ, ℤ};
ghost use Rattle.lexical_parse_integer.specs.Answer.{with_place, view_of};
ghost use Rattle.lexical_parse_integer.specs.Grammar.{complete, partial};
ghost use Rattle.lexical_parse_integer.specs.Laws.{Completes, IsNumeralOf, IsSettledAt, PadsZeros, SameFront, with_radix};
ghost use Rattle.lexical_util.specs.Digit.{IsRadix};
ghost use Rattle.lexical_util.specs.Format.{standard};
ghost use Rattle.lexical_util.specs.Number.{IsNumber};
ghost use Rattle.lexical_util.specs.Validity.{fault};

pub mod grammar;
pub mod turns;

use crate::algorithm::{algorithm_complete, algorithm_partial};
use crate::options::{self, LARGE_NUMBERS, Options, SMALL_NUMBERS};
use lexical_util::format::{self, NumberFormat, NumberFormatBuilder};
use lexical_util::num::Integer;
use lexical_util::result::Result;

/// The complete and the partial answer of one text: the first follows from the second.
///
/// Lean on it where a front was parsed and the whole text is to be judged too: one parse is enough.
/// The whole text is read exactly where its front is the whole text. A front that stops before the end
/// makes the complete answer `InvalidDigit` at that place. A fault other than `Empty` is the
/// complete one too. A partial `Empty` is the complete one at the text's end, and before it makes
/// that `InvalidDigit` at its place.
///
/// Under the standard format `12x` as `i32` gives `InvalidDigit(2)` and `Ok((12, 2))`.
#[tactic(auto, using(crate::proofs::theorems::WholeByFront::answers_complete))]
pub fn complete_and_partial<T: Integer>(
    bytes: &[u8],
    format: &NumberFormat,
    options: &Options,
) -> (Result<T>, Result<(T, usize)>)
    requires valid { IsNone (fault format.now) }
    ensures whole { view_of T.number result.0 ≡ complete format.now T.TYPE bytes.now }
    ensures front { view_of (with_place T.number) result.1 ≡ partial format.now T.TYPE bytes.now }
    ensures law { Completes (length bytes.now) (view_of T.number result.0)
        (view_of (with_place T.number) result.1) }
{
    let whole = algorithm_complete::<T>(bytes, format, options);
    let front = algorithm_partial::<T>(bytes, format, options);
    (whole, front)
}

/// The partial answers of two texts: they are equal where the first is settled at a place and the second has the same
/// bytes up to and including that place.
///
/// An answer is settled at a place where the front ends there, before the text does, or where the value leaves the type
/// there. The format has to have no separator byte: with one, later bytes may decide whether a run of separators
/// passes.
///
/// Lean on it to cut an input after the byte at which a parse stopped, or to parse before all of
/// it has come: no byte after that one changes the answer. A front that is all of the text isn't
/// settled: `12` may go on as `123`.
///
/// Under the standard format `12 x` and `12 345` both give `Ok((12, 2))` as `u64`, and `2567` and
/// `256abc` both give `Overflow(2)` as `u8`.
pub fn local<T: Integer>(
    bytes: &[u8],
    other: &[u8],
    format: &NumberFormat,
    options: &Options,
) -> (Result<(T, usize)>, Result<(T, usize)>)
    requires valid { IsNone (fault format.now) }
    ensures first { view_of (with_place T.number) result.0 ≡ partial format.now T.TYPE bytes.now }
    ensures second { view_of (with_place T.number) result.1 ≡ partial format.now T.TYPE other.now }
    ensures law { IsNone format.now.digit_separator → (place : ℕ)
        → IsSettledAt (length bytes.now) place (view_of (with_place T.number) result.0)
        → SameFront (place + 1) bytes.now other.now → result.1 ≡ result.0 }
{
    let first = algorithm_partial::<T>(bytes, format, options);
    let second = algorithm_partial::<T>(other, format, options);
    (first, second)
}

/// The complete answer of a text in a radix from 2 to 36: where the text is the shortest numeral of
/// a number of the type, that number.
///
/// Lean on it to read back what a writer wrote. Show that its text is the shortest numeral of a
/// value, with letters in either case and `-` before a value below 0; then that value is read.
/// What std writes of an integer is such a text: see `grammar::numerals`.
///
/// `-10000000` in radix 2 gives -128 as `i8`, and `zZ` in radix 36 gives 1295 as `u16`.
#[tactic(auto, using(crate::proofs::theorems::ReadBack::answer_read))]
pub fn numeral<T: Integer>(text: &[u8], radix: u32) -> Result<T>
    requires { IsRadix radix }
    ensures answer { view_of T.number result ≡ complete (with_radix radix) T.TYPE text.now }
    ensures law { (value : ℤ) → IsNumber T.TYPE value
        → IsNumeralOf radix value text.now → view_of T.number result ≡ Ok value }
{
    let format = NumberFormatBuilder::from_radix(radix as u8);
    algorithm_complete::<T>(text, &format, &options::STANDARD)
}

/// The complete answers of two texts under the standard format: where the second text is the first
/// with zeros put before its first digit, and the first is read, both have the same value.
///
/// Lean on it where numbers come filled up to a width, as in columns and counters.
///
/// `-128` and `-00128` both give -128 as `i8`.
pub fn zeros_in_front<T: Integer>(text: &[u8], padded: &[u8]) -> (Result<T>, Result<T>)
    ensures first { view_of T.number result.0 ≡ complete standard T.TYPE text.now }
    ensures second { view_of T.number result.1 ≡ complete standard T.TYPE padded.now }
    ensures law { PadsZeros text.now padded.now → OnOk result.0 (result.1 ≡ result.0) }
{
    let first = algorithm_complete::<T>(text, &format::STANDARD, &options::STANDARD);
    let second = algorithm_complete::<T>(padded, &format::STANDARD, &options::STANDARD);
    (first, second)
}

/// The partial answers of one text with `SMALL_NUMBERS` and with `LARGE_NUMBERS`: they are equal.
///
/// Lean on it to choose between the two by speed alone: no value, place or fault depends on the
/// choice.
///
/// Under the standard format `18446744073709551616` as `u64` gives `Overflow(19)` twice.
pub fn small_and_large<T: Integer>(
    bytes: &[u8],
    format: &NumberFormat,
) -> (Result<(T, usize)>, Result<(T, usize)>)
    requires valid { IsNone (fault format.now) }
    ensures small { view_of (with_place T.number) result.0 ≡ partial format.now T.TYPE bytes.now }
    ensures large { view_of (with_place T.number) result.1 ≡ partial format.now T.TYPE bytes.now }
    ensures law { result.1 ≡ result.0 }
{
    let small = algorithm_partial::<T>(bytes, format, &SMALL_NUMBERS);
    let large = algorithm_partial::<T>(bytes, format, &LARGE_NUMBERS);
    (small, large)
}

/// Options taken apart and built again: they are equal to the ones given.
///
/// Lean on it to change one field of options that came from elsewhere: the builder that `rebuild`
/// gives has all the others.
///
/// Of `LARGE_NUMBERS` it gives options equal to `LARGE_NUMBERS`, whose `get_no_multi_digit()` is
/// false.
pub fn rebuilt(options: &Options) -> Options
    ensures { result ≡ options.now }
{
    options.rebuild().build_unchecked()
}
