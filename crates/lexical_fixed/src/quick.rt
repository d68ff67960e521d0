//! The parsers in two halves, under a valid description: for this crate, tables and calls from C.
//!
//! The first half is the fast path. It reads most texts, and its `None` says nothing of a text. The second half has the
//! answer for what the first one left. Up to fifteen digits around a point are read as one word or two, and a longer
//! text from its point. Fronts are read in one pass, where the integer part is digits alone and the fraction is short.
ghost use Rattle.std.specs.Prelude.{◌≡◌, ◌==◌, ◌≤◌, ◌<◌, ◌+◌, ◌^◌, if◌then◌else◌, IfSome, IsNone, Ok, length, pos, true};
ghost use Rattle.lexical_util.specs.Number.{HasSign, is_number, mul_add};
ghost use Rattle.lexical_parse_integer.specs.Answer.{with_place};
ghost use Rattle.lexical_fixed.specs.Fraction.{front_end};
ghost use Rattle.lexical_fixed.specs.Grammar.{front_behind, integer_part, is_negative, partial_fixed};
ghost use Rattle.lexical_fixed.specs.Quick.{IsFraction};
ghost use Rattle.lexical_fixed.specs.Validity.{fixed_fault};

use crate::append::append_number;
pub use crate::by_point::units_in_groups;
use crate::format::FixedFormat;
use crate::fraction::stands_at;
use crate::parse::is_negative;
pub use crate::parse::{complete_if_long, complete_if_not_short, partial_if_left};
pub use crate::short::{begins_with_zero, value_if_fewer, value_if_short};
use lexical_digits::fronts::number_in_front;
use lexical_parse_integer::laws::grammar::front_digits;
use lexical_parse_integer::quick::front_if_plain;
use lexical_parse_integer::stops_after_digit;
use lexical_util::num::Integer;

/// Who calls [`value_if_short`], and the readers of digits below it. So each caller has an instance of its own, which
/// the compiler inlines: it wouldn't inline a large function that has several callers.
pub mod callers {
    /// One text under any description.
    pub const TEXT: u8 = 0;
    /// One text under a description that the compiler knows in part.
    pub const KNOWN: u8 = 1;
    /// A cell of a table.
    pub const CELL: u8 = 2;
}

// The number of the fraction and how many digits it has, if these are one to seven. Both are 0
// without a point, and where the description lets a point stand behind the front.
#[inline(always)]
fn short_fraction(text: &[u8], format: &FixedFormat, place: usize) -> Option<(u32, usize)>
    requires { place ≤ length text.now }
    ensures { IfSome result
        (λ found. IsFraction format.now text.now place found.0 found.1) }
{
    if !stands_at(text, format.point(), place) {
        return Some((0, 0));
    }
    let rest = &text[place + 1..];
    if rest.is_empty() {
        return None;
    }
    let (number, count) = number_in_front(rest);
    if count == 0 && format.takes_fewer() {
        return Some((0, 0));
    }
    if count == 0 || count > 7 || count > format.places() {
        return None;
    }
    Some((number, count))
}

// Where a front ends whose integer part ends at `place` and whose fraction has `count` digits: a
// point without digits behind it isn't read.
#[inline(always)]
fn end_behind(place: usize, count: usize) -> usize
    requires { place + 1 + count < 2 ^ 64 }
    ensures { result ≡ (if count == 0 then place else place + 1 + count) }
{
    if count == 0 { place } else { place + 1 + count }
}

// The number in units behind an integer part that ends at a place, and a fraction that is known.
#[inline(always)]
fn short_units<T: Integer>(
    text: &[u8],
    format: &FixedFormat,
    whole: T,
    place: usize,
    number: u32,
    count: usize,
) -> Option<T>
    requires bits { 32 ≤ T.TYPE.bits }
    requires sign { HasSign (is_negative T.TYPE text.now) (T.number whole) }
    requires fraction { IsFraction format.now text.now place number count }
    ensures { IfSome result (λ units. front_behind format.now T.TYPE text.now (T.number whole) place
        ≡ Ok (T.number units, front_end format.now text.now place)) }
{
    let is_negative = is_negative::<T>(text);
    let Some(written) = append_number::<T>(whole, number, count, is_negative) else {
        return None;
    };
    let zeros = format.places() - count;
    if zeros == 0 {
        return Some(written);
    }
    if !format.takes_fewer() || zeros > 9 {
        return None;
    }
    let Some(units) = append_number::<T>(written, 0, zeros, is_negative) else {
        return None;
    };
    Some(units)
}

// An integer part of digits alone, behind a minus or none, and the place behind it.
#[inline(always)]
pub(crate) fn plain_part<T: Integer>(text: &[u8], format: &FixedFormat) -> Option<(T, usize)>
    requires valid { IsNone (fixed_fault format.now) }
    ensures within { IfSome result (λ found. found.1 ≤ length text.now) }
    ensures sign { IfSome result
        (λ found. HasSign (is_negative T.TYPE text.now) (T.number found.0)) }
    ensures answer { IfSome result
        (λ found. integer_part format.now.integer T.TYPE text.now
        ≡ Ok (with_place T.number found)) }
{
    // The law by which the front has a digit.
    front_digits();
    if format.integer().digit_separator().is_some() {
        return None;
    }
    let Some((whole, place)) = front_if_plain::<T>(text, format.integer()) else {
        return None;
    };
    if !stops_after_digit(text, place, 10) {
        return None;
    }
    Some((whole, place))
}

/// The number in front of the text, and the place at which reading stops, for most texts. `None` says nothing of the text.
#[inline(always)]
pub fn front_at_once<T: Integer>(text: &[u8], format: &FixedFormat) -> Option<(T, usize)>
    requires valid { IsNone (fixed_fault format.now) }
    ensures { IfSome result
        (λ found. partial_fixed format.now T.TYPE text.now ≡ Ok (with_place T.number found)) }
{
    if T::BITS < 32 {
        return None;
    }
    let Some((whole, place)) = plain_part::<T>(text, format) else {
        return None;
    };
    let Some((number, count)) = short_fraction(text, format, place) else {
        return None;
    };
    match short_units::<T>(text, format, whole, place, number, count) {
        Some(units) => Some((units, end_behind(place, count))),
        None => None,
    }
}
