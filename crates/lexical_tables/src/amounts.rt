//! Amounts that are read at once: digits around a point whose place is known by how many digits stand behind it.

ghost use Rattle.std.specs.Prelude.{◌≡◌, ◌↔◌, ◌==◌, ◌+◌, ◌-◌, ◌*◌, ◌&&◌, ◌<◌, ◌≤◌, ◌^◌, ◌++◌, ◌∷◌, [], IfSome, IsTrue, length, slice_index, slice_range, take, true};
ghost use mir.Val.{bool_byte};
ghost use Rattle.lexical_util.specs.Ascii.{minus};
ghost use Rattle.lexical_digits.specs.WrittenNumbers.{WritesDecimal};
ghost use Rattle.lexical_fixed.specs.Quick.{begins_with_zero, without, without_point};
ghost use Rattle.lexical_tables.specs.Amounts.{IsAmount, IsBehindPoint, IsQuick};

use lexical_fields::number_to_12;
use lexical_fixed::FixedFormat;
use lexical_fixed::quick::begins_with_zero;
use lexical_parse_integer::laws::grammar::front_digits;
use lexical_parse_integer::quick::is_decimal;
use std::simd::prelude::*;

// Row n has the places of sixteen bytes without place n. The 128 makes the last lane 0.
static PLACES: [[u8; 16]; 13] = [
    [1, 2, 3, 4, 5, 6, 7, 8, 9, 10, 11, 12, 13, 14, 15, 128],
    [0, 2, 3, 4, 5, 6, 7, 8, 9, 10, 11, 12, 13, 14, 15, 128],
    [0, 1, 3, 4, 5, 6, 7, 8, 9, 10, 11, 12, 13, 14, 15, 128],
    [0, 1, 2, 4, 5, 6, 7, 8, 9, 10, 11, 12, 13, 14, 15, 128],
    [0, 1, 2, 3, 5, 6, 7, 8, 9, 10, 11, 12, 13, 14, 15, 128],
    [0, 1, 2, 3, 4, 6, 7, 8, 9, 10, 11, 12, 13, 14, 15, 128],
    [0, 1, 2, 3, 4, 5, 7, 8, 9, 10, 11, 12, 13, 14, 15, 128],
    [0, 1, 2, 3, 4, 5, 6, 8, 9, 10, 11, 12, 13, 14, 15, 128],
    [0, 1, 2, 3, 4, 5, 6, 7, 9, 10, 11, 12, 13, 14, 15, 128],
    [0, 1, 2, 3, 4, 5, 6, 7, 8, 10, 11, 12, 13, 14, 15, 128],
    [0, 1, 2, 3, 4, 5, 6, 7, 8, 9, 11, 12, 13, 14, 15, 128],
    [0, 1, 2, 3, 4, 5, 6, 7, 8, 9, 10, 12, 13, 14, 15, 128],
    [0, 1, 2, 3, 4, 5, 6, 7, 8, 9, 10, 11, 13, 14, 15, 128],
];

static POWERS: [u64; 7] = [1, 10, 100, 1_000, 10_000, 100_000, 1_000_000];

// A power of ten.
#[inline(always)]
fn power_of_ten(exponent: usize) -> u64
    requires { exponent ≤ 6 }
    ensures value { result ≡ 10 ^ exponent }
    ensures small { result ≤ 10 ^ 6 }
{
    POWERS[exponent]
}

// The first bytes of a text but for the one at a place.
#[inline(always)]
fn bytes_without(text: &[u8], place: usize) -> [u8; 16]
    requires few { place < 13 }
    requires room { 16 ≤ length text.now }
    ensures { result ≡ take 15 (without place text.now) ++ 0 ∷ [] }
{
    u8x16::from_slice(text)
        .swizzle_dyn(u8x16::from_array(PLACES[place]))
        .to_array()
}

// The number of a text's first `count` bytes but for the one at a place, where they are digits.
#[inline(always)]
fn number_around(text: &[u8], count: usize, place: usize) -> Option<u64>
    requires few { count ≤ 13 }
    requires within { place < count }
    requires room { 16 ≤ length text.now }
    ensures writes { IfSome result
        (λ number. WritesDecimal 0 (without place (take count text.now)) number) }
    ensures small { IfSome result (λ number. number < 10 ^ 12) }
{
    number_to_12(&bytes_without(text, place), count - 1)
}

// The number of a text's first `count` bytes without the point, which has `behind` bytes behind it,
// if the others are digits. Where `behind` is 0, there is no point.
#[inline(always)]
fn number_written(text: &[u8], count: usize, behind: usize) -> Option<u64>
    requires few { count ≤ 13 }
    requires room { 16 ≤ length text.now }
    requires within { 1 ≤ behind → behind + 2 ≤ count }
    ensures writes { IfSome result
        (λ number. WritesDecimal 0 (without_point behind (take count text.now)) number) }
    ensures small { IfSome result (λ number. number < 10 ^ 12) }
{
    if behind > 0 {
        return number_around(text, count, count - 1 - behind);
    }
    if count > 12 {
        return None;
    }
    number_to_12(text, count)
}

// Whether a text's first `count` bytes have the point in front of the last `behind` of them, and a
// byte before it.
#[inline(always)]
fn stands_before(text: &[u8], count: usize, point: u8, behind: usize) -> bool
    requires within { count ≤ length text.now }
    requires few { behind ≤ 11 }
    ensures { IsTrue result → (behind + 2 ≤ count)
        × (slice_index text.now (count - 1 - behind) ≡ point) }
{
    count >= behind + 2 && text[count - 1 - behind] == point
}

// How many of a text's first `count` bytes stand behind the point, if fewer than `places` may: 0 where no point is found.
#[inline(always)]
fn count_behind(text: &[u8], count: usize, point: u8, places: usize) -> usize
    requires within { count ≤ length text.now }
    requires some { 1 ≤ places }
    requires few { places ≤ 6 }
    ensures { IsBehindPoint point places true (take count text.now) result }
{
    let mut behind = places - 1;
    while behind > 0 {
        if stands_before(text, count, point, behind) {
            return behind;
        }
        behind -= 1;
    }
    0
}

/// The number that a text's first `size` bytes stand for, in units of the last place, and whether a minus stands in
/// front.
///
/// It reads up to twelve decimal digits, alone or behind a minus, with the point among them and `places` digits behind
/// it: one to eleven. If `takes_fewer`, `places` is at most six, and fewer digits behind the point are enough, or no
/// point at all. Seventeen more bytes have to follow. `None` says nothing of the bytes.
///
/// It is for implementations of [`TableColumn`](crate::TableColumn), in their `read_amount`.
#[inline(always)]
pub fn units_of_front(
    text: &[u8],
    size: usize,
    point: u8,
    places: usize,
    takes_fewer: bool,
) -> Option<(bool, u64)>
    requires some { 1 ≤ places }
    requires few { places ≤ 11 }
    requires fewer { IsTrue takes_fewer → places ≤ 6 }
    requires room { size + 17 ≤ length text.now }
    ensures stands { IfSome result (λ found. IsAmount point places takes_fewer
        found.0 found.1 (take size text.now)) }
    ensures minus { IfSome result (λ found. found.0 ≡ (slice_index text.now 0 == minus)) }
    ensures small { IfSome result (λ found. found.1 < 2 ^ 63) }
{
    // The law by which the front has a digit.
    front_digits();
    let is_negative = text[0] == b'-';
    let digits = &text[usize::from(is_negative)..];
    let count = size.wrapping_sub(usize::from(is_negative));
    if count.wrapping_sub(1) > 12 {
        return None;
    }
    if stands_before(digits, count, point, places) {
        let number = number_written(digits, count, places)?;
        return Some((is_negative, number));
    }
    if !takes_fewer {
        return None;
    }
    let behind = count_behind(digits, count, point, places);
    let number = number_written(digits, count, behind)?;
    Some((is_negative, number * power_of_ten(places - behind)))
}

/// Whether a text's first `size` bytes begin, behind an optional minus, with a zero that may not stand there: another
/// byte than the point follows it, and the integer part's format forbids leading zeros (`has_rule`). One more byte has
/// to follow the `size` bytes.
///
/// It is for implementations of [`TableColumn`](crate::TableColumn), before [`units_of_front`], which reads such
/// amounts.
#[inline(always)]
pub fn breaks_zero_rule(text: &[u8], size: usize, has_rule: bool, point: u8) -> bool
    requires { size < length text.now }
    ensures { result ≡ (has_rule && begins_with_zero point
        (slice_range text.now (bool_byte (slice_index text.now 0 == minus)) size)) }
{
    if !has_rule {
        return false;
    }
    let start = usize::from(text[0] == b'-');
    begins_with_zero(&text[start..size.max(start)], point)
}

/// Whether amounts under a description are read by [`units_of_front`]: it has one to eleven places, or at most six if
/// it takes fewer, its point is no quote, and its integer part is decimal, has no separator and asks for no sign. If
/// the integer part forbids leading zeros, call [`breaks_zero_rule`] too.
#[inline]
pub fn is_quick(format: &FixedFormat) -> bool
    ensures { IsTrue result ↔ IsQuick format.now }
{
    if !is_decimal(format.integer()) || format.point() == b'"' {
        return false;
    }
    let most = if format.takes_fewer() { 6 } else { 11 };
    format.places() >= 1 && format.places() <= most
}
