//! Four or eight digits read at once, as lanes of a vector: a mask says which lanes are digits, and neighbours are
//! joined in pairs. Lanes are widened before a step whose result wouldn't fit, so no lane wraps.
//!
//! Both readers stay out of line: inlined, they make a parser too large to be inlined itself.
ghost use Rattle.std.specs.Prelude.{◌≡◌, ◌+◌, ◌-◌, ◌*◌, ◌<◌, ◌≤◌, ◌∷◌, [], if◌then◌else◌, length, map, None, Some, true};
ghost use Rattle.std.specs.Simd.Lanes.{Each1};
ghost use Rattle.lexical_util.specs.Ascii.{digit_zero};
ghost use Rattle.lexical_digits.specs.Lanes.{are_digit_lanes, pairs_of};
ghost use Rattle.lexical_digits.specs.Words.{word_value};

use std::simd::prelude::*;

/// The number that four bytes write, where all of them are digits of the radix.
#[inline(never)]
pub fn value_of_4lanes(bytes: &[u8], radix: u32) -> Option<u32>
    requires size { length bytes.now ≡ 4 }
    requires least { 2 ≤ radix }
    requires greatest { radix ≤ 10 }
    ensures { result ≡ (if are_digit_lanes radix bytes.now
        then Some (word_value radix bytes.now) else None) }
{
    let lanes = u8x4::from_slice(bytes);
    if !are_4digits(lanes, radix as u8) {
        return None;
    }
    let pairs = join_4digits(digits_in_4(lanes, radix as u8), radix as u8);
    Some(join_2pairs(pairs, radix * radix))
}

/// The number that eight bytes write, where all of them are digits of the radix.
#[inline(never)]
pub fn value_of_8lanes(bytes: &[u8], radix: u32) -> Option<u32>
    requires size { length bytes.now ≡ 8 }
    requires least { 2 ≤ radix }
    requires greatest { radix ≤ 10 }
    ensures { result ≡ (if are_digit_lanes radix bytes.now
        then Some (word_value radix bytes.now) else None) }
{
    let lanes = u8x8::from_slice(bytes);
    if !are_8digits(lanes, radix as u8) {
        return None;
    }
    let pairs = join_8digits(digits_in_8(lanes, radix as u8), radix as u8);
    let fours = join_4pairs(pairs, (radix * radix) as u16);
    Some(join_fours(fours, radix * radix * (radix * radix)))
}

// Whether each of four lanes is a digit.
#[inline(always)]
fn are_4digits(lanes: u8x4, radix: u8) -> bool
    requires { radix ≤ 10 }
    ensures { result ≡ are_digit_lanes radix lanes }
{
    let least = lanes.simd_ge(u8x4::splat(b'0'));
    let most = lanes.simd_lt(u8x4::splat(b'0' + radix));
    (least & most).all()
}

// Whether each of eight lanes is a digit.
#[inline(always)]
fn are_8digits(lanes: u8x8, radix: u8) -> bool
    requires { radix ≤ 10 }
    ensures { result ≡ are_digit_lanes radix lanes }
{
    let least = lanes.simd_ge(u8x8::splat(b'0'));
    let most = lanes.simd_lt(u8x8::splat(b'0' + radix));
    (least & most).all()
}

// The values of four digits.
#[inline(always)]
fn digits_in_4(lanes: u8x4, radix: u8) -> u8x4
    requires { are_digit_lanes radix lanes ≡ true }
    ensures { result ≡ map (λ byte. byte - digit_zero) lanes }
{
    lanes.strict_sub(u8x4::splat(b'0'))
}

// The values of eight digits.
#[inline(always)]
fn digits_in_8(lanes: u8x8, radix: u8) -> u8x8
    requires { are_digit_lanes radix lanes ≡ true }
    ensures { result ≡ map (λ byte. byte - digit_zero) lanes }
{
    lanes.strict_sub(u8x8::splat(b'0'))
}

// Two pairs of digits, each at most 99.
#[inline(always)]
fn join_4digits(digits: u8x4, radix: u8) -> u8x2
    requires most { radix ≤ 10 }
    requires digits { Each1 (λ digit. digit < radix) digits }
    ensures { result ≡ pairs_of radix digits }
{
    let d = digits.to_array();
    let left = u8x2::from_array([d[0], d[2]]);
    let right = u8x2::from_array([d[1], d[3]]);
    left.strict_mul(u8x2::splat(radix)).strict_add(right)
}

// Four pairs of digits, each at most 99.
#[inline(always)]
fn join_8digits(digits: u8x8, radix: u8) -> u8x4
    requires most { radix ≤ 10 }
    requires digits { Each1 (λ digit. digit < radix) digits }
    ensures { result ≡ pairs_of radix digits }
{
    let d = digits.to_array();
    let left = u8x4::from_array([d[0], d[2], d[4], d[6]]);
    let right = u8x4::from_array([d[1], d[3], d[5], d[7]]);
    left.strict_mul(u8x4::splat(radix)).strict_add(right)
}

// The number of two pairs, at most 9999.
#[inline(always)]
fn join_2pairs(pairs: u8x2, scale: u32) -> u32
    requires most { scale ≤ 100 }
    requires pairs { Each1 (λ pair. pair < scale) pairs }
    ensures { result ∷ [] ≡ pairs_of scale pairs }
{
    let p = pairs.to_array();
    p[0] as u32 * scale + p[1] as u32
}

// Two fours of digits, each at most 9999.
#[inline(always)]
fn join_4pairs(pairs: u8x4, scale: u16) -> u16x2
    requires most { scale ≤ 100 }
    requires pairs { Each1 (λ pair. pair < scale) pairs }
    ensures { result ≡ pairs_of scale pairs }
{
    let p = pairs.to_array();
    let left = u16x2::from_array([p[0] as u16, p[2] as u16]);
    let right = u16x2::from_array([p[1] as u16, p[3] as u16]);
    left.strict_mul(u16x2::splat(scale)).strict_add(right)
}

// The number of two fours, at most 99999999.
#[inline(always)]
fn join_fours(fours: u16x2, scale: u32) -> u32
    requires most { scale ≤ 10000 }
    requires fours { Each1 (λ four. four < scale) fours }
    ensures { result ∷ [] ≡ pairs_of scale fours }
{
    let f = fours.to_array();
    f[0] as u32 * scale + f[1] as u32
}
