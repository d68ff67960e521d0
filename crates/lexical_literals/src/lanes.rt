// How many of sixteen bytes stand before the first that isn't one of a word, or isn't skipped. All are looked up at
// once.
//
// A byte has two halves of four bits, and a table for each. It is of the kind where both tables have a bit in common:
//   1 tab, line feed, carriage return    2 space    4 digits    8 A to O, a to o    16 P to Z, _    32 p to z
ghost use Rattle.std.specs.Prelude.{◌≡◌, ◌==◌, ◌≤◌, length, map, not};
ghost use Rattle.std.specs.List.{prefix_len};
ghost use Rattle.lexical_literals.specs.Kinds.{by_lower, skipped_by_upper, word_by_upper};
ghost use Rattle.lexical_literals.specs.Tokens.{is_skipped, is_word_byte};

use std::simd::prelude::*;

const LOWER: [u8; 16] = [54, 60, 60, 60, 60, 60, 60, 60, 60, 61, 57, 8, 8, 9, 8, 24];

const UPPER_OF_WORDS: [u8; 16] = [0, 0, 0, 4, 8, 16, 8, 32, 0, 0, 0, 0, 0, 0, 0, 0];

const UPPER_OF_SKIPPED: [u8; 16] = [1, 0, 2, 0, 0, 0, 0, 0, 0, 0, 0, 0, 0, 0, 0, 0];

// The bits of the lower halves.
#[inline(always)]
fn by_lower(lanes: u8x16) -> u8x16
    ensures { result ≡ map by_lower lanes }
{
    u8x16::from_array(LOWER).swizzle_dyn(lanes & u8x16::splat(15))
}

// The bits of the upper halves that bytes of a word have.
#[inline(always)]
fn word_by_upper(lanes: u8x16) -> u8x16
    ensures { result ≡ map word_by_upper lanes }
{
    u8x16::from_array(UPPER_OF_WORDS).swizzle_dyn(lanes >> u8x16::splat(4))
}

// The bits of the upper halves that skipped bytes have.
#[inline(always)]
fn skipped_by_upper(lanes: u8x16) -> u8x16
    ensures { result ≡ map skipped_by_upper lanes }
{
    u8x16::from_array(UPPER_OF_SKIPPED).swizzle_dyn(lanes >> u8x16::splat(4))
}

// How many lanes stand before the first that is 0.
#[inline(always)]
fn lanes_ahead(lanes: u8x16) -> usize
    requires { length lanes ≡ 16 }
    ensures value { result ≡ prefix_len (λ lane. not (lane == 0)) lanes }
    ensures within { result ≤ 16 }
{
    let zeros = lanes.simd_eq(u8x16::splat(0)).to_bitmask();
    if zeros == 0 {
        return 16;
    }
    zeros.trailing_zeros() as usize
}

// How many bytes of a word stand in front.
#[inline(always)]
pub(crate) fn word_length_of_16(bytes: &[u8]) -> usize
    requires { length bytes.now ≡ 16 }
    ensures value { result ≡ prefix_len is_word_byte bytes.now }
    ensures within { result ≤ 16 }
{
    let lanes = u8x16::from_slice(bytes);
    lanes_ahead(by_lower(lanes) & word_by_upper(lanes))
}

// How many skipped bytes stand in front.
#[inline(always)]
pub(crate) fn skipped_length_of_16(bytes: &[u8]) -> usize
    requires { length bytes.now ≡ 16 }
    ensures value { result ≡ prefix_len is_skipped bytes.now }
    ensures within { result ≤ 16 }
{
    let lanes = u8x16::from_slice(bytes);
    lanes_ahead(by_lower(lanes) & skipped_by_upper(lanes))
}
