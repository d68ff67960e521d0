//! The numbers of up to twelve decimal digits at the front of sixteen bytes, with no branch for their count: a shuffle
//! puts them behind zeros in groups of three, and one product of lanes joins each group.
ghost use Rattle.std.specs.Prelude.{◌≡◌, ◌+◌, ◌-◌, ◌*◌, ◌<◌, ◌≤◌, ◌∷◌, [], ◌++◌, IfSome, IsTrue, length, map, replicate, take};
ghost use Rattle.std.specs.Simd.Lanes.{Each1, dots};
ghost use Rattle.lexical_digits.specs.Lanes.{pairs_of};
ghost use Rattle.lexical_digits.specs.WrittenNumbers.{WritesDecimal};
ghost use Rattle.lexical_fields.specs.Threes.{in_threes, lowered, weights};

use std::simd::prelude::*;

// Row n shuffles n digits, the first of sixteen bytes, to the end of twelve. These stand in four groups of four lanes:
// three digits, and the first of them again. 128 stands for a lane of 0.
static PLACES: [[u8; 16]; 13] = [
    [
        128, 128, 128, 128, 128, 128, 128, 128, 128, 128, 128, 128, 128, 128, 128, 128,
    ],
    [
        128, 128, 128, 128, 128, 128, 128, 128, 128, 128, 128, 128, 128, 128, 0, 128,
    ],
    [
        128, 128, 128, 128, 128, 128, 128, 128, 128, 128, 128, 128, 128, 0, 1, 128,
    ],
    [
        128, 128, 128, 128, 128, 128, 128, 128, 128, 128, 128, 128, 0, 1, 2, 0,
    ],
    [
        128, 128, 128, 128, 128, 128, 128, 128, 128, 128, 0, 128, 1, 2, 3, 1,
    ],
    [
        128, 128, 128, 128, 128, 128, 128, 128, 128, 0, 1, 128, 2, 3, 4, 2,
    ],
    [
        128, 128, 128, 128, 128, 128, 128, 128, 0, 1, 2, 0, 3, 4, 5, 3,
    ],
    [128, 128, 128, 128, 128, 128, 0, 128, 1, 2, 3, 1, 4, 5, 6, 4],
    [128, 128, 128, 128, 128, 0, 1, 128, 2, 3, 4, 2, 5, 6, 7, 5],
    [128, 128, 128, 128, 0, 1, 2, 0, 3, 4, 5, 3, 6, 7, 8, 6],
    [128, 128, 0, 128, 1, 2, 3, 1, 4, 5, 6, 4, 7, 8, 9, 7],
    [128, 0, 1, 128, 2, 3, 4, 2, 5, 6, 7, 5, 8, 9, 10, 8],
    [0, 1, 2, 0, 3, 4, 5, 3, 6, 7, 8, 6, 9, 10, 11, 9],
];

// The first `count` bytes of a text, less `0` and behind zeros, in threes.
#[inline(always)]
fn digits_in_threes(text: &[u8], count: usize) -> u8x16
    requires few { count ≤ 12 }
    requires room { 16 ≤ length text.now }
    ensures { result ≡ in_threes (replicate (12 - count) 0
        ++ map lowered (take count text.now)) }
{
    let lanes = u8x16::from_slice(text) - u8x16::splat(b'0');
    lanes.swizzle_dyn(u8x16::from_array(PLACES[count]))
}

// Whether all lanes are digits.
#[inline(always)]
fn are_digits(lanes: u8x16) -> bool
    requires { length lanes ≡ 16 }
    ensures { IsTrue result → Each1 (λ lane. lane < 10) lanes }
{
    lanes.simd_le(u8x16::splat(9)).all()
}

// Three digits in each lane.
#[inline(always)]
fn joined_threes(digits: u8x16) -> u32x4
    ensures value { result ≡ dots digits weights }
    ensures small { Each1 (λ three. three < 65536) result }
{
    digits.dot4(u8x16::from_array([50, 10, 1, 50, 50, 10, 1, 50, 50, 10, 1, 50, 50, 10, 1, 50]))
}

// Six digits in each lane.
#[inline(always)]
fn joined_sixes(threes: u32x4) -> u64x2
    requires { Each1 (λ three. three < 65536) threes }
    ensures { result ≡ pairs_of 1000 threes }
{
    let left: u32x2 = threes.swizzle([0, 2]);
    let right: u32x2 = threes.swizzle([1, 3]);
    left.cast::<u64>()
        .strict_mul(u64x2::splat(1000))
        .strict_add(right.cast::<u64>())
}

// The number of the last six of up to twelve digits, and of those before.
#[inline(always)]
pub(crate) fn numbers_to_12(text: &[u8], count: usize) -> Option<(u32, u32)>
    requires few { count ≤ 12 }
    requires room { 16 ≤ length text.now }
    ensures writes { IfSome result
        (λ parts. WritesDecimal 0 (take count text.now) (parts.0 * 1000000 + parts.1)) }
    ensures high { IfSome result (λ parts. parts.0 < 1000000) }
    ensures low { IfSome result (λ parts. parts.1 < 1000000) }
{
    let digits = digits_in_threes(text, count);
    if !are_digits(digits) {
        return None;
    }
    let sixes = joined_sixes(joined_threes(digits)).to_array();
    Some((sixes[0] as u32, sixes[1] as u32))
}
