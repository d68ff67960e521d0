// Where a byte first stands, by sixteen bytes at once.
ghost use Rattle.std.specs.Prelude.{◌≡◌, ◌≢◌, ◌==◌, ◌<◌, ◌≤◌, ℕ, if◌then◌else◌, length, slice_index, IfSome, IsNone};
ghost use Rattle.std.specs.Int.{bit_at};
ghost use Rattle.lexical_fields.specs.Search.{AreMarks, StandsFirst};

use std::simd::prelude::*;

// A bit for each lane, set where that holds the byte.
#[inline(always)]
fn marks_of_16(lanes: u8x16, byte: u8) -> u64
    ensures here { (k : ℕ) → k < 16
        → bit_at result k ≡ (if slice_index lanes k == byte then 1 else 0) }
    ensures beyond { (k : ℕ) → 16 ≤ k → bit_at result k ≡ 0 }
{
    lanes.simd_eq(u8x16::splat(byte)).to_bitmask()
}

/// A bit for each of sixteen bytes, set where that is the byte.
#[inline(always)]
pub fn marks_among_16(bytes: &[u8], byte: u8) -> u64
    requires { length bytes.now ≡ 16 }
    ensures here { (k : ℕ) → k < 16
        → bit_at result k ≡ (if slice_index bytes.now k == byte then 1 else 0) }
    ensures beyond { (k : ℕ) → 16 ≤ k → bit_at result k ≡ 0 }
{
    marks_of_16(u8x16::from_slice(bytes), byte)
}

// A bit for each of 64 bytes, set where that is the byte.
#[inline(always)]
fn marks_of_64(bytes: &[u8], byte: u8) -> u64
    requires { length bytes.now ≡ 64 }
    ensures here { (k : ℕ) → k < 64
        → bit_at result k ≡ (if slice_index bytes.now k == byte then 1 else 0) }
    ensures beyond { (k : ℕ) → 64 ≤ k → bit_at result k ≡ 0 }
{
    u8x64::from_slice(bytes)
        .simd_eq(u8x64::splat(byte))
        .to_bitmask()
}

// The least length of a text that has marks. They are of its first 64 bytes, and sixteen more have
// to stand behind each.
pub(crate) const LEAST_MARKED: usize = 80;

// The separators among the first bytes of a text, a bit for each, and none where the text is short.
#[inline(always)]
pub(crate) fn marks_in_front(text: &[u8], separator: u8) -> u64
    ensures { AreMarks separator text.now result }
{
    if text.len() < LEAST_MARKED {
        return 0;
    }
    marks_of_64(&text[..64], separator)
}

/// The least bit that is set.
#[inline(always)]
pub fn lowest_mark(marks: u64) -> usize
    requires { marks ≢ 0 }
    ensures set { bit_at marks result ≡ 1 }
    ensures below { (k : ℕ) → k < result → bit_at marks k ≡ 0 }
{
    marks.trailing_zeros() as usize
}

// The first place of the byte, where it is one of sixteen.
#[inline(always)]
pub(crate) fn first_of_16(bytes: &[u8], byte: u8) -> Option<usize>
    requires { length bytes.now ≡ 16 }
    ensures found { IfSome result (StandsFirst byte bytes.now) }
    ensures none { IsNone result → (k : ℕ) → k < 16 → slice_index bytes.now k ≢ byte }
{
    let marks = marks_of_16(u8x16::from_slice(bytes), byte);
    if marks == 0 {
        None
    } else {
        Some(lowest_mark(marks))
    }
}
