// Where a row's cells end: at separators and line feeds outside quotes. A look at 64 bytes marks these by bits.
ghost use Rattle.std.specs.Prelude.{◌≡◌, ◌≢◌, ◌==◌, ◌&&◌, ◌||◌, ◌+◌, ◌++◌, ◌/◌, ◌^◌, ◌<◌, ◌≤◌, ℕ, IfSome, true, if◌then◌else◌, length, drop, slice_index, take};
ghost use Rattle.std.specs.Int.{bit_at};
ghost use Rattle.lexical_tables.specs.Ends.{AreEnds, IsFirstEnd, is_end};
ghost use Rattle.lexical_tables.specs.Quotes.{has_odd_quotes, quote};

use crate::quotes::looks::{all_or_none, outside_marks};
use crate::quotes::parities::odd_to_64;
use lexical_fields::lowest_mark;
use std::simd::prelude::*;

// How many bytes have to follow each marked one.
const ROOM_BEHIND: usize = 16;

// The fewest bytes of a text whose first 64 bytes are marked by one look.
pub(crate) const LEAST_MARKED: usize = 64 + ROOM_BEHIND;

// A bit for each of 64 bytes, set where it is `byte`.
#[inline(always)]
fn marks_of_one(bytes: &[u8], byte: u8) -> u64
    requires { length bytes.now ≡ 64 }
    ensures { (k : ℕ) → k < 64
        → bit_at result k ≡ (if slice_index bytes.now k == byte then 1 else 0) }
{
    u8x64::from_slice(bytes)
        .simd_eq(u8x64::splat(byte))
        .to_bitmask()
}

// A bit for each of 64 bytes, set where it is `first` or `second`.
#[inline(always)]
fn marks_of_two(bytes: &[u8], first: u8, second: u8) -> u64
    requires { length bytes.now ≡ 64 }
    ensures { (k : ℕ) → k < 64 → bit_at result k
        ≡ (if (slice_index bytes.now k == first) || (slice_index bytes.now k == second)
        then 1 else 0) }
{
    let lanes = u8x64::from_slice(bytes);
    (lanes.simd_eq(u8x64::splat(first)) | lanes.simd_eq(u8x64::splat(second))).to_bitmask()
}

// What a look at 64 bytes finds: the ends of cells, a bit for each, and whether what is behind stands within quotes.
#[derive(Copy, Clone)]
pub(crate) struct Window {
    pub ends: u64,
    pub is_within: bool,
}

// One look at the 64 bytes from a place on.
#[inline(always)]
pub(crate) fn look_at_64(
    text: &[u8],
    place: usize,
    separator: u8,
    has_quotes: bool,
    is_within: bool,
) -> Window
    requires quoted { has_quotes ≡ true → separator ≢ quote }
    requires room { place + 64 ≤ length text.now }
    requires within { is_within ≡ (has_quotes && has_odd_quotes (take place text.now)) }
    ensures here { (k : ℕ) → k < 64 → bit_at result.ends k
        ≡ (if is_end has_quotes separator text.now (place + k) then 1 else 0) }
    ensures within { result.is_within
        ≡ (has_quotes && has_odd_quotes (take (place + 64) text.now)) }
{
    let near = &text[place..place + 64];
    let ends = marks_of_two(near, separator, b'\n');
    if !has_quotes {
        return Window {
            ends,
            is_within: false,
        };
    }
    let quotes = marks_of_one(near, b'"');
    if quotes == 0 {
        return Window {
            ends: all_or_none(ends, is_within),
            is_within,
        };
    }
    let odd = odd_to_64(quotes);
    let is_odd = (odd >> 63) & 1 == 1;
    Window {
        ends: ends & outside_marks(quotes, odd, is_within),
        is_within: is_within != is_odd,
    }
}

// Puts sixteen bytes at a place.
#[inline(always)]
fn put_16(bytes: &mut [u8; 64], piece: &[u8], place: usize)
    requires room { place + 16 ≤ 64 }
    requires long { length piece.now ≡ 16 }
    ensures { take (place + 16) bytes.new ≡ take place bytes.old ++ piece.now }
{
    bytes[place..place + 16].copy_from_slice(piece);
}

// Copies sixteen bytes of a text to the same place.
#[inline(always)]
fn copy_16(bytes: &mut [u8; 64], text: &[u8], place: usize)
    requires room { place + 16 ≤ 64 }
    requires within { place + 16 ≤ length text.now }
    requires front { take place bytes.old ≡ take place text.now }
    ensures { take (place + 16) bytes.new ≡ take (place + 16) text.now }
{
    put_16(bytes, &text[place..place + 16], place);
}

// The first bytes of a text that has at least sixteen, up to 64 of them, with zeros behind them. They are copied
// sixteen at a time: a copy of any other size may become a call to `memcpy`, and the library for C links without C's
// own.
#[inline(always)]
fn with_zeros_behind(text: &[u8]) -> [u8; 64]
    requires some { 16 ≤ length text.now }
    ensures { (size : ℕ) → size + 16 ≤ length text.now → size ≤ 64
        → take size result ≡ take size text.now }
{
    let mut bytes = [0; 64];
    copy_16(&mut bytes, text, 0);
    if text.len() < 32 {
        return bytes;
    }
    copy_16(&mut bytes, text, 16);
    if text.len() < 48 {
        return bytes;
    }
    copy_16(&mut bytes, text, 32);
    if text.len() < 64 {
        return bytes;
    }
    copy_16(&mut bytes, text, 48);
    bytes
}

// The ends of cells in a text that is too short for a look at 64 of its bytes. Out of line: it is called only near a
// text's end.
#[inline(never)]
fn ends_near_end(text: &[u8], separator: u8, has_quotes: bool) -> u64
    requires quoted { has_quotes ≡ true → separator ≢ quote }
    requires few { length text.now < 80 }
    ensures { AreEnds has_quotes separator text.now result }
{
    if text.len() <= ROOM_BEHIND {
        return 0;
    }
    let seen = text.len() - ROOM_BEHIND;
    let bytes = with_zeros_behind(text);
    let look = look_at_64(&bytes, 0, separator, has_quotes, false);
    look.ends & ((1 << seen) - 1)
}

// The ends of cells among the first bytes of a text, a bit for each of up to 63.
#[inline(always)]
fn ends_in_front(text: &[u8], separator: u8, has_quotes: bool) -> u64
    requires quoted { has_quotes ≡ true → separator ≢ quote }
    ensures { AreEnds has_quotes separator text.now result }
{
    if text.len() < LEAST_MARKED {
        return ends_near_end(text, separator, has_quotes);
    }
    look_at_64(text, 0, separator, has_quotes, false).ends & ((1 << 63) - 1)
}

// The remaining marks, or, if there is none, those of the next 63 bytes. The text begins at a cell's start, so outside quotes.
#[inline(always)]
pub(crate) fn next_ends(text: &[u8], marks: u64, separator: u8, has_quotes: bool) -> u64
    requires marks { AreEnds has_quotes separator text.now marks }
    requires quoted { has_quotes ≡ true → separator ≢ quote }
    ensures { AreEnds has_quotes separator text.now result }
{
    if marks == 0 {
        ends_in_front(text, separator, has_quotes)
    } else {
        marks
    }
}

// The place of the first mark, where the first cell ends: at a separator, or at the line feed that
// ends the row.
#[inline(always)]
pub(crate) fn first_end(text: &[u8], marks: u64, separator: u8, has_quotes: bool) -> usize
    requires some { marks ≢ 0 }
    requires marks { AreEnds has_quotes separator text.now marks }
    requires quoted { has_quotes ≡ true → separator ≢ quote }
    ensures few { result < 63 }
    ensures end { IsFirstEnd has_quotes separator text.now result }
    ensures left { AreEnds has_quotes separator (drop (result + 1) text.now)
        (marks / 2 ^ (result + 1)) }
{
    lowest_mark(marks)
}

// Where a text's first cell ends, and the marks of the ends behind that.
#[derive(Copy, Clone)]
pub(crate) struct FarEnd {
    pub end: usize,
    pub marks: u64,
}

// Where a text's first cell ends, by as many looks at 64 bytes as that takes. `None` if the cell ends, or the text
// stops within it, too near the text's end for a look.
#[inline(always)]
pub(crate) fn far_end(text: &[u8], separator: u8, has_quotes: bool) -> Option<FarEnd>
    requires quoted { has_quotes ≡ true → separator ≢ quote }
    ensures end { IfSome result (λ far. IsFirstEnd has_quotes separator text.now far.end) }
    ensures marks { IfSome result (λ far. AreEnds has_quotes separator
        (drop (far.end + 1) text.now) far.marks) }
{
    let mut place = 0;
    let mut is_within = false;
    while text.len() - place >= LEAST_MARKED {
        let look = look_at_64(text, place, separator, has_quotes, is_within);
        if look.ends != 0 {
            let size = lowest_mark(look.ends);
            return Some(FarEnd {
                end: place + size,
                marks: look.ends >> size >> 1,
            });
        }
        is_within = look.is_within;
        place += 64;
    }
    None
}
