// The digits around a point as one number: a short text, or the last eight bytes of a longer one, is made a word, from
// which the point is removed.
ghost use Rattle.std.specs.Prelude.{◌≡◌, ◌+◌, ◌-◌, ◌*◌, ◌/◌, ◌%◌, ◌^◌, ◌<◌, ◌≤◌, IfSome, length, slice_range};
ghost use Rattle.lexical_digits.specs.WrittenNumbers.{bytes_number};
ghost use Rattle.lexical_fixed.specs.Quick.{IsJoined, without};

use lexical_digits::values::value_to_16;
use lexical_digits::words::{is_8digits, parse_8digits};

// Four bytes of a text.
#[inline(always)]
fn half_at(text: &[u8], at: usize) -> u32
    requires { at + 4 ≤ length text.now }
    ensures { result ≡ bytes_number (slice_range text.now at (at + 4)) }
{
    let t = &text[at..at + 4];
    u32::from_le_bytes([t[0], t[1], t[2], t[3]])
}

// Four to eight bytes as a word: the first four, and behind them those of the last four that aren't among the first.
#[inline(always)]
fn word_of(text: &[u8]) -> u64
    requires some { 4 ≤ length text.now }
    requires few { length text.now ≤ 8 }
    ensures { result ≡ bytes_number text.now }
{
    let n = text.len();
    let last = half_at(text, n - 4) as u64 >> (64 - 8 * n as u32);
    half_at(text, 0) as u64 + (last << 32)
}

// A word without the byte at a place: the bytes behind it move down by one.
#[inline(always)]
fn word_without(word: u64, place: usize) -> u64
    requires { place < 8 }
    ensures { result ≡ word % 256 ^ place + word / 256 ^ (place + 1) * 256 ^ place }
{
    let shift = 8 * place as u32;
    let behind = word >> shift;
    word - ((behind - (behind >> 8)) << shift)
}

// The `count` bytes of a word, moved to its end, with digits 0 in front of them. The word has to have no other bytes.
#[inline(always)]
fn behind_zeros(word: u64, count: usize) -> u64
    requires some { 1 ≤ count }
    requires few { count < 8 }
    requires bytes { word < 256 ^ count }
    ensures { result ≡ word * 256 ^ (8 - count) + 3472328296227680304 / 256 ^ count }
{
    let size = 8 * count as u32;
    (word << (64 - size)) + (0x3030_3030_3030_3030 >> size)
}

// The number of the digits of a text around the byte at a place.
#[inline(always)]
pub(crate) fn number_without(text: &[u8], place: usize) -> Option<u32>
    requires some { 4 ≤ length text.now }
    requires few { length text.now ≤ 8 }
    requires within { place < length text.now }
    ensures joined { IfSome result (IsJoined (without place text.now)) }
    ensures small { IfSome result (λ number. number < 100000000) }
{
    let joined = word_without(word_of(text), place);
    let digits = behind_zeros(joined, text.len() - 1);
    if !is_8digits(digits, 10) {
        return None;
    }
    Some(parse_8digits(digits, 10) as u32)
}

// For nine to sixteen bytes, the number of the digits before the last eight, and the number of the other seven of the
// last eight, without the byte at a place.
#[inline(always)]
pub(crate) fn numbers_without(text: &[u8], place: usize) -> Option<(u32, u32)>
    requires some { 9 ≤ length text.now }
    requires few { length text.now ≤ 16 }
    requires behind { length text.now ≤ place + 8 }
    requires within { place < length text.now }
    ensures joined { IfSome result
        (λ parts. IsJoined (without place text.now) (parts.0 * 10000000 + parts.1)) }
    ensures high { IfSome result (λ parts. parts.0 < 100000000) }
    ensures low { IfSome result (λ parts. parts.1 < 100000000) }
{
    let first = text.len() - 8;
    let Some(high) = value_to_16::<u32>(&text[..first], false) else {
        return None;
    };
    let Some(low) = number_without(&text[first..], place - first) else {
        return None;
    };
    Some((high, low))
}

// The number of the digits of a text around the byte at a place and the one four before it.
#[inline(always)]
pub(crate) fn number_without_two(text: &[u8], place: usize) -> Option<u32>
    requires few { length text.now ≤ 8 }
    requires before { 5 ≤ place }
    requires within { place < length text.now }
    ensures joined { IfSome result (IsJoined (without (place - 4) (without place text.now))) }
    ensures small { IfSome result (λ number. number < 100000000) }
{
    let joined = word_without(word_without(word_of(text), place), place - 4);
    let digits = behind_zeros(joined, text.len() - 2);
    if !is_8digits(digits, 10) {
        return None;
    }
    Some(parse_8digits(digits, 10) as u32)
}
