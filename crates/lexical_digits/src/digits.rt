//! The numbers that decimal digits write: a few digits are read by bytes, more by words of eight bytes. A word that the
//! text doesn't fill is filled with digits 0, and no branch depends on a digit.
ghost use Rattle.std.specs.Prelude.{◌≡◌, ◌+◌, ◌-◌, ◌*◌, ◌/◌, ◌<◌, ◌≤◌, ◌^◌, ◌%◌, ◌∷◌, [], IfSome, get_or, length, slice_range, take};
ghost use Rattle.lexical_digits.specs.WrittenNumbers.{WritesDecimal, bytes_number};
ghost use Rattle.lexical_digits.specs.Words.{AreDigits, word_bytes, word_value};

use crate::words::{is_4digits, is_8digits, parse_8digits};

// Eight digits 0.
pub(crate) const ZEROS: u64 = 0x3030_3030_3030_3030;

// Eight bytes of a text.
#[inline(always)]
pub(crate) fn word_at(text: &[u8], at: usize) -> u64
    requires { at + 8 ≤ length text.now }
    ensures { result ≡ bytes_number (slice_range text.now at (at + 8)) }
{
    let t = &text[at..at + 8];
    u64::from_le_bytes([t[0], t[1], t[2], t[3], t[4], t[5], t[6], t[7]])
}

// The first eight bytes of a text. Where it has four to seven, bytes 0 stand after them.
#[inline(always)]
pub(crate) fn first_word(text: &[u8]) -> u64
    requires { 4 ≤ length text.now }
    ensures { result ≡ bytes_number (take 8 text.now) }
{
    let n = text.len();
    if n >= 8 {
        return word_at(text, 0);
    }
    let shift = 64 - 8 * n as u32;
    half_at(text, 0) as u64 + ((half_at(text, n - 4) as u64 >> shift) << 32)
}

// Four bytes of a text.
#[inline(always)]
fn half_at(text: &[u8], at: usize) -> u32
    requires { at + 4 ≤ length text.now }
    ensures { result ≡ bytes_number (slice_range text.now at (at + 4)) }
{
    let t = &text[at..at + 4];
    u32::from_le_bytes([t[0], t[1], t[2], t[3]])
}

// The number that a word of eight digits writes.
#[inline(always)]
pub(crate) fn number_of_digits(word: u64) -> u32
    requires { AreDigits 10 (word_bytes 8 word) }
    ensures value { result ≡ word_value 10 (word_bytes 8 word) }
    ensures small { result < 100000000 }
{
    parse_8digits(word, 10) as u32
}

// The number that the first `count` digits of a word write. What stands after them is shifted out,
// and digits 0 come in front.
#[inline(always)]
pub(crate) fn number_of_front(word: u64, count: u32) -> u32
    requires some { 1 ≤ count }
    requires few { count ≤ 8 }
    requires digits { AreDigits 10 (take count (word_bytes 8 word)) }
    ensures value { result ≡ word_value 10 (take count (word_bytes 8 word)) }
    ensures small { result < 100000000 }
{
    let shift = 64 - 8 * count;
    let digits = word.wrapping_sub(ZEROS) << shift;
    number_of_digits(digits + ZEROS)
}

// For each length of a text up to four, the weights of the four lanes of `spread`, that of the last lane first. So the
// highest lane of a product with the digits in these lanes is the sum of the digits times their weights.
static WEIGHTS: [u64; 5] = [
    0,
    0x0000_0000_0000_0001,
    0x000a_0000_0000_0001,
    0x0064_0000_000a_0001,
    0x03e8_0064_000a_0001,
];

// The bytes of a text of up to four, each in a lane of sixteen bits below a digit 0. If there are fewer than four, some
// stand in several lanes, of which one alone has a weight above 0.
#[inline(always)]
fn spread(text: &[u8]) -> u64
    requires some { 1 ≤ length text.now }
    requires few { length text.now ≤ 4 }
    ensures { result ≡ bytes_number (get_or text.now 0 0 ∷ 48
        ∷ get_or text.now (length text.now / 4) 0 ∷ 48
        ∷ get_or text.now (length text.now / 2) 0 ∷ 48
        ∷ get_or text.now (length text.now - 1) 0 ∷ 48 ∷ []) }
{
    let n = text.len();
    u64::from_le_bytes([
        text[0],
        b'0',
        text[n / 4],
        b'0',
        text[n / 2],
        b'0',
        text[n - 1],
        b'0',
    ])
}

// The number of one to four digits, with no branch for their count.
#[inline(always)]
pub(crate) fn number_to_4(text: &[u8]) -> Option<u32>
    requires some { 1 ≤ length text.now }
    requires few { length text.now ≤ 4 }
    ensures writes { IfSome result (λ number. WritesDecimal 0 text.now number) }
    ensures small { IfSome result (λ number. number < 65536) }
{
    let word = spread(text);
    if !is_8digits(word, 10) {
        return None;
    }
    Some(((word - ZEROS).wrapping_mul(WEIGHTS[text.len()]) >> 48) as u32)
}

/// The number that a word of four digits writes: neighbours are joined in pairs, and the pairs by a
/// product that adds them up in its high half.
#[inline(always)]
pub fn number_of_4digits(word: u32) -> u32
    requires { AreDigits 10 (word_bytes 4 word) }
    ensures value { result ≡ word_value 10 (word_bytes 4 word) }
    ensures small { result < 10000 }
{
    let joined = (word - 0x3030_3030).wrapping_mul(10 * 0x100 + 1);
    let pairs = (joined >> 8) & 0x00ff_00ff;
    pairs.wrapping_mul(100 * 0x1_0000 + 1) >> 16
}

// The number of the first digits of a word of four: of a text of `length` bytes, those before the last four. The rest is
// shifted out.
#[inline(always)]
fn number_of_first_of_four(word: u32, length: usize) -> u32
    requires some { 4 < length }
    requires few { length ≤ 8 }
    requires digits { AreDigits 10 (word_bytes 4 word) }
    ensures value { result ≡ word_value 10 (take (length - 4) (word_bytes 4 word)) }
    ensures small { result < 10000 }
{
    let shift = 64 - 8 * length as u32;
    let first = (word - 0x3030_3030) << shift;
    number_of_4digits(first + 0x3030_3030)
}

// The number of five to eight digits: the first four and the last four, which overlap.
//
// The last four are loaded first, here and below. Otherwise the compiler loads the first byte of either range before it
// knows which, and then the others one by one.
#[inline(always)]
pub(crate) fn number_to_8(text: &[u8]) -> Option<u32>
    requires some { 4 < length text.now }
    requires few { length text.now ≤ 8 }
    ensures writes { IfSome result (λ number. WritesDecimal 0 text.now number) }
    ensures small { IfSome result (λ number. number < 100000000) }
{
    let n = text.len();
    let last = half_at(text, n - 4);
    let first = half_at(text, 0);
    if !(is_4digits(first, 10) & is_4digits(last, 10)) {
        return None;
    }
    let front = number_of_first_of_four(first, n);
    Some(front * 10000 + number_of_4digits(last))
}

// The number of the digits before the last eight of nine to sixteen, and the number of the last eight. Those of the
// first eight bytes that are among the last eight too are shifted out once all are known to be digits.
#[inline(always)]
pub(crate) fn numbers_to_16(text: &[u8]) -> Option<(u32, u32)>
    requires some { 8 < length text.now }
    requires few { length text.now ≤ 16 }
    ensures writes { IfSome result
        (λ parts. WritesDecimal 0 text.now (parts.0 * 100000000 + parts.1)) }
    ensures high { IfSome result (λ parts. parts.0 < 100000000) }
    ensures low { IfSome result (λ parts. parts.1 < 100000000) }
{
    let n = text.len();
    let last = word_at(text, n - 8);
    let first = word_at(text, 0);
    if !(is_8digits(first, 10) & is_8digits(last, 10)) {
        return None;
    }
    let high = number_of_front(first, (n - 8) as u32);
    Some((high, number_of_digits(last)))
}
