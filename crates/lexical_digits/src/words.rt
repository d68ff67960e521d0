//! Words of ASCII digits: four or eight bytes that are judged and read at once. The lowest byte stands first
//! in the text, and is worth the most.
ghost use Rattle.std.specs.Prelude.{◌≡◌, ◌≤◌, ◌↔◌, IsTrue};
ghost use Rattle.lexical_digits.specs.Words.{AreDigits, word_bytes, word_value};

/// Whether each of the four bytes of `v` is a digit of the radix.
///
/// The test looks at all bytes at once: a byte above the last digit sets its highest bit in the sum, and one
/// below `0` sets it in the difference.
#[inline(always)]
pub fn is_4digits(v: u32, radix: u32) -> bool
    requires least { 2 ≤ radix }
    requires greatest { radix ≤ 10 }
    ensures { IsTrue result ↔ AreDigits radix (word_bytes 4 v) }
{
    let add = (0x50 - radix) * 0x0101_0101;
    (v.wrapping_add(add) | v.wrapping_sub(0x3030_3030)) & 0x8080_8080 == 0
}

/// Whether each of the eight bytes of `v` is a digit of the radix.
#[inline(always)]
pub fn is_8digits(v: u64, radix: u32) -> bool
    requires least { 2 ≤ radix }
    requires greatest { radix ≤ 10 }
    ensures { IsTrue result ↔ AreDigits radix (word_bytes 8 v) }
{
    let add = (0x50 - radix as u64) * 0x0101_0101_0101_0101;
    (v.wrapping_add(add) | v.wrapping_sub(0x3030_3030_3030_3030)) & 0x8080_8080_8080_8080 == 0
}

/// The number that the four digits of `v` write, the lowest byte first.
#[inline(always)]
pub fn parse_4digits(v: u32, radix: u32) -> u32
    requires least { 2 ≤ radix }
    requires greatest { radix ≤ 10 }
    requires digits { AreDigits radix (word_bytes 4 v) }
    ensures { result ≡ word_value radix (word_bytes 4 v) }
{
    let digits = v - 0x3030_3030;
    let pairs = digits * radix + (digits >> 8);
    (pairs & 0x7f) * radix * radix + ((pairs >> 16) & 0x7f)
}

/// The number that the eight digits of `v` write, the lowest byte first.
///
/// Neighbours make four pairs. Two products scale two pairs each, and add them up in their upper halves.
#[inline(always)]
pub fn parse_8digits(v: u64, radix: u32) -> u64
    requires least { 2 ≤ radix }
    requires greatest { radix ≤ 10 }
    requires digits { AreDigits radix (word_bytes 8 v) }
    ensures { result ≡ word_value radix (word_bytes 8 v) }
{
    let radix = radix as u64;
    let digits = v - 0x3030_3030_3030_3030;
    let pairs = digits * radix + (digits >> 8);
    let square = radix * radix;
    let fourth_power = square * square;
    let low_bytes = 0x0000_00ff_0000_00ff;
    let odd_pairs = (pairs & low_bytes).wrapping_mul(((fourth_power * square) << 32) + square);
    let even_pairs = ((pairs >> 16) & low_bytes).wrapping_mul((fourth_power << 32) + 1);
    odd_pairs.wrapping_add(even_pairs) >> 32
}
