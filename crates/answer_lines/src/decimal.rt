//! Writes numbers as text into the caller's buffer `place`, behind what it holds already. The
//! buffer has to have room.

ghost use Rattle.std.specs.Prelude.{◌≡◌, ◌+◌, ◌/◌, ◌%◌, ◌^◌, ◌<◌, ◌≤◌, ◌∷◌, [], ◌++◌, length, take};
ghost use Rattle.answer_lines.specs.Decimal.{decimal_text, eight_digits, four_digits, sixteen_digits, two_digits};

mod pairs;

use crate::decimal::pairs::PAIRS;

/// What splits off the last sixteen digits, which a `u64` holds.
const GROUP: u128 = 10_000_000_000_000_000;

/// Adds the digits of a number, and answers where they end.
#[inline(always)]
pub fn add_decimal(n: u128, place: &mut [u8], end: usize) -> usize
    requires room { end + 40 ≤ length place.old }
    ensures size { length place.new ≡ length place.old }
    ensures within { result ≤ end + 40 }
    ensures written { take result place.new ≡ take end place.old ++ decimal_text n }
{
    if n > u64::MAX as u128 {
        return add_wide(n, place, end);
    }
    add_number(n as u64, place, end)
}

/// Adds the digits of a number of 64 bits, and answers where they end.
#[inline(always)]
pub fn add_number(n: u64, place: &mut [u8], end: usize) -> usize
    requires room { end + 20 ≤ length place.old }
    ensures size { length place.new ≡ length place.old }
    ensures within { result ≤ end + 20 }
    ensures written { take result place.new ≡ take end place.old ++ decimal_text n }
{
    if n < 10_000 {
        return add_few(n as u32, place, end);
    }
    add_many(n, place, end)
}

// Adds the digits of a number of more than 64 bits: a wide division splits off sixteen.
#[inline(never)]
fn add_wide(n: u128, place: &mut [u8], end: usize) -> usize
    requires wide { 2 ^ 64 ≤ n }
    requires room { end + 40 ≤ length place.old }
    ensures size { length place.new ≡ length place.old }
    ensures within { result ≤ end + 40 }
    ensures written { take result place.new ≡ take end place.old ++ decimal_text n }
{
    let front = n / GROUP;
    let start = add_front(front, place, end);
    add_sixteen((n - front * GROUP) as u64, place, start)
}

// Adds the digits in front of those sixteen.
#[inline(always)]
fn add_front(n: u128, place: &mut [u8], end: usize) -> usize
    requires few { n < 10 ^ 23 }
    requires room { end + 24 ≤ length place.old }
    ensures size { length place.new ≡ length place.old }
    ensures within { result ≤ end + 24 }
    ensures written { take result place.new ≡ take end place.old ++ decimal_text n }
{
    if n <= u64::MAX as u128 {
        return add_number(n as u64, place, end);
    }
    let front = n / GROUP;
    let start = add_to_eight(front as u32, place, end);
    add_sixteen((n - front * GROUP) as u64, place, start)
}

// Adds the digits of a number of any length. It stays out of line: most numbers have few digits.
#[inline(never)]
fn add_many(n: u64, place: &mut [u8], end: usize) -> usize
    requires room { end + 20 ≤ length place.old }
    ensures size { length place.new ≡ length place.old }
    ensures within { result ≤ end + 20 }
    ensures written { take result place.new ≡ take end place.old ++ decimal_text n }
{
    if n < 100_000_000 {
        return add_to_eight(n as u32, place, end);
    }
    let start = add_to_twelve(n / 100_000_000, place, end);
    add_eight((n % 100_000_000) as u32, place, start)
}

// Adds one to twelve digits.
#[inline(always)]
fn add_to_twelve(n: u64, place: &mut [u8], end: usize) -> usize
    requires few { n < 10 ^ 12 }
    requires room { end + 12 ≤ length place.old }
    ensures size { length place.new ≡ length place.old }
    ensures within { result ≤ end + 12 }
    ensures written { take result place.new ≡ take end place.old ++ decimal_text n }
{
    if n < 100_000_000 {
        return add_to_eight(n as u32, place, end);
    }
    let start = add_few((n / 100_000_000) as u32, place, end);
    add_eight((n % 100_000_000) as u32, place, start)
}

// Adds one to eight digits.
fn add_to_eight(n: u32, place: &mut [u8], end: usize) -> usize
    requires few { n < 10 ^ 8 }
    requires room { end + 8 ≤ length place.old }
    ensures size { length place.new ≡ length place.old }
    ensures within { result ≤ end + 8 }
    ensures written { take result place.new ≡ take end place.old ++ decimal_text n }
{
    if n < 10_000 {
        return add_few(n, place, end);
    }
    let start = add_few(n / 10_000, place, end);
    add_four(n % 10_000, place, start)
}

// Adds one to four digits.
#[inline(always)]
fn add_few(n: u32, place: &mut [u8], end: usize) -> usize
    requires few { n < 10 ^ 4 }
    requires room { end + 4 ≤ length place.old }
    ensures size { length place.new ≡ length place.old }
    ensures within { result ≤ end + 4 }
    ensures written { take result place.new ≡ take end place.old ++ decimal_text n }
{
    if n < 100 {
        return add_one_or_two(n as u8, place, end);
    }
    let start = add_one_or_two((n / 100) as u8, place, end);
    add_two((n % 100) as u8, place, start)
}

// Adds one digit or two.
#[inline(always)]
fn add_one_or_two(n: u8, place: &mut [u8], end: usize) -> usize
    requires few { n < 100 }
    requires room { end + 2 ≤ length place.old }
    ensures size { length place.new ≡ length place.old }
    ensures within { result ≤ end + 2 }
    ensures written { take result place.new ≡ take end place.old ++ decimal_text n }
{
    if n < 10 {
        return add_byte(b'0' + n, place, end);
    }
    add_two(n, place, end)
}

// Adds sixteen digits.
#[inline(always)]
fn add_sixteen(n: u64, place: &mut [u8], end: usize) -> usize
    requires small { n < 10 ^ 16 }
    requires room { end + 16 ≤ length place.old }
    ensures size { length place.new ≡ length place.old }
    ensures end { result ≡ end + 16 }
    ensures written { take result place.new ≡ take end place.old ++ sixteen_digits n }
{
    let start = add_eight((n / 100_000_000) as u32, place, end);
    add_eight((n % 100_000_000) as u32, place, start)
}

// Adds eight digits.
#[inline(always)]
fn add_eight(n: u32, place: &mut [u8], end: usize) -> usize
    requires small { n < 10 ^ 8 }
    requires room { end + 8 ≤ length place.old }
    ensures size { length place.new ≡ length place.old }
    ensures end { result ≡ end + 8 }
    ensures written { take result place.new ≡ take end place.old ++ eight_digits n }
{
    let start = add_four(n / 10_000, place, end);
    add_four(n % 10_000, place, start)
}

// Adds four digits.
#[inline(always)]
fn add_four(n: u32, place: &mut [u8], end: usize) -> usize
    requires small { n < 10 ^ 4 }
    requires room { end + 4 ≤ length place.old }
    ensures size { length place.new ≡ length place.old }
    ensures end { result ≡ end + 4 }
    ensures written { take result place.new ≡ take end place.old ++ four_digits n }
{
    let start = add_two((n / 100) as u8, place, end);
    add_two((n % 100) as u8, place, start)
}

// Adds two digits.
#[inline(always)]
fn add_two(n: u8, place: &mut [u8], end: usize) -> usize
    requires small { n < 100 }
    requires room { end + 2 ≤ length place.old }
    ensures size { length place.new ≡ length place.old }
    ensures end { result ≡ end + 2 }
    ensures written { take result place.new ≡ take end place.old ++ two_digits n }
{
    let (tens, ones) = two_digits(n);
    let start = add_byte(tens, place, end);
    add_byte(ones, place, start)
}

// The two digits of a number, looked up in a table: they are moved as one word, without a division.
#[inline(always)]
#[tactic(auto, using(crate::proofs::DigitPairs::tens_by_table, crate::proofs::DigitPairs::ones_by_table))]
fn two_digits(n: u8) -> (u8, u8)
    requires small { n < 100 }
    ensures tens { result.0 ≡ 48 + n / 10 }
    ensures ones { result.1 ≡ 48 + n % 10 }
{
    let first = 2 * n as usize;
    (PAIRS[first], PAIRS[first + 1])
}

/// Adds a byte.
#[inline(always)]
pub fn add_byte(byte: u8, place: &mut [u8], end: usize) -> usize
    requires room { end < length place.old }
    ensures size { length place.new ≡ length place.old }
    ensures end { result ≡ end + 1 }
    ensures written { take result place.new ≡ take end place.old ++ byte ∷ [] }
{
    place[end] = byte;
    end + 1
}
