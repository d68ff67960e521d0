// The values of the digits that a text begins with, where the first word is digits.
ghost use Rattle.std.specs.Prelude.{◌≡◌, ◌<◌, ◌≤◌, ◌^◌, IfSome, IsTrue, length, slice_range, take, true};
ghost use Rattle.lexical_parse_integer.specs.Plain.{BeginsWith, keeps_zero_rule};
ghost use Rattle.lexical_digits.specs.WrittenNumbers.{WritesFirst};

use lexical_digits::fronts::number_behind;
use lexical_digits::values::value_of_parts;
use lexical_util::format::NumberFormat;
use lexical_util::num::Integer;

// 1, 10, 100 and so on.
static POWERS_OF_TEN: [u32; 9] = [
    1,
    10,
    100,
    1_000,
    10_000,
    100_000,
    1_000_000,
    10_000_000,
    100_000_000,
];

// Ten to a small power.
#[inline(always)]
fn power_of_ten(count: usize) -> u32
    requires { count ≤ 8 }
    ensures power { result ≡ 10 ^ count }
    ensures some { 1 ≤ result }
    ensures small { result ≤ 100000000 }
{
    POWERS_OF_TEN[count]
}

// The value of the digits in front where the first eight are digits.
#[inline(always)]
pub(super) fn front_after_first<T: Integer>(
    digits: &[u8],
    format: &NumberFormat,
    first: u32,
    is_negative: bool,
) -> Option<(T, usize)>
    requires minus { IsTrue is_negative → IsTrue T.TYPE.is_signed }
    requires first { WritesFirst digits.now first 8 }
    requires small { first < 100000000 }
    requires rule { keeps_zero_rule format.now (take 8 digits.now) ≡ true }
    ensures { IfSome result
        (λ found. BeginsWith format.now T.TYPE is_negative digits.now (T.number found.0) found.1) }
{
    let (second, count) = number_behind(digits, 8);
    if count == 8 {
        return front_after_second::<T>(digits, format, first, second, is_negative);
    }
    match value_of_parts::<T>(first, second, power_of_ten(count), is_negative) {
        Some(value) => Some((value, 8 + count)),
        None => None,
    }
}

// The value of the digits in front where the first sixteen bytes are digits. There may be up to twenty-three. For a
// type of at most 32 bits the answer is `None`.
#[inline(never)]
fn front_after_second<T: Integer>(
    digits: &[u8],
    format: &NumberFormat,
    first: u32,
    second: u32,
    is_negative: bool,
) -> Option<(T, usize)>
    requires minus { IsTrue is_negative → IsTrue T.TYPE.is_signed }
    requires first { WritesFirst digits.now first 8 }
    requires second { WritesFirst (slice_range digits.now 8 (length digits.now)) second 8 }
    requires first_small { first < 100000000 }
    requires second_small { second < 100000000 }
    requires rule { keeps_zero_rule format.now (take 8 digits.now) ≡ true }
    ensures { IfSome result
        (λ found. BeginsWith format.now T.TYPE is_negative digits.now (T.number found.0) found.1) }
{
    if T::BITS <= 32 {
        return None;
    }
    let (third, count) = number_behind(digits, 16);
    if count == 8 {
        return None;
    }
    let front = value_of_parts::<T>(first, second, 100_000_000, is_negative)?;
    let scale = T::from_u32(power_of_ten(count));
    match front.checked_mul_add(scale, T::from_u32(third), is_negative) {
        Some(value) => Some((value, 16 + count)),
        None => None,
    }
}
