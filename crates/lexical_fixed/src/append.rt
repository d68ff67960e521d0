// Appends digits to a number, several at a time, where its type has the result.
ghost use Rattle.std.specs.Prelude.{◌≡◌, ◌≤ℤ◌, ◌≤◌, ◌<◌, ◌^◌, IfSome, pos, true};
ghost use Rattle.std.specs.Option.{option_map};
ghost use Rattle.lexical_util.specs.Number.{HasSign, is_number, mul_add, number_if_fits};
ghost use Rattle.lexical_fixed.specs.Append.{IsAppended, digits_at_once};

use lexical_digits::values::{join_parts, value_to_16};
use lexical_util::num::Integer;

static POWERS: [u32; 10] = [
    1,
    10,
    100,
    1_000,
    10_000,
    100_000,
    1_000_000,
    10_000_000,
    100_000_000,
    1_000_000_000,
];

// A power of ten.
#[inline(always)]
pub(crate) fn power_of_ten(exponent: usize) -> u32
    requires { exponent < 10 }
    ensures { result ≡ 10 ^ exponent }
{
    POWERS[exponent]
}

// How many digits can be appended at once, at most.
#[inline(always)]
pub(crate) fn digits_at_once<T: Integer>() -> usize
    ensures { result ≡ digits_at_once T.TYPE }
{
    if T::BITS > 32 {
        16
    } else if T::BITS == 32 {
        9
    } else {
        2
    }
}

// The power of ten that a number is multiplied by to append `count` digits.
#[inline(always)]
fn scale_for<T: Integer>(count: usize) -> T
    requires { count ≤ digits_at_once T.TYPE }
    ensures { T.number result ≡ pos (10 ^ count) }
{
    if T::BITS > 32 && count > 8 {
        return join_parts::<T>(100_000_000, power_of_ten(count - 8), 0);
    }
    T::from_u32(power_of_ten(count))
}

// The number with `count` digits appended, which write `part`, where the type has the result.
#[inline(always)]
pub(crate) fn append_part<T: Integer>(
    value: T,
    part: T,
    count: usize,
    is_negative: bool,
) -> Option<T>
    requires count { count ≤ digits_at_once T.TYPE }
    requires part { pos 0 ≤ℤ T.number part }
    requires sign { HasSign is_negative (T.number value) }
    ensures { option_map T.number result ≡ number_if_fits T.TYPE
        (mul_add is_negative (T.number value) (pos (10 ^ count)) (T.number part)) }
{
    value.checked_mul_add(scale_for::<T>(count), part, is_negative)
}

// The number with up to nine digits appended, which write `number`, where the type has the result.
#[inline(always)]
pub(crate) fn append_number<T: Integer>(
    value: T,
    number: u32,
    count: usize,
    is_negative: bool,
) -> Option<T>
    requires bits { 32 ≤ T.TYPE.bits }
    requires small { number < 100000000 }
    requires few { count < 10 }
    requires sign { HasSign is_negative (T.number value) }
    ensures value { IfSome result (λ next.
        T.number next ≡ mul_add is_negative (T.number value) (pos (10 ^ count)) (pos number)) }
    ensures fits { IfSome result (λ next. is_number T.TYPE (T.number next) ≡ true) }
{
    let scale = T::from_u32(power_of_ten(count));
    value.checked_mul_add(scale, T::from_u32(number), is_negative)
}

// The number with digits appended, where the type has the result.
#[inline(always)]
pub(crate) fn append_digits<T: Integer>(number: T, digits: &[u8], is_negative: bool) -> Option<T>
    requires bits { 32 ≤ T.TYPE.bits }
    requires sign { HasSign is_negative (T.number number) }
    ensures { IfSome result (λ value.
        IsAppended T.TYPE is_negative (T.number number) digits.now (T.number value)) }
{
    let mut value = number;
    let mut place = 0;
    while place < digits.len() {
        let count = digits_at_once::<T>().min(digits.len() - place);
        let Some(part) = value_to_16::<T>(&digits[place..place + count], false) else {
            return None;
        };
        match append_part::<T>(value, part, count, is_negative) {
            Some(next) => value = next,
            None => return None,
        }
        place += count;
    }
    Some(value)
}
