// The integer types through the bound, at each of the twelve.

ghost use Rattle.std.specs.Prelude.{◌+◌, ◌<◌, pos};
ghost use Rattle.lexical_util.specs.Digit.{IsRadix};
ghost use Rattle.lexical_util.specs.Number.{HasSign, IsNumber, mul_add};

use crate::tests::answers;
use lexical_util::num::Integer;
use std::fmt::Debug;
use std::process::Abort;

fn room<T: Integer>(radix: u32) -> usize
    requires { IsRadix radix }
{
    T::overflow_digits(radix)
}

// `overflow_digits` of each of the twelve types.
fn rooms(radix: u32) -> [usize; 12]
    requires { IsRadix radix }
{
    [
        room::<u8>(radix),
        room::<i8>(radix),
        room::<u16>(radix),
        room::<i16>(radix),
        room::<u32>(radix),
        room::<i32>(radix),
        room::<u64>(radix),
        room::<i64>(radix),
        room::<usize>(radix),
        room::<isize>(radix),
        room::<u128>(radix),
        room::<i128>(radix),
    ]
}

#[test]
fn digits_that_never_overflow(rt: HostRuntime) {
    for radix in 2..=16 {
        answers(
            &rt,
            rooms(radix),
            [2, 1, 4, 3, 8, 7, 16, 15, 16, 15, 32, 31],
        );
    }
    for radix in 17..=36 {
        answers(&rt, rooms(radix), [1, 1, 2, 2, 4, 4, 8, 8, 8, 8, 16, 16]);
    }
}

// A decimal digit behind the front leads to the end of the type, and the next greater one out of it.
fn reaches_end<T: Integer + Debug>(rt: &impl Abort, front: T, digit: u32, is_negative: bool, end: T)
    requires small { digit < 10 }
    requires ten { IsNumber T.TYPE (pos 10) }
    requires digit { IsNumber T.TYPE (pos digit) }
    requires next { IsNumber T.TYPE (pos (digit + 1)) }
    requires sign { HasSign is_negative (T.number front) }
    requires fits { IsNumber T.TYPE
        (mul_add is_negative (T.number front) (pos 10) (pos digit)) }
{
    let ten = T::from_u32(10);
    let last = T::from_u32(digit);
    let next = T::from_u32(digit + 1);
    answers(rt, front.mul_add(ten, last, is_negative), end);
    answers(rt, front.checked_mul_add(ten, last, is_negative), Some(end));
    answers(rt, front.checked_mul_add(ten, next, is_negative), None);
}

#[test]
fn ends_of_the_types(rt: HostRuntime) {
    reaches_end::<u8>(&rt, 25, 5, false, 255);
    reaches_end::<u64>(&rt, 1844674407370955161, 5, false, 18446744073709551615);
    reaches_end::<i8>(&rt, 12, 7, false, 127);
    reaches_end::<i8>(&rt, -12, 8, true, -128);
    reaches_end::<i128>(
        &rt,
        -17014118346046923173168730371588410572,
        8,
        true,
        -170141183460469231731687303715884105728,
    );
}
