//! The values of digits of any radix, read one after another. The digit of a byte is looked up in a table. So few
//! digits are read that their number can't leave the type: no step is tested.
ghost use Rattle.std.specs.Prelude.{◌<◌, ◌≤◌, IfSome, IsTrue, length};
ghost use Rattle.lexical_util.specs.Digit.{IsRadix};
ghost use Rattle.lexical_util.specs.Number.{HasRoom, IsNumber};
ghost use Rattle.lexical_digits.specs.WrittenNumbers.{StandsFor, WritesFront};

use crate::values::{number_limit, signed_value};
use lexical_util::digit::char_to_digit;
use lexical_util::num::Integer;

// The number of digits that the type has room for.
#[inline(always)]
fn number_by_table<T: Integer>(digits: &[u8], radix: u32, most: usize) -> Option<T>
    requires radix { IsRadix radix }
    requires few { length digits.now ≤ most }
    requires room { HasRoom T.TYPE radix most }
    ensures writes { IfSome result
        (λ value. WritesFront radix digits.now (length digits.now) (T.number value)) }
{
    let scale = T::from_u32(radix);
    let mut value = T::ZERO;
    for byte in digits {
        match char_to_digit(*byte, radix) {
            Some(digit) => value = value.mul_add(scale, T::from_u32(digit), false),
            None => return None,
        }
    }
    Some(value)
}

// The value of digits of the radix in a type of fewer than 32 bits. Such a type has room for few digits without a test,
// so their number is read with 32 bits, and compared with the type's limit once.
#[inline(always)]
fn value_by_limit<T: Integer>(digits: &[u8], radix: u32, is_negative: bool) -> Option<T>
    requires bits { T.TYPE.bits < 32 }
    requires radix { IsRadix radix }
    requires minus { IsTrue is_negative → IsTrue T.TYPE.is_signed }
    ensures { IfSome result
        (λ value. StandsFor T.TYPE radix is_negative digits.now (T.number value)) }
{
    let most = u32::overflow_digits(radix);
    if digits.len() > most {
        return None;
    }
    let Some(number) = number_by_table::<u32>(digits, radix, most) else {
        return None;
    };
    if number as u64 >= number_limit::<T>() {
        return None;
    }
    Some(signed_value::<T>(T::from_u32(number), is_negative))
}

/// The value of digits of the radix, with a minus where `is_negative`.
#[inline(never)]
pub fn value_by_table<T: Integer>(digits: &[u8], radix: u32, is_negative: bool) -> Option<T>
    requires radix { IsRadix radix }
    requires minus { IsTrue is_negative → IsTrue T.TYPE.is_signed }
    ensures { IfSome result
        (λ value. StandsFor T.TYPE radix is_negative digits.now (T.number value)) }
{
    if T::BITS < 32 {
        return value_by_limit::<T>(digits, radix, is_negative);
    }
    let most = T::overflow_digits(radix);
    if digits.len() > most {
        return None;
    }
    match number_by_table::<T>(digits, radix, most) {
        Some(value) => Some(signed_value::<T>(value, is_negative)),
        None => None,
    }
}
