// The caller that CALLING.md shows, proved, and what the README shows, run.

ghost use Rattle.std.specs.Prelude.{◌≡◌, ◌≤ℤ◌, false, pos};
ghost use Rattle.std.specs.Option.{option_and_then, option_map};
ghost use Rattle.lexical_util.specs.Digit.{IsRadix, digit};
ghost use Rattle.lexical_util.specs.Number.{number_if_fits, mul_add};

use lexical_util::digit::char_to_digit;
use lexical_util::format::{NumberFormat, NumberFormatBuilder};
use lexical_util::num::Integer;

/// The number with the digit `byte` after it, and `None` where the byte is no digit of the format's
/// radix or the new number is none of the type.
pub fn with_digit<T: Integer>(number: T, byte: u8, format: &NumberFormat) -> Option<T>
    requires radix { IsRadix format.now.mantissa_radix }
    requires not_negative { pos 0 ≤ℤ T.number number }
    ensures { option_map T.number result ≡ option_and_then
        (λ value. number_if_fits T.TYPE
        (mul_add false (T.number number) (pos format.now.mantissa_radix) (pos value)))
        (digit format.now.mantissa_radix byte) }
{
    let value = char_to_digit(byte, format.radix())?;
    let scale = T::from_u32(format.radix());
    number.checked_mul_add(scale, T::from_u32(value), false)
}

#[test]
fn shown(rt: HostRuntime) {
    let format = NumberFormatBuilder::new()
        .mantissa_radix(16)
        .base_prefix(Some(b'x'))
        .build_strict();
    let value = char_to_digit(b'F', format.radix()); // Some(15)

    assert_eq!(rt; value, Some(15));
}
