// A digit joined to a value, for both parsers.
ghost use Rattle.std.specs.Prelude.{◌≡◌, ◌<◌, false, true, pos, IfErr, IfOk};
ghost use Rattle.lexical_util.specs.Digit.{IsRadix};
ghost use Rattle.lexical_util.specs.Number.{HasSign, is_number, mul_add};
ghost use Rattle.lexical_parse_integer.specs.Grammar.{range_error};

use lexical_util::error::Error;
use lexical_util::num::Integer;
use lexical_util::result::Result;

// The value with one digit more, or the fault of the digit's place where it leaves the type.
#[inline(always)]
pub(crate) fn join_checked<T: Integer>(
    value: T,
    digit: u32,
    radix: u32,
    place: usize,
    is_negative: bool,
) -> Result<T>
    requires radix { IsRadix radix }
    requires digit { digit < radix }
    requires sign { HasSign is_negative (T.number value) }
    ensures fits { IfOk result
        (λ next. (T.number next ≡ mul_add is_negative (T.number value) (pos radix) (pos digit))
        × (is_number T.TYPE (T.number next) ≡ true)) }
    ensures leaves { IfErr result
        (λ e. (e ≡ range_error is_negative place)
        × (is_number T.TYPE (mul_add is_negative (T.number value) (pos radix) (pos digit))
        ≡ false)) }
{
    match value.checked_mul_add(T::from_u32(radix), T::from_u32(digit), is_negative) {
        Some(next) => Ok(next),
        None => Err(if is_negative {
            Error::Underflow(place)
        } else {
            Error::Overflow(place)
        }),
    }
}
