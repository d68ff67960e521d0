// Digits, taken one at a time and joined to a value.
ghost use Rattle.std.specs.Prelude.{◌≡◌, ◌+◌, Some, IfErr, IfOk, ◌≤◌};
ghost use Rattle.lexical_util.specs.Number.{HasRoom};
ghost use Rattle.lexical_parse_integer.specs.CursorView.{numeral_of};
ghost use Rattle.lexical_parse_integer.specs.Grammar.{range_fault};
ghost use Rattle.lexical_parse_integer.specs.Numeral.{digit_count};
ghost use Rattle.lexical_parse_integer.specs.Reading.{MovesOn, IsReading, ReadsAll, ReadsOn};

use crate::algorithm::join::join_checked;
use crate::cursor::Cursor;
use lexical_util::num::Integer;
use lexical_util::result::Result;

// Takes up to `most` digits, counted from the numeral's first: no number of `most` digits leaves the type, so no step
// is tested.
#[inline(always)]
pub(crate) fn read_untested<T: Integer>(
    c: &mut Cursor<'_>,
    value: T,
    is_negative: bool,
    most: usize,
) -> T
    requires ready { IsReading T.TYPE is_negative c.old (T.number value) }
    requires room { HasRoom T.TYPE c.old.radix most }
    ensures on { ReadsOn T.TYPE is_negative c.old c.new (T.number result) }
    ensures turns { c.new.turns + c.old.digits ≡ c.old.turns + c.new.digits }
{
    let radix = T::from_u32(c.radix());
    let mut value = value;
    while c.digits() < most {
        match c.read_digit() {
            Some(digit) => value = value.mul_add(radix, T::from_u32(digit), is_negative),
            None => return value,
        }
    }
    value
}

// Takes the digits that are left, and tests each step.
#[inline(always)]
pub(crate) fn read_tested<T: Integer>(c: &mut Cursor<'_>, value: T, is_negative: bool) -> Result<T>
    requires ready { IsReading T.TYPE is_negative c.old (T.number value) }
    ensures all { IfOk result (λ value. ReadsAll T.TYPE is_negative c.old c.new (T.number value)) }
    ensures leaves { IfErr result
        (λ e. range_fault T.TYPE is_negative (numeral_of c.old) ≡ Some e) }
    ensures goes_on { MovesOn c.old c.new }
    ensures count { c.new.digits ≤ digit_count (numeral_of c.old) }
    ensures turns { c.new.turns + c.old.digits ≡ c.old.turns + c.new.digits }
{
    let mut value = value;
    while let Some(digit) = c.read_digit() {
        let place = c.place() - 1;
        value = join_checked::<T>(value, digit, c.radix(), place, is_negative)?;
    }
    Ok(value)
}
