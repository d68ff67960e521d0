// Leading zeros, where the format forbids them.
ghost use Rattle.std.specs.Prelude.{◌≡◌, ◌+◌, ◌≤◌, false, Some, nat_lt, IfErr, IfOk, IsNone};
ghost use Rattle.std.specs.Option.{option_or};
ghost use Rattle.lexical_parse_integer.specs.CursorView.{IsSound, numeral_of};
ghost use Rattle.lexical_parse_integer.specs.Folded.{Folded};
ghost use Rattle.lexical_parse_integer.specs.Grammar.{range_fault, zero_fault};
ghost use Rattle.lexical_parse_integer.specs.Numeral.{digit_count};
ghost use Rattle.lexical_parse_integer.specs.Reading.{MovesOn, IsAtNumeral, LooksAhead, ReadsFirst};

use crate::algorithm::join::join_checked;
use crate::cursor::Cursor;
use lexical_util::digit::char_is_digit;
use lexical_util::error::Error;
use lexical_util::num::Integer;
use lexical_util::result::Result;

// Whether another digit follows. If the format has a separator, that digit is taken.
#[inline(always)]
fn has_more(c: &mut Cursor<'_>) -> bool
    requires open { c.old.closed ≡ false }
    requires sound { Folded (IsSound c.old) }
    ensures answer { result ≡ nat_lt c.old.digits (digit_count (numeral_of c.old)) }
    ensures goes_on { MovesOn c.old c.new }
    ensures digits { result ≡ false → c.new.digits ≡ c.old.digits }
    ensures turns { c.new.turns + c.old.digits ≡ c.old.turns + c.new.digits }
    ensures count { c.old.digits ≤ digit_count (numeral_of c.old)
        → c.new.digits ≤ digit_count (numeral_of c.old) }
    ensures stays { IsNone c.old.format.digit_separator → c.new ≡ c.old }
{
    if c.is_contiguous() {
        match c.first() {
            Some(byte) => char_is_digit(byte, c.radix()),
            None => false,
        }
    } else {
        c.read_digit().is_some()
    }
}

// Reads the first digit where leading zeros are forbidden. Without a separator it takes that digit only if it is a
// zero, so that a text of digits loses no word to it.
#[inline(always)]
pub(crate) fn read_first_digit<T: Integer>(
    c: &mut Cursor<'_>,
    is_negative: bool,
    radix_chosen: bool,
) -> Result<T>
    requires front { IsAtNumeral c.old }
    ensures first { IfOk result
        (λ value. ReadsFirst T.TYPE is_negative radix_chosen c.old c.new (T.number value)) }
    ensures ahead { LooksAhead c.old c.new }
    ensures fault { IfErr result
        (λ e. option_or (zero_fault c.old.format radix_chosen (numeral_of c.old))
        (range_fault T.TYPE is_negative (numeral_of c.old)) ≡ Some e) }
{
    if radix_chosen || !c.format().no_integer_leading_zeros() {
        return Ok(T::ZERO);
    }
    if c.is_contiguous() && c.first() != Some(b'0') {
        return Ok(T::ZERO);
    }
    let digit = match c.read_digit() {
        Some(digit) => digit,
        None => return Ok(T::ZERO),
    };
    let place = c.place() - 1;
    if digit == 0 {
        if has_more(c) {
            return Err(Error::InvalidLeadingZeros(place));
        }
        return Ok(T::ZERO);
    }
    join_checked::<T>(T::ZERO, digit, c.radix(), place, is_negative)
}
