// All digits of a numeral, by words where options and format allow them.
ghost use Rattle.std.specs.Prelude.{◌≡◌, ◌≤◌, ◌↔◌, true, Some, IfErr, IfOk, IsNone, IsTrue};
ghost use Rattle.std.specs.Option.{option_or};
ghost use Rattle.lexical_util.specs.Number.{HasRoom};
ghost use Rattle.lexical_parse_integer.specs.CursorView.{numeral_of};
ghost use Rattle.lexical_parse_integer.specs.Folded.{Folded};
ghost use Rattle.lexical_parse_integer.specs.Grammar.{range_fault, zero_fault};
ghost use Rattle.lexical_parse_integer.specs.Reading.{MovesOn, IsAtNumeral, IsReading, KeepsTurns, LeavesFewTurns, LeavesTurns, ReadsAll, ReadsNumeral, ReadsOn};
ghost use Rattle.lexical_parse_integer.specs.Turns.{AsksWords};

use crate::algorithm::counted::digits::{read_tested, read_untested};
use crate::algorithm::counted::multi::read_words;
use crate::algorithm::counted::zeros::read_first_digit;
use crate::cursor::Cursor;
use lexical_util::num::Integer;
use lexical_util::result::Result;

// Whether words of digits are taken.
#[inline(always)]
fn takes_words<T: Integer>(c: &Cursor<'_>, no_multi_digit: bool) -> bool
    ensures { IsTrue result ↔ (AsksWords T.BITS no_multi_digit c.now.format × (c.now.radix ≤ 10)) }
{
    !no_multi_digit && T::BITS >= 32 && c.is_contiguous() && c.radix() <= 10
}

// Whether the first digits, as many as the type has room for, are joined with no test: where no separator can
// stand among them, or the text has no more bytes than that.
#[inline(always)]
fn skips_tests(c: &Cursor<'_>, most: usize) -> bool {
    c.is_contiguous() || c.buffer_length() - c.cursor() <= most
}

// Takes words of digits, and then digits alone, as many as no test is needed for.
#[inline(always)]
fn read_by_words<T: Integer>(c: &mut Cursor<'_>, value: T, is_negative: bool, most: usize) -> T
    requires bits { 32 ≤ T.BITS }
    requires radix { c.old.radix ≤ 10 }
    requires contiguous { IsNone c.old.format.digit_separator }
    requires ready { IsReading T.TYPE is_negative c.old (T.number value) }
    requires room { HasRoom T.TYPE c.old.radix most }
    ensures on { ReadsOn T.TYPE is_negative c.old c.new (T.number result) }
    ensures few { Folded (LeavesFewTurns T.BITS most c.old c.new) }
{
    let value = read_words::<T>(c, value, is_negative, most);
    read_untested::<T>(c, value, is_negative, most)
}

// Takes the digits that no test is needed for, in words where that is asked for.
#[inline(always)]
fn read_front<T: Integer>(
    c: &mut Cursor<'_>,
    value: T,
    is_negative: bool,
    no_multi_digit: bool,
) -> T
    requires ready { IsReading T.TYPE is_negative c.old (T.number value) }
    ensures on { ReadsOn T.TYPE is_negative c.old c.new (T.number result) }
    ensures turns { Folded (LeavesTurns T.BITS T.TYPE no_multi_digit c.old c.new) }
{
    let most = T::overflow_digits(c.radix());
    if takes_words::<T>(c, no_multi_digit) {
        return read_by_words::<T>(c, value, is_negative, most);
    }
    if skips_tests(c, most) {
        return read_untested::<T>(c, value, is_negative, most);
    }
    value
}

// Takes all digits that are left.
#[inline(always)]
pub(crate) fn read_digits<T: Integer>(
    c: &mut Cursor<'_>,
    value: T,
    is_negative: bool,
    no_multi_digit: bool,
) -> Result<T>
    requires ready { IsReading T.TYPE is_negative c.old (T.number value) }
    ensures all { IfOk result (λ value. ReadsAll T.TYPE is_negative c.old c.new (T.number value)) }
    ensures leaves { IfErr result
        (λ e. range_fault T.TYPE is_negative (numeral_of c.old) ≡ Some e) }
    ensures goes_on { MovesOn c.old c.new }
    ensures turns { Folded (KeepsTurns T.BITS T.TYPE no_multi_digit c.old c.new) }
{
    let front = read_front::<T>(c, value, is_negative, no_multi_digit);
    read_tested::<T>(c, front, is_negative)
}

// Takes the whole numeral, of which no digit was read yet.
#[inline(always)]
pub(crate) fn read_numeral<T: Integer>(
    c: &mut Cursor<'_>,
    is_negative: bool,
    radix_chosen: bool,
    no_multi_digit: bool,
) -> Result<T>
    requires front { IsAtNumeral c.old }
    requires minus { is_negative ≡ true → T.TYPE.is_signed ≡ true }
    ensures all { IfOk result
        (λ value. ReadsNumeral T.TYPE is_negative radix_chosen c.old c.new (T.number value)) }
    ensures fault { IfErr result
        (λ e. option_or (zero_fault c.old.format radix_chosen (numeral_of c.old))
        (range_fault T.TYPE is_negative (numeral_of c.old)) ≡ Some e) }
    ensures goes_on { MovesOn c.old c.new }
    ensures turns { Folded (KeepsTurns T.BITS T.TYPE no_multi_digit c.old c.new) }
{
    let first = read_first_digit::<T>(c, is_negative, radix_chosen)?;
    read_digits::<T>(c, first, is_negative, no_multi_digit)
}
