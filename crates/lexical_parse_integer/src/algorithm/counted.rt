// The parsers over a cursor: for readers that go on where a number ends, and to bound the turns that a number takes.
// The calls over a text use none of this, except for those of `laws::turns`.
ghost use Rattle.std.specs.Prelude.{◌≡◌, ◌&&◌, ◌||◌, ◌==◌, Err, IfErr, IfOk, IsTrue, OnOk, is_some, length};
ghost use Rattle.lexical_parse_integer.specs.Answer.{with_place, view_of};
ghost use Rattle.lexical_parse_integer.specs.Folded.{Folded};
ghost use Rattle.lexical_parse_integer.specs.Grammar.{complete, digits_required, partial};
ghost use Rattle.lexical_parse_integer.specs.Reading.{IsOver, IsRead, StandsAtStop};
ghost use Rattle.lexical_parse_integer.specs.Turns.{AsksWords, HasFewTurns};

mod digits;
mod head;
mod multi;
mod numeral;
mod zeros;

use crate::algorithm::counted::head::{is_prefix_alone, read_head};
use crate::algorithm::counted::numeral::read_numeral;
use crate::cursor::Cursor;
use crate::options::Options;
pub use head::parse_sign;
use lexical_util::error::Error;
use lexical_util::num::Integer;
use lexical_util::result::Result;
pub use multi::{try_parse_4digits, try_parse_8digits};

// Reads sign, prefix, numeral and suffix: all that the two parsers have in common.
#[inline(always)]
fn read<T: Integer>(c: &mut Cursor<'_>, no_multi_digit: bool) -> Result<T>
    requires { c.old.position ≡ 0 }
    ensures over { Folded (IsOver c.old.bytes c.old.format c.new) }
    ensures same { c.new.identity ≡ c.old.identity }
    ensures found { IfOk result
        (λ value. Folded (IsRead c.old.format T.TYPE c.old.bytes (T.number value) c.new)) }
    ensures completes { IfErr result (λ e. complete c.old.format T.TYPE c.old.bytes ≡ Err e) }
    ensures goes_part { IfErr result (λ e. partial c.old.format T.TYPE c.old.bytes ≡ Err e) }
    ensures each { OnOk result (Folded (IsTrue no_multi_digit → c.new.turns ≡ c.new.digits)) }
    ensures few { Folded (AsksWords T.BITS no_multi_digit c.old.format
        → HasFewTurns c.old.format T.TYPE c.old.bytes c.new.turns) }
{
    let (is_negative, is_prefixed, is_octal) = read_head::<T>(c)?;
    c.assert_invariant();
    if is_prefix_alone(c, is_prefixed) {
        return Err(Error::Empty(c.buffer_length()));
    }
    let value = read_numeral::<T>(c, is_negative, is_prefixed | is_octal, no_multi_digit)?;
    c.read_suffix();
    Ok(value)
}

// Whether the numeral has no digit where the format asks for one.
#[inline(always)]
fn lacks_digits(c: &Cursor<'_>) -> bool
    ensures { result ≡ (digits_required c.now.format && (c.now.digits == 0)) }
{
    c.format().required_digits() && c.digits() == 0
}

// Whether missing digits are a fault of the partial parser: reading stops at the text's end, or the format has a
// separator, with flags or without.
#[inline(always)]
fn reports_empty(c: &Cursor<'_>) -> bool
    ensures { result ≡ (is_some c.now.format.digit_separator
        || (c.now.position == length c.now.bytes)) }
{
    !c.is_contiguous() || c.is_buffer_empty()
}

/// The integer that the cursor's whole text stands for; the cursor's position has to be 0.
///
/// The faults are those of [`algorithm_complete`]. At `Ok` the cursor is where reading stops, with all digits of
/// the numeral counted. After a fault it is somewhere in its text. Whatever the answer is, it is over the text and
/// under the format that it had.
///
/// It takes few turns. With `no_multi_digit` an `Ok` takes one turn a digit. Without it, where the format has no
/// separator byte and the radix is at most 10, let `d` be the number of the numeral's digits, `o` what
/// `T::overflow_digits` answers for the radix and `m` the smaller of the two: then it takes at most
/// `m / 8 + m % 8 + (d - m)` turns for types of 64 and 128 bits, and `m / 4 + m % 4 + (d - m)` for types of 32 bits,
/// whatever it answers and whatever follows the numeral.
#[inline(always)]
pub fn algorithm_complete_on<T: Integer>(c: &mut Cursor<'_>, options: &Options) -> Result<T>
    requires front { c.old.position ≡ 0 }
    ensures answer { view_of T.number result ≡ complete c.old.format T.TYPE c.old.bytes }
    ensures over { IsOver c.old.bytes c.old.format c.new }
    ensures same { c.new.identity ≡ c.old.identity }
    ensures at_stop { OnOk result (StandsAtStop c.old.format T.TYPE c.old.bytes c.new) }
    ensures each { IsTrue options.now.no_multi_digit → OnOk result (c.new.turns ≡ c.new.digits) }
    ensures few { AsksWords T.BITS options.now.no_multi_digit c.old.format
        → HasFewTurns c.old.format T.TYPE c.old.bytes c.new.turns }
{
    let value = read::<T>(c, options.get_no_multi_digit())?;
    if !c.is_buffer_empty() {
        return Err(Error::InvalidDigit(c.place()));
    }
    if lacks_digits(c) {
        return Err(Error::Empty(c.buffer_length()));
    }
    Ok(value)
}

/// The integer that the front of the cursor's text stands for, and the place at which reading stops; the cursor's
/// position has to be 0.
///
/// The faults are those of [`algorithm_partial`], and the cursor and the turns are as in [`algorithm_complete_on`].
#[inline(always)]
pub fn algorithm_partial_on<T: Integer>(c: &mut Cursor<'_>, options: &Options) -> Result<(T, usize)>
    requires front { c.old.position ≡ 0 }
    ensures answer { view_of (with_place T.number) result
        ≡ partial c.old.format T.TYPE c.old.bytes }
    ensures place { IfOk result (λ found. c.new.position ≡ found.1) }
    ensures over { IsOver c.old.bytes c.old.format c.new }
    ensures same { c.new.identity ≡ c.old.identity }
    ensures at_stop { OnOk result (StandsAtStop c.old.format T.TYPE c.old.bytes c.new) }
    ensures each { IsTrue options.now.no_multi_digit → OnOk result (c.new.turns ≡ c.new.digits) }
    ensures few { AsksWords T.BITS options.now.no_multi_digit c.old.format
        → HasFewTurns c.old.format T.TYPE c.old.bytes c.new.turns }
{
    let front = read::<T>(c, options.get_no_multi_digit())?;
    if lacks_digits(c) {
        if reports_empty(c) {
            return Err(Error::Empty(c.place()));
        }
        return Ok((front, c.place()));
    }
    Ok((front, c.place()))
}
