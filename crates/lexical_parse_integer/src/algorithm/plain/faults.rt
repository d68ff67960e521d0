// Faults of decimal texts under formats without punctuation, which most faults are. And numbers of many digits there.
//
// `None` says nothing. Each is a call of its own, so that texts without a fault need no stack frame.
ghost use Rattle.std.specs.Prelude.{◌≡◌, ◌≢◌, ◌<◌, ◌≤◌, true, Err, IfSome, IsNone, Ok, get_or, length, slice_index, take};
ghost use Rattle.lexical_util.specs.Ascii.{digit_zero};
ghost use Rattle.lexical_util.specs.Digit.{digit};
ghost use Rattle.lexical_util.specs.Format.{standard};
ghost use Rattle.lexical_util.specs.declared.error.Error.TheVariants.{Empty, InvalidDigit};
ghost use Rattle.lexical_digits.specs.Words.{AreDigits};
ghost use Rattle.lexical_parse_integer.specs.Answer.{view_of};
ghost use Rattle.lexical_parse_integer.specs.Grammar.{complete};
ghost use Rattle.lexical_parse_integer.specs.Head.{sign};
ghost use Rattle.lexical_parse_integer.specs.Plain.{IsPlain};

use crate::algorithm::front::sign_of;
use crate::algorithm::join::join_checked;
use crate::algorithm::plain::keeps_zero_rule;
use crate::seek::digit_at;
use lexical_digits::fronts::{number_behind, number_in_front, value_of_digits};
use lexical_util::digit::char_to_digit;
use lexical_util::error::Error;
use lexical_util::format::{self, NumberFormat};
use lexical_util::num::Integer;
use lexical_util::result::Result;

// How many digits a text begins with, if there are at most `most`, and otherwise some number above `most`. Digits are
// counted by words, whose numbers are ignored.
#[inline(always)]
fn digits_in_front(text: &[u8], most: usize) -> usize
    requires some { 1 ≤ length text.now }
    ensures within { result ≤ length text.now }
    ensures digits { AreDigits 10 (take result text.now) }
    ensures stops { result ≤ most → result < length text.now
        → IsNone (digit 10 (get_or text.now result 0)) }
{
    let (_, mut count) = number_in_front(text);
    if count < 8 {
        return count;
    }
    while count <= most {
        let (_, more) = number_behind(text, count);
        count += more;
        if more < 8 {
            return count;
        }
    }
    count
}

// The place at which reading stops, if no digit stands behind the sign, or if another byte follows digits so few that
// any number of that length fits the type.
#[inline(always)]
pub(in crate::algorithm) fn place_after_digits<T: Integer>(
    bytes: &[u8],
    format: &NumberFormat,
    is_negative: bool,
    start: usize,
) -> Option<usize>
    requires plain { IsPlain format.now }
    requires decimal { format.now.mantissa_radix ≡ 10 }
    requires sign { sign format.now T.TYPE bytes.now ≡ Ok (is_negative, start) }
    ensures byte { IfSome result (λ place. place < length bytes.now
        → complete format.now T.TYPE bytes.now ≡ Err (InvalidDigit place)) }
    ensures end { IfSome result (λ place. length bytes.now ≤ place
        → complete format.now T.TYPE bytes.now ≡ Err (Empty place)) }
{
    if digit_at(bytes, 10, start).is_none() {
        if start < bytes.len() {
            return Some(start);
        }
        return if format.required_digits() {
            Some(start)
        } else {
            None
        };
    }
    let digits = &bytes[start..];
    let most = T::overflow_digits(10);
    let count = digits_in_front(digits, most);
    if count == digits.len() || count > most {
        return None;
    }
    if !keeps_zero_rule(format, &digits[..count]) {
        return None;
    }
    Some(start + count)
}

// How many digits are read at once where there are more than `most`. `most` is a bound for any
// radix up to 16, and from 32 bits on a signed type has room for one more decimal digit. If one
// stands there, it is read too, since this makes whole words.
#[inline(always)]
fn digits_at_once<T: Integer>(digits: &[u8], most: usize) -> usize
    requires some { 1 ≤ most }
    requires more { most < length digits.now }
    ensures some { 1 ≤ result }
    ensures within { result ≤ length digits.now }
{
    if T::IS_SIGNED && T::BITS >= 32 && digits[most] <= b'9' {
        most + 1
    } else {
        most
    }
}

// The answer for a text with more digits than surely fit its type: the number that they stand for,
// or the fault at the digit with which the number leaves the type, or at the first byte that is no
// digit. The caller tests for zeros in front, since a look at the first digit alone would have the
// compiler load the others one by one.
#[inline(always)]
pub(in crate::algorithm) fn answer_after_digits<T: Integer>(
    bytes: &[u8],
    format: &NumberFormat,
    is_negative: bool,
    start: usize,
) -> Option<Result<T>>
    requires plain { IsPlain format.now }
    requires decimal { format.now.mantissa_radix ≡ 10 }
    requires sign { sign format.now T.TYPE bytes.now ≡ Ok (is_negative, start) }
    requires zeros { format.now.no_integer_leading_zeros ≡ true
        → slice_index bytes.now start ≢ digit_zero }
    ensures { IfSome result
        (λ answer. view_of T.number answer ≡ complete format.now T.TYPE bytes.now) }
{
    let digits = &bytes[start..];
    let most = T::overflow_digits(10);
    if digits.len() <= most {
        return None;
    }
    let mut count = digits_at_once::<T>(digits, most);
    let mut value = value_of_digits::<T>(&digits[..count], is_negative)?;
    while count < digits.len() {
        let place = start + count;
        let Some(digit) = char_to_digit(digits[count], 10) else {
            return Some(Err(Error::InvalidDigit(place)));
        };
        match join_checked::<T>(value, digit, 10, place, is_negative) {
            Ok(next) => value = next,
            Err(fault) => return Some(Err(fault)),
        }
        count += 1;
    }
    Some(Ok(value))
}

// The place that `place_after_digits` finds, under the standard format.
#[inline(never)]
pub(in crate::algorithm) fn place_after_few<T: Integer>(bytes: &[u8]) -> Option<usize>
    ensures byte { IfSome result (λ place. place < length bytes.now
        → complete standard T.TYPE bytes.now ≡ Err (InvalidDigit place)) }
    ensures end { IfSome result (λ place. length bytes.now ≤ place
        → complete standard T.TYPE bytes.now ≡ Err (Empty place)) }
{
    let Ok((is_negative, start)) = sign_of::<T>(bytes, &format::STANDARD) else {
        return None;
    };
    place_after_digits::<T>(bytes, &format::STANDARD, is_negative, start)
}

// The fault of a text under the standard format that has more digits than its type surely has room for, and doesn't
// begin with a zero: many zeros are read faster from the front.
#[inline(never)]
pub(in crate::algorithm) fn fault_after_many<T: Integer>(bytes: &[u8]) -> Option<Error>
    requires some { 1 ≤ length bytes.now }
    ensures { IfSome result (λ error. complete standard T.TYPE bytes.now ≡ Err error) }
{
    if bytes[0] == b'0' {
        return None;
    }
    let Ok((is_negative, start)) = sign_of::<T>(bytes, &format::STANDARD) else {
        return None;
    };
    match answer_after_digits::<T>(bytes, &format::STANDARD, is_negative, start) {
        Some(Err(fault)) => Some(fault),
        _ => None,
    }
}
