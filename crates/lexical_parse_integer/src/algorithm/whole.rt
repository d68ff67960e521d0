// What the whole text stands for: its value, by the reader for the format's kind, whose `None` says nothing of the
// text, and the answer for what these readers don't read.
ghost use Rattle.std.specs.Prelude.{◌≡◌, ◌<◌, ◌≤◌, Err, IfSome, IsNone, IsTrue, Ok, Some, length};
ghost use Rattle.lexical_util.specs.Format.{standard};
ghost use Rattle.lexical_util.specs.Validity.{fault};
ghost use Rattle.lexical_parse_integer.specs.Answer.{view_of};
ghost use Rattle.lexical_parse_integer.specs.Grammar.{complete, complete_if_valid};
ghost use Rattle.lexical_parse_integer.specs.Head.{sign};
ghost use Rattle.lexical_parse_integer.specs.Plain.{IsPlain};

use crate::algorithm::front::{complete_from_front, sign_of};
use crate::algorithm::plain::faults::{
    answer_after_digits, fault_after_many, place_after_digits, place_after_few,
};
use crate::algorithm::plain::{
    has_forbidden_zero, is_decimal, is_plain, standard_behind_plus, value_behind_plus,
    value_of_decimal, value_of_many, value_of_plain,
};
use crate::algorithm::punctuated::{is_parted_otherwise, value_if_punctuated};
use lexical_util::error::Error;
use lexical_util::format::{self, NumberFormat};
use lexical_util::num::Integer;
use lexical_util::result::Result;

/// The integer that the whole text stands for, if the format is valid and the fast reader for its kind reads the text:
/// digits alone behind a sign and a prefix, or decimal digits in groups of three.
///
/// `None` says nothing of the text.
#[inline(always)]
pub fn value_for_format<T: Integer>(bytes: &[u8], format: &NumberFormat) -> Option<T>
    ensures valid { IfSome result (λ value. IsNone (fault format.now)) }
    ensures answer { IfSome result
        (λ value. complete format.now T.TYPE bytes.now ≡ Ok (T.number value)) }
{
    if is_decimal(format) {
        return value_of_decimal::<T>(bytes, format, bytes.len());
    }
    if is_plain(format) {
        return value_of_plain::<T>(bytes, format);
    }
    if !format.is_valid() {
        return None;
    }
    value_if_punctuated::<T>(bytes, format)
}

// The value of a text with more digits than the type surely has room for, or the text's fault.
#[inline(always)]
fn long_decimal<T: Integer>(
    bytes: &[u8],
    format: &NumberFormat,
    is_negative: bool,
    start: usize,
) -> Result<T>
    requires plain { IsPlain format.now }
    requires decimal { format.now.mantissa_radix ≡ 10 }
    requires sign { sign format.now T.TYPE bytes.now ≡ Ok (is_negative, start) }
    requires some { start < length bytes.now }
    ensures { view_of T.number result ≡ complete format.now T.TYPE bytes.now }
{
    if bytes[start] == b'0' {
        return complete_from_front::<T>(bytes, format);
    }
    match answer_after_digits::<T>(bytes, format, is_negative, start) {
        Some(answer) => answer,
        None => short_decimal::<T>(bytes, format, is_negative, start),
    }
}

// The fault of a text where a byte that is no digit stands behind the sign, or behind fewer digits than could leave the
// type; or the value 0, where nothing stands behind the sign, and no digit is asked for.
#[inline(always)]
fn short_decimal<T: Integer>(
    bytes: &[u8],
    format: &NumberFormat,
    is_negative: bool,
    start: usize,
) -> Result<T>
    requires plain { IsPlain format.now }
    requires decimal { format.now.mantissa_radix ≡ 10 }
    requires sign { sign format.now T.TYPE bytes.now ≡ Ok (is_negative, start) }
    ensures { view_of T.number result ≡ complete format.now T.TYPE bytes.now }
{
    match place_after_digits::<T>(bytes, format, is_negative, start) {
        Some(place) if place < bytes.len() => Err(Error::InvalidDigit(place)),
        Some(place) => Err(Error::Empty(place)),
        None if start == bytes.len() && !format.required_digits() => Ok(T::ZERO),
        None => complete_from_front::<T>(bytes, format),
    }
}

// The complete answer under a decimal format without punctuation, for a text that isn't digits alone behind a minus or none.
// Most such texts are at fault: the sign is read once, and a fault that is known is returned. Zeros in front of a long number are
// read from the front, which skips them. Out of line, so that a value pays for no `Result`.
#[inline(never)]
fn complete_decimal<T: Integer>(bytes: &[u8], format: &NumberFormat) -> Result<T>
    requires plain { IsPlain format.now }
    requires decimal { format.now.mantissa_radix ≡ 10 }
    ensures { view_of T.number result ≡ complete format.now T.TYPE bytes.now }
{
    let (is_negative, start) = sign_of::<T>(bytes, format)?;
    if has_forbidden_zero(bytes, format, start) {
        return Err(Error::InvalidLeadingZeros(start));
    }
    if let Some(value) = value_behind_plus::<T>(bytes, format) {
        return Ok(value);
    }
    if bytes.len() - start > T::overflow_digits(10) {
        return long_decimal::<T>(bytes, format, is_negative, start);
    }
    short_decimal::<T>(bytes, format, is_negative, start)
}

// A function clears, at its beginning, the memory that its calls return values through. So each of these two calls
// stands in a function of its own.
#[inline(always)]
fn fault_of_many<T: Integer>(bytes: &[u8]) -> Option<Error>
    requires some { 1 ≤ length bytes.now }
    ensures { IfSome result (λ error. complete standard T.TYPE bytes.now ≡ Err error) }
{
    fault_after_many::<T>(bytes)
}

#[inline(always)]
fn standard_answer<T: Integer>(bytes: &[u8]) -> Result<T>
    ensures { view_of T.number result ≡ complete standard T.TYPE bytes.now }
{
    complete_decimal::<T>(bytes, &format::STANDARD)
}

/// The integer that the whole text stands for under the standard format, for a text that `value_for_format` doesn't
/// read.
#[inline(always)]
pub fn complete_standard<T: Integer>(bytes: &[u8]) -> Result<T>
    ensures { view_of T.number result ≡ complete standard T.TYPE bytes.now }
{
    // These calls know the format, and return in registers.
    if let Some(value) = standard_behind_plus::<T>(bytes) {
        return Ok(value);
    }
    if bytes.len() > T::overflow_digits(10) {
        if let Some(fault) = fault_of_many::<T>(bytes) {
            return Err(fault);
        }
        return standard_answer::<T>(bytes);
    }
    match place_after_few::<T>(bytes) {
        Some(place) if place < bytes.len() => Err(Error::InvalidDigit(place)),
        Some(place) => Err(Error::Empty(place)),
        None => standard_answer::<T>(bytes),
    }
}

// A function that makes a call for a `Result` clears memory for it at its beginning. So a value is looked for first, in
// registers, and each call that returns a `Result` stands in a function of its own.
#[inline(always)]
fn decimal_answer<T: Integer>(bytes: &[u8], format: &NumberFormat) -> Result<T>
    requires plain { IsPlain format.now }
    requires decimal { format.now.mantissa_radix ≡ 10 }
    ensures { view_of T.number result ≡ complete format.now T.TYPE bytes.now }
{
    complete_decimal::<T>(bytes, format)
}

#[inline(always)]
fn front_answer<T: Integer>(bytes: &[u8], format: &NumberFormat) -> Result<T>
    ensures { view_of T.number result ≡ complete_if_valid format.now T.TYPE bytes.now }
{
    complete_from_front::<T>(bytes, format)
}

// The complete answer under a decimal format without punctuation, for a text on which `value_if_short` gave up: then a
// short text is mostly at fault, and a long one is first read for its value, in registers.
#[inline(always)]
fn decimal_rest<T: Integer>(bytes: &[u8], format: &NumberFormat) -> Result<T>
    requires plain { IsPlain format.now }
    requires decimal { format.now.mantissa_radix ≡ 10 }
    ensures { view_of T.number result ≡ complete format.now T.TYPE bytes.now }
{
    if bytes.len() > 16 {
        if let Some(value) = value_of_many::<T>(bytes, format) {
            return Ok(value);
        }
    }
    decimal_answer::<T>(bytes, format)
}

// The complete answer under a valid format without punctuation.
#[inline(always)]
#[tactic(auto, using(crate::proofs::plain::DigitsAlone::valid_answer))]
fn plain_rest<T: Integer>(bytes: &[u8], format: &NumberFormat) -> Result<T>
    requires plain { IsPlain format.now }
    requires valid { IsNone (fault format.now) }
    ensures { view_of T.number result ≡ complete format.now T.TYPE bytes.now }
{
    match value_of_plain::<T>(bytes, format) {
        Some(value) => Ok(value),
        None => front_answer::<T>(bytes, format),
    }
}

// The complete answer under any other format, valid or not.
#[inline(always)]
fn punctuated_rest<T: Integer>(bytes: &[u8], format: &NumberFormat) -> Result<T>
    ensures { view_of T.number result ≡ complete_if_valid format.now T.TYPE bytes.now }
{
    match value_if_punctuated::<T>(bytes, format) {
        Some(value) => Ok(value),
        None => front_answer::<T>(bytes, format),
    }
}

/// The integer that the whole text stands for under a format that may be invalid, for a text on which `value_if_short`
/// gave up: it isn't read as short decimal digits again.
#[inline(always)]
#[tactic(auto, using(crate::proofs::plain::DigitsAlone::valid_answer))]
pub fn complete_if_valid<T: Integer>(bytes: &[u8], format: &NumberFormat) -> Result<T>
    ensures { view_of T.number result ≡ complete_if_valid format.now T.TYPE bytes.now }
{
    if is_decimal(format) {
        return decimal_rest::<T>(bytes, format);
    }
    if is_plain(format) {
        return plain_rest::<T>(bytes, format);
    }
    punctuated_rest::<T>(bytes, format)
}

/// The integer that the whole text stands for under a valid format, for a text on which `value_if_short` gave up.
/// Groups that aren't of three are read from the front, without another try.
#[inline(always)]
#[tactic(auto, using(crate::proofs::plain::DigitsAlone::valid_answer))]
pub fn complete_valid<T: Integer>(bytes: &[u8], format: &NumberFormat) -> Result<T>
    requires valid { IsNone (fault format.now) }
    ensures { view_of T.number result ≡ complete format.now T.TYPE bytes.now }
{
    if is_decimal(format) {
        return decimal_rest::<T>(bytes, format);
    }
    if is_plain(format) {
        return plain_rest::<T>(bytes, format);
    }
    match format.digit_separator() {
        Some(separator) if is_parted_otherwise(bytes, separator) => {
            front_answer::<T>(bytes, format)
        }
        _ => punctuated_rest::<T>(bytes, format),
    }
}
