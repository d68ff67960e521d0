// Whole texts under formats with punctuation: digits alone, or decimal digits with a separator before each three, behind a
// sign and a prefix.
//
// As under formats without punctuation, these readers answer only what is sure: a value that its type has. `None` says
// nothing of a text: then it is read from its front.
ghost use Rattle.std.specs.Prelude.{◌≡◌, ◌<◌, ◌||◌, IfSome, IsNone, Some, Ok, false, length, slice_range, true};
ghost use Rattle.lexical_util.specs.Validity.{fault};
ghost use Rattle.lexical_parse_integer.specs.Grammar.{complete};
ghost use Rattle.lexical_parse_integer.specs.Head.{head_of, sign};
ghost use Rattle.lexical_parse_integer.specs.Plain.{keeps_zero_rule};

mod threes;

use crate::algorithm::front::{Head, head_behind_sign, sign_of};
use crate::algorithm::plain::keeps_zero_rule;
use crate::algorithm::punctuated::threes::value_of_threes;
use lexical_digits::fronts::value_of_digits;
use lexical_digits::nibbles::value_of_nibbles;
use lexical_digits::table::value_by_table;
use lexical_util::format::NumberFormat;
use lexical_util::num::Integer;

// The head of a text with neither a prefix nor an octal zero behind its sign.
#[inline(always)]
fn bare_head(format: &NumberFormat, is_negative: bool, start: usize) -> Head
    ensures { result ≡ record {
      is_negative = is_negative;
      is_prefixed = false;
      is_octal = false;
      start = start;
      radix = format.now.mantissa_radix;
    } }
{
    Head {
        is_negative,
        is_prefixed: false,
        is_octal: false,
        start,
        radix: format.mantissa_radix(),
    }
}

// Whether no zero stands in front of another digit behind the head, where the format forbids that.
#[inline(always)]
fn keeps_rule_behind(format: &NumberFormat, head: Head, digits: &[u8]) -> bool
    ensures { result ≡ ((head.is_prefixed || head.is_octal)
        || keeps_zero_rule format.now digits.now) }
{
    head.chooses_radix() || keeps_zero_rule(format, digits)
}

// The value of the whole text, where digits of the effective radix alone stand behind its head, and keep the zero rule.
#[inline(always)]
fn value_behind<T: Integer>(bytes: &[u8], format: &NumberFormat, head: Head) -> Option<T>
    requires valid { IsNone (fault format.now) }
    requires some { head.start < length bytes.now }
    requires head { head_of format.now T.TYPE bytes.now ≡ Ok (record {
      is_negative = head.is_negative;
      is_prefixed = head.is_prefixed;
      is_octal = head.is_octal;
      start = head.start;
      radix = head.radix;
    }) }
    requires rule { ((head.is_prefixed || head.is_octal)
        || keeps_zero_rule format.now (slice_range bytes.now head.start (length bytes.now)))
        ≡ true }
    ensures { IfSome result (λ value. complete format.now T.TYPE bytes.now ≡ Ok (T.number value)) }
{
    let digits = &bytes[head.start..];
    match head.radix {
        10 => value_of_digits::<T>(digits, head.is_negative),
        16 => value_of_nibbles::<T>(digits, head.is_negative),
        radix => value_by_table::<T>(digits, radix, head.is_negative),
    }
}

// Whether separators surely don't stand before each three digits: one is among the last three bytes, or before the last
// four. One before the last three is looked for first, and then the answer is no.
#[inline(always)]
pub(super) fn is_parted_otherwise(bytes: &[u8], separator: u8) -> bool {
    let n = bytes.len();
    if n > 4 {
        if bytes[n - 4] == separator {
            return false;
        }
        if bytes[n - 5] == separator || bytes[n - 3] == separator {
            return true;
        }
    }
    if n < 2 {
        return n == 1 && bytes[0] == separator;
    }
    bytes[n - 1] == separator || bytes[n - 2] == separator
}

// The value of the whole text under a format with a separator, where digits alone stand behind its head, or decimal digits
// with a separator before each three.
#[inline(always)]
fn value_of_parted<T: Integer>(
    bytes: &[u8],
    format: &NumberFormat,
    separator: u8,
    head: Head,
) -> Option<T>
    requires valid { IsNone (fault format.now) }
    requires separator { format.now.digit_separator ≡ Some separator }
    requires some { head.start < length bytes.now }
    requires head { head_of format.now T.TYPE bytes.now ≡ Ok (record {
      is_negative = head.is_negative;
      is_prefixed = head.is_prefixed;
      is_octal = head.is_octal;
      start = head.start;
      radix = head.radix;
    }) }
    requires rule { ((head.is_prefixed || head.is_octal)
        || keeps_zero_rule format.now (slice_range bytes.now head.start (length bytes.now)))
        ≡ true }
    ensures { IfSome result (λ value. complete format.now T.TYPE bytes.now ≡ Ok (T.number value)) }
{
    let digits = &bytes[head.start..];
    if head.radix != 10 {
        // Only digits without separators are read here: those in groups are read from the front, without another try.
        if is_parted_otherwise(bytes, separator) {
            return None;
        }
        return value_behind::<T>(bytes, format, head);
    }
    let n = digits.len();
    if T::BITS < 32 || n <= 4 || digits[n - 4] != separator {
        return value_behind::<T>(bytes, format, head);
    }
    if !format.integer_internal_digit_separator() {
        return None;
    }
    value_of_threes::<T>(digits, format, separator, head.is_negative)
}

// The head of a text whose sign has been read, and is followed by a byte. `None` says nothing of the text: a prefix is
// all that follows, or a zero in front of more bytes, under a format that forbids leading zeros.
#[inline(always)]
fn head_of_digits<T: Integer>(
    bytes: &[u8],
    format: &NumberFormat,
    is_negative: bool,
    start: usize,
) -> Option<Head>
    requires some { start < length bytes.now }
    requires sign { sign format.now T.TYPE bytes.now ≡ Ok (is_negative, start) }
    ensures more { IfSome result (λ head. head.start < length bytes.now) }
    ensures head { IfSome result (λ head. head_of format.now T.TYPE bytes.now ≡ Ok (record {
      is_negative = head.is_negative;
      is_prefixed = head.is_prefixed;
      is_octal = head.is_octal;
      start = head.start;
      radix = head.radix;
    })) }
    ensures rule { IfSome result (λ head. ((head.is_prefixed || head.is_octal)
        || keeps_zero_rule format.now (slice_range bytes.now head.start (length bytes.now)))
        ≡ true) }
{
    if bytes[start] != b'0' {
        return Some(bare_head(format, is_negative, start));
    }
    let head = head_behind_sign::<T>(bytes, format, is_negative, start);
    if bytes.len() <= head.start || !keeps_rule_behind(format, head, &bytes[head.start..]) {
        return None;
    }
    Some(head)
}

// The value of the whole text under a format with punctuation that may be invalid, where digits alone stand behind its head,
// or, where the format has a separator, decimal digits with one before each three.
#[inline(never)]
pub(super) fn value_if_punctuated<T: Integer>(bytes: &[u8], format: &NumberFormat) -> Option<T>
    ensures valid { IfSome result (λ value. IsNone (fault format.now)) }
    ensures answer { IfSome result
        (λ value. complete format.now T.TYPE bytes.now ≡ Ok (T.number value)) }
{
    if !format.is_valid() || format.base_suffix().is_some() {
        return None;
    }
    let Ok((is_negative, start)) = sign_of::<T>(bytes, format) else {
        return None;
    };
    if bytes.len() <= start {
        return None;
    }
    let head = head_of_digits::<T>(bytes, format, is_negative, start)?;
    match format.digit_separator() {
        Some(separator) => value_of_parted::<T>(bytes, format, separator, head),
        None => value_behind::<T>(bytes, format, head),
    }
}
