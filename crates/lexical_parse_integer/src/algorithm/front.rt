// A text read from its front: what stands before the digits, the digits one after another, and what stands behind
// them. Every text has its answer here under every valid format, so whatever a fast path isn't sure of is read here.
ghost use Rattle.std.specs.Prelude.{◌≡◌, ◌≤◌, ◌<◌, ℕ, get_or, ◌&&◌, ◌||◌, ◌==◌, Err, IfErr, IfOk, IfSome, IsNone, Ok, Some, None, is_some, length, nat_lt, true, if◌then◌else◌, ◌+◌};
ghost use Rattle.std.specs.Option.{option_or};
ghost use Rattle.lexical_util.specs.Ascii.{digit_zero};
ghost use Rattle.lexical_util.specs.Validity.{fault};
ghost use Rattle.lexical_util.specs.declared.error.Error.TheVariants.{InvalidLeadingZeros};
ghost use Rattle.lexical_parse_integer.specs.Affixes.{suffix_at};
ghost use Rattle.lexical_parse_integer.specs.Answer.{view_of, with_place};
ghost use Rattle.lexical_parse_integer.specs.CursorView.{IsSound};
ghost use Rattle.lexical_parse_integer.specs.Grammar.{complete, complete_if_valid, digits_required, partial, range_fault, zero_fault};
ghost use Rattle.lexical_parse_integer.specs.Head.{head_of, sign};
ghost use Rattle.lexical_parse_integer.specs.Laws.{completion_of};
ghost use Rattle.lexical_parse_integer.specs.Numeral.{numeral_in};
ghost use Rattle.lexical_parse_integer.specs.Reading.{Reads, ReadsAll, ReadsNumeral, view_at};

use crate::affixes::{octal_zero_at, prefix_radix, suffix_at};
use crate::algorithm::join::join_checked;
use crate::seek::{Found, digit_at, seek};
use lexical_digits::zeros;
use lexical_util::error::Error;
use lexical_util::format::NumberFormat;
use lexical_util::num::Integer;
use lexical_util::result::Result;

// What stands before a numeral: whether there is a minus, whether a prefix or an octal zero stands behind the sign,
// where the numeral starts, and the effective radix there.
#[derive(Clone, Copy)]
pub(crate) struct Head {
    pub(crate) is_negative: bool,
    pub(crate) is_prefixed: bool,
    pub(crate) is_octal: bool,
    pub(crate) start: usize,
    pub(crate) radix: u32,
}

impl Head {
    // Whether the text chooses its radix.
    #[inline(always)]
    pub(crate) fn chooses_radix(self) -> bool
        ensures { result ≡ (self.is_prefixed || self.is_octal) }
    {
        self.is_prefixed | self.is_octal
    }
}

// The digits of a numeral: their value, how many they are, and where the numeral ends.
struct Digits<T> {
    value: T,
    count: usize,
    end: usize,
}

// Whether the text has a minus, and how many bytes its sign has; or the sign's fault.
#[inline(always)]
#[tactic(auto, unfolding(crate::specs::Head::sign))]
pub(super) fn sign_of<T: Integer>(bytes: &[u8], format: &NumberFormat) -> Result<(bool, usize)>
    ensures { result ≡ sign format.now T.TYPE bytes.now }
{
    match bytes.first().copied() {
        Some(b'+') => {
            if format.no_positive_mantissa_sign() {
                return Err(Error::InvalidPositiveSign(0));
            }
            Ok((false, 1))
        }
        Some(b'-') if T::IS_SIGNED => Ok((true, 1)),
        _ => {
            if format.required_mantissa_sign() {
                return Err(Error::MissingSign(0));
            }
            Ok((false, 0))
        }
    }
}

// The head of a text whose sign was read.
#[inline(always)]
pub(super) fn head_behind_sign<T: Integer>(
    bytes: &[u8],
    format: &NumberFormat,
    is_negative: bool,
    start: usize,
) -> Head
    requires { sign format.now T.TYPE bytes.now ≡ Ok (is_negative, start) }
    ensures { head_of format.now T.TYPE bytes.now ≡ Ok (record {
      is_negative = result.is_negative;
      is_prefixed = result.is_prefixed;
      is_octal = result.is_octal;
      start = result.start;
      radix = result.radix;
    }) }
{
    match prefix_radix(bytes, format, start) {
        Some(radix) => Head {
            is_negative,
            is_prefixed: true,
            is_octal: false,
            start: start + 2,
            radix,
        },
        None => {
            let is_octal = octal_zero_at(bytes, format, start);
            let radix = if is_octal { 8 } else { format.mantissa_radix() };
            Head {
                is_negative,
                is_prefixed: false,
                is_octal,
                start,
                radix,
            }
        }
    }
}

// The head of a text, or the fault of its sign.
#[inline(always)]
pub(crate) fn head_of<T: Integer>(bytes: &[u8], format: &NumberFormat) -> Result<Head>
    ensures head { IfOk result (λ head. head_of format.now T.TYPE bytes.now ≡ Ok (record {
      is_negative = head.is_negative;
      is_prefixed = head.is_prefixed;
      is_octal = head.is_octal;
      start = head.start;
      radix = head.radix;
    })) }
    ensures fault { IfErr result (λ error. head_of format.now T.TYPE bytes.now ≡ Err error) }
{
    let (is_negative, start) = sign_of::<T>(bytes, format)?;
    Ok(head_behind_sign::<T>(bytes, format, is_negative, start))
}

// Whether a prefix is all that there is.
#[inline(always)]
fn is_prefix_alone(bytes: &[u8], head: Head) -> bool
    ensures { result ≡ (head.is_prefixed && (head.start == length bytes.now)) }
{
    head.is_prefixed && head.start == bytes.len()
}

// The place of a zero before another digit, where the format forbids it.
#[inline(always)]
fn zero_before_digit(bytes: &[u8], format: &NumberFormat, head: Head) -> Option<usize>
    requires sound { IsSound
        (view_at format.now head.is_prefixed head.radix bytes.now head.start head.start 0) }
    ensures none { IsNone result → zero_fault format.now
        (head.is_prefixed || head.is_octal)
        (numeral_in format.now head.is_prefixed head.radix bytes.now head.start) ≡ None }
    ensures some { IfSome result (λ place. zero_fault format.now
        (head.is_prefixed || head.is_octal)
        (numeral_in format.now head.is_prefixed head.radix bytes.now head.start)
        ≡ Some (InvalidLeadingZeros place)) }
{
    if !format.no_integer_leading_zeros() || head.chooses_radix() {
        return None;
    }
    let Found::Digit(place, digit) = seek(bytes, format, head.radix, head.start, head.start) else {
        return None;
    };
    if digit != 0 {
        return None;
    }
    match seek(bytes, format, head.radix, head.start, place + 1) {
        Found::Digit(_, _) => Some(place),
        Found::End(_) => None,
    }
}

// Reads the digits in a row from where `read` ends, as long as they are so few that no value leaves the type: a step is
// one look-up, with no test of the value or for a separator.
#[inline(always)]
fn read_row<T: Integer>(
    bytes: &[u8],
    format: &NumberFormat,
    head: Head,
    read: Digits<T>,
) -> Digits<T>
    requires first { IsSound
        (view_at format.now head.is_prefixed head.radix bytes.now head.start head.start 0) }
    requires minus { head.is_negative ≡ true → T.TYPE.is_signed ≡ true }
    requires sound { IsSound
        (view_at format.now head.is_prefixed head.radix bytes.now head.start read.end read.count) }
    requires reads { Reads T.TYPE head.is_negative
        (numeral_in format.now head.is_prefixed head.radix bytes.now head.start) read.count
        (T.number read.value) }
    ensures still_sound { IsSound (view_at format.now head.is_prefixed head.radix bytes.now
        head.start result.end result.count) }
    ensures still_reads { Reads T.TYPE head.is_negative
        (numeral_in format.now head.is_prefixed head.radix bytes.now head.start) result.count
        (T.number result.value) }
    ensures forward { read.end ≤ result.end }
{
    let most = T::overflow_digits(head.radix);
    let radix = T::from_u32(head.radix);
    let Digits {
        mut value,
        mut count,
        mut end,
    } = read;
    while count < most {
        let Some(digit) = digit_at(bytes, head.radix, end) else {
            return Digits { value, count, end };
        };
        value = value.mul_add(radix, T::from_u32(digit), head.is_negative);
        count += 1;
        end += 1;
    }
    Digits { value, count, end }
}

// The place behind the zeros that a long numeral begins with: they are passed by words, since there may be many.
#[inline(always)]
fn behind_zeros(bytes: &[u8], start: usize) -> usize
    requires { start ≤ length bytes.now }
    ensures from { start ≤ result }
    ensures within { result ≤ length bytes.now }
    ensures zeros { (k : ℕ) → start ≤ k → k < result → get_or bytes.now k 0 ≡ digit_zero }
{
    if bytes.len() - start > 16 && bytes[start] == b'0' {
        zeros::behind_zeros(bytes, start)
    } else {
        start
    }
}

// All digits of a numeral, or the fault of the first with which their value leaves the type: reads a row of digits and
// the next digit behind it, again and again.
#[inline(always)]
fn read_digits<T: Integer>(bytes: &[u8], format: &NumberFormat, head: Head) -> Result<Digits<T>>
    requires sound { IsSound
        (view_at format.now head.is_prefixed head.radix bytes.now head.start head.start 0) }
    requires minus { head.is_negative ≡ true → T.TYPE.is_signed ≡ true }
    ensures all { IfOk result (λ found. ReadsAll T.TYPE head.is_negative
        (view_at format.now head.is_prefixed head.radix bytes.now head.start head.start 0)
        (view_at format.now head.is_prefixed head.radix bytes.now head.start found.end found.count)
        (T.number found.value)) }
    ensures leaves { IfErr result (λ error. range_fault T.TYPE head.is_negative
        (numeral_in format.now head.is_prefixed head.radix bytes.now head.start) ≡ Some error) }
{
    let end = behind_zeros(bytes, head.start);
    let mut read = Digits {
        value: T::ZERO,
        count: end - head.start,
        end,
    };
    loop {
        let Digits { value, count, end } = read_row::<T>(bytes, format, head, read);
        match seek(bytes, format, head.radix, head.start, end) {
            Found::Digit(place, digit) => {
                read = Digits {
                    value: join_checked::<T>(value, digit, head.radix, place, head.is_negative)?,
                    count: count + 1,
                    end: place + 1,
                };
            }
            Found::End(end) => return Ok(Digits { value, count, end }),
        }
    }
}

// A numeral: the rule on zeros is judged first, since its fault comes before that of the value.
#[inline(always)]
fn read_numeral<T: Integer>(bytes: &[u8], format: &NumberFormat, head: Head) -> Result<Digits<T>>
    requires sound { IsSound
        (view_at format.now head.is_prefixed head.radix bytes.now head.start head.start 0) }
    requires minus { head.is_negative ≡ true → T.TYPE.is_signed ≡ true }
    ensures all { IfOk result (λ found. ReadsNumeral T.TYPE head.is_negative
        (head.is_prefixed || head.is_octal)
        (view_at format.now head.is_prefixed head.radix bytes.now head.start head.start 0)
        (view_at format.now head.is_prefixed head.radix bytes.now head.start found.end found.count)
        (T.number found.value)) }
    ensures fault { IfErr result (λ error. option_or (zero_fault format.now
        (head.is_prefixed || head.is_octal)
        (numeral_in format.now head.is_prefixed head.radix bytes.now head.start))
        (range_fault T.TYPE head.is_negative
        (numeral_in format.now head.is_prefixed head.radix bytes.now head.start)) ≡ Some error) }
{
    if let Some(place) = zero_before_digit(bytes, format, head) {
        return Err(Error::InvalidLeadingZeros(place));
    }
    read_digits::<T>(bytes, format, head)
}

// Where reading stops: behind a suffix at the numeral's end, if the numeral has a digit.
#[inline(always)]
fn stop_behind(bytes: &[u8], format: &NumberFormat, end: usize, count: usize) -> usize
    ensures { result ≡ (if nat_lt 0 count && suffix_at format.now bytes.now end then end + 1
        else end) }
{
    if count > 0 && suffix_at(bytes, format, end) {
        end + 1
    } else {
        end
    }
}

// Whether a numeral without a digit is a fault of the partial parser: a digit is required, and reading stops at the
// text's end or the format has a separator, with flags or without.
#[inline(always)]
fn is_empty_fault(bytes: &[u8], format: &NumberFormat, count: usize, stop: usize) -> bool
    ensures { result ≡ ((digits_required format.now && (count == 0))
        && (is_some format.now.digit_separator || (stop == length bytes.now))) }
{
    format.required_digits()
        && count == 0
        && (format.digit_separator().is_some() || stop == bytes.len())
}

// What the front of a text stands for behind its head, and the place at which reading stops.
#[inline(always)]
fn front_behind<T: Integer>(bytes: &[u8], format: &NumberFormat, head: Head) -> Result<(T, usize)>
    requires valid { IsNone (fault format.now) }
    requires head { head_of format.now T.TYPE bytes.now ≡ Ok (record {
      is_negative = head.is_negative;
      is_prefixed = head.is_prefixed;
      is_octal = head.is_octal;
      start = head.start;
      radix = head.radix;
    }) }
    ensures { view_of (with_place T.number) result ≡ partial format.now T.TYPE bytes.now }
{
    if is_prefix_alone(bytes, head) {
        return Err(Error::Empty(bytes.len()));
    }
    let Digits { value, count, end } = read_numeral::<T>(bytes, format, head)?;
    let stop = stop_behind(bytes, format, end, count);
    if is_empty_fault(bytes, format, count, stop) {
        return Err(Error::Empty(stop));
    }
    Ok((value, stop))
}

/// The integer that the front of the text stands for under a valid format, and the place at which reading stops.
#[inline(always)]
pub(crate) fn partial_from_front<T: Integer>(
    bytes: &[u8],
    format: &NumberFormat,
) -> Result<(T, usize)>
    requires valid { IsNone (fault format.now) }
    ensures { view_of (with_place T.number) result ≡ partial format.now T.TYPE bytes.now }
{
    let head = head_of::<T>(bytes, format)?;
    front_behind::<T>(bytes, format, head)
}

// The answer for a whole text, made from that for its front: what the front stands for, if reading stops at the text's
// end.
#[inline(always)]
fn completion<T: Integer>(bytes: &[u8], front: Result<(T, usize)>) -> Result<T>
    ensures { view_of T.number result
        ≡ completion_of (length bytes.now) (view_of (with_place T.number) front) }
{
    match front {
        Ok((_, place)) if place < bytes.len() => Err(Error::InvalidDigit(place)),
        Ok((value, _)) => Ok(value),
        Err(Error::Empty(place)) if place < bytes.len() => Err(Error::InvalidDigit(place)),
        Err(error) => Err(error),
    }
}

/// The integer that the whole text stands for under a format that may be invalid.
#[inline(never)]
pub(crate) fn complete_from_front<T: Integer>(bytes: &[u8], format: &NumberFormat) -> Result<T>
    ensures { view_of T.number result ≡ complete_if_valid format.now T.TYPE bytes.now }
{
    match format.error() {
        Some(broken) => Err(broken),
        None => completion::<T>(bytes, partial_from_front::<T>(bytes, format)),
    }
}
