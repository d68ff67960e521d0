// Literals whose suffix names their type.
ghost use Rattle.std.specs.Prelude.{◌≡◌, ◌+◌, ◌≤◌, IfErr, IfOk, IsNone, IsTrue, Err, Ok, false, length, map, pos};
ghost use Rattle.std.specs.Result.{IsErr};
ghost use Rattle.lexical_util.specs.Number.{IsNumber, integer_type, is_number};
ghost use Rattle.lexical_util.specs.Validity.{fault};
ghost use Rattle.lexical_parse_integer.specs.Answer.{view_of};
ghost use Rattle.lexical_parse_integer.specs.Fronts.{number_in_front_if_valid};
ghost use Rattle.lexical_parse_integer.specs.Head.{Head, head_of};
ghost use Rattle.lexical_parse_integer.specs.Numeral.{numeral_behind};
ghost use Rattle.lexical_literals.specs.TypedLiterals.{IsFront, StandsAtEnd, StandsBehindHead, number_stop_if_valid, suffix_at, type_of, typed_literal_if_valid, wide_number};

use crate::bytes::word_length;
use crate::groups::has_digit;
use crate::suffixes::{IntegerKind, SuffixEntry, entry_of};
use lexical_parse_integer::algorithm::parse_sign;
use lexical_parse_integer::cursor::Cursor;
use lexical_parse_integer::laws::grammar::front_end;
use lexical_parse_integer::{
    Error, FromLexicalWithOptions, NumberFormat, Options, number_in_front,
};

/// A literal that a text begins with, whose suffix names its type. Its suffix is the text from `number_stop` to before
/// `stop`, and empty where the two are one. Places count the text's bytes from 0.
#[derive(Debug, PartialEq, Eq, Copy, Clone)]
pub struct TypedLiteral {
    /// The value of its number, which is one of `kind`. No literal is below 0.
    pub value: u128,
    /// The kind of integers that its suffix names.
    pub kind: IntegerKind,
    /// Which entry of the table has its suffix: the first such, counted from 0.
    pub entry: usize,
    /// The place behind its number, at which its suffix begins.
    pub number_stop: usize,
    /// The place behind its suffix.
    pub stop: usize,
}

/// Why a text doesn't begin with a literal of a table. Places count the text's bytes from 0.
#[derive(Debug, PartialEq, Eq, Copy, Clone)]
pub enum LiteralError {
    /// The number's fault, which has its place, or the format's, which has none. `InvalidDigit` is at a decimal digit
    /// directly behind the number that isn't one of its radix.
    Number(Error),
    /// No entry of the table has the suffix, which begins at this place.
    UnknownSuffix(usize),
}

// The number in front of a text: its value, where 128 bits have room for it, and the place where it stops.
#[derive(Copy, Clone)]
pub(crate) struct Front {
    value: Option<u128>,
    stop: usize,
}

// Reads what stands before the digits of a number, and returns whether its sign is allowed.
#[inline(always)]
fn read_head(cursor: &mut Cursor<'_>) -> bool
    requires start { cursor.old.start ≡ 0 }
    requires position { cursor.old.position ≡ 0 }
    requires digits { cursor.old.digits ≡ 0 }
    requires bare { cursor.old.is_prefixed ≡ false }
    requires is_open { cursor.old.closed ≡ false }
    requires radix { cursor.old.radix ≡ cursor.old.format.mantissa_radix }
    ensures behind { IsTrue result
        → StandsBehindHead cursor.old.format cursor.old.bytes cursor.new }
    ensures fault { result ≡ false
        → IsErr (head_of cursor.old.format (integer_type 128 false) cursor.old.bytes) }
{
    if parse_sign::<u128>(cursor).is_err() {
        return false;
    }
    if cursor.read_prefix() {
        return true;
    }
    cursor.read_octal_zero();
    true
}

// Reads all digits of a number.
#[inline(always)]
fn read_digits(cursor: &mut Cursor<'_>)
    requires is_open { cursor.old.closed ≡ false }
    ensures end { StandsAtEnd cursor.old cursor.new }
{
    while let Some(_) = cursor.next_digit() {}
}

// Where the number in front of a text stops, if a number stands there, whatever its size.
#[inline(never)]
fn stop_of_number(text: &[u8], format: &NumberFormat) -> usize
    requires valid { IsNone (fault format.now) }
    ensures stop { (head : Head) → head_of format.now (integer_type 128 false) text.now ≡ Ok head
        → result ≡ (numeral_behind format.now text.now head).stop }
    ensures within { result ≤ length text.now }
{
    let mut cursor = Cursor::new(text, format);
    if !read_head(&mut cursor) {
        return 0;
    }
    read_digits(&mut cursor);
    cursor.read_suffix();
    cursor.cursor()
}

// The number in front of a text, if its fault as a `u128` is only that it is too great. Any other fault is returned.
#[inline(never)]
fn front_at_fault(text: &[u8], format: &NumberFormat, error: Error) -> Result<Front, Error>
    requires { Err error ≡ wide_number format.now text.now }
    ensures front { IfOk result (IsFront format.now text.now) }
    ensures fault { IfErr result (λ error. number_stop_if_valid format.now text.now ≡ Err error) }
{
    match error {
        Error::Overflow(_) => Ok(Front {
            value: None,
            stop: stop_of_number(text, format),
        }),
        _ => Err(error),
    }
}

// The number in front of a text, or its fault.
#[inline(always)]
fn front_of(text: &[u8], format: &NumberFormat) -> Result<Front, Error>
    ensures front { IfOk result (IsFront format.now text.now) }
    ensures fault { IfErr result (λ error. number_stop_if_valid format.now text.now ≡ Err error) }
{
    // The law by which a number ends within the text.
    front_end();
    match number_in_front::<u128>(text, format) {
        Ok((value, stop)) => Ok(Front {
            value: Some(value),
            stop,
        }),
        Err(error) => front_at_fault(text, format, error),
    }
}

// Whether a value is one of a kind.
#[inline(always)]
fn is_of_kind(value: u128, kind: IntegerKind) -> bool
    ensures { result ≡ is_number (type_of kind) (pos value) }
{
    match kind {
        IntegerKind::U8 => value <= u8::MAX as u128,
        IntegerKind::U16 => value <= u16::MAX as u128,
        IntegerKind::U32 => value <= u32::MAX as u128,
        IntegerKind::U64 | IntegerKind::Usize => value <= u64::MAX as u128,
        IntegerKind::U128 => true,
        IntegerKind::I8 => value <= i8::MAX as u128,
        IntegerKind::I16 => value <= i16::MAX as u128,
        IntegerKind::I32 => value <= i32::MAX as u128,
        IntegerKind::I64 | IntegerKind::Isize => value <= i64::MAX as u128,
        IntegerKind::I128 => value <= i128::MAX as u128,
    }
}

// The fault of the number in front of a text as an integer of a type, which has no room for it.
#[inline(never)]
fn fault_in_type<T: FromLexicalWithOptions<Options = Options>>(
    text: &[u8],
    format: &NumberFormat,
) -> Error
    requires { IsErr (number_in_front_if_valid format.now T.TYPE text.now) }
    ensures { number_in_front_if_valid format.now T.TYPE text.now ≡ Err result }
{
    match number_in_front::<T>(text, format) {
        Ok(_) => unreachable!(),
        Err(error) => error,
    }
}

// The fault of the number in front of a text as an integer of a kind, which has no room for it.
#[inline(never)]
fn fault_in_kind(text: &[u8], format: &NumberFormat, kind: IntegerKind) -> Error
    requires { IsErr (number_in_front_if_valid format.now (type_of kind) text.now) }
    ensures { number_in_front_if_valid format.now (type_of kind) text.now ≡ Err result }
{
    match kind {
        IntegerKind::U8 => fault_in_type::<u8>(text, format),
        IntegerKind::U16 => fault_in_type::<u16>(text, format),
        IntegerKind::U32 => fault_in_type::<u32>(text, format),
        IntegerKind::U64 | IntegerKind::Usize => fault_in_type::<u64>(text, format),
        IntegerKind::U128 => fault_in_type::<u128>(text, format),
        IntegerKind::I8 => fault_in_type::<i8>(text, format),
        IntegerKind::I16 => fault_in_type::<i16>(text, format),
        IntegerKind::I32 => fault_in_type::<i32>(text, format),
        IntegerKind::I64 | IntegerKind::Isize => fault_in_type::<i64>(text, format),
        IntegerKind::I128 => fault_in_type::<i128>(text, format),
    }
}

// The value of the number in front of a text as an integer of a kind, or its fault.
#[inline(always)]
fn value_as(
    text: &[u8],
    format: &NumberFormat,
    front: &Front,
    kind: IntegerKind,
) -> Result<u128, Error>
    requires { IsFront format.now text.now front.now }
    ensures { view_of (λ value. (pos value, front.now.stop)) result
        ≡ number_in_front_if_valid format.now (type_of kind) text.now }
{
    if let Some(value) = front.value {
        if is_of_kind(value, kind) {
            return Ok(value);
        }
    }
    Err(fault_in_kind(text, format, kind))
}

// The suffix that stands behind a number.
#[inline(always)]
fn suffix_at(text: &[u8], stop: usize) -> &[u8]
    requires { stop ≤ length text.now }
    ensures suffix { result.now ≡ suffix_at text.now stop }
    ensures within { stop + length result.now ≤ length text.now }
{
    let (_, behind) = text.split_at(stop);
    let (suffix, _) = behind.split_at(word_length(behind));
    suffix
}

/// The literal that a text begins with, whose suffix names its type: the number in front of it under a format, and the
/// suffix, which is all ASCII letters, `0` to `9` and `_` that follow, as [`literal_in_front`] reads them.
///
/// Under `rust` of `lexical_formats`, with the entries `u8` and `i64`, `1_000i64;` is 1000 as `I64` by entry 1, its
/// number ends at 5, and its suffix at 8. The first of these faults that applies is the answer:
///
/// 1. `Number`, with the fault of the number in front, whatever its size: `Empty` where no digit stands;
/// 2. `Number(InvalidDigit)`, where a decimal digit stands directly behind the number: `0b102` has one at 4;
/// 3. `UnknownSuffix`, where the suffix is in no entry of the table: `12abc` has one at 2, and `12` too, if no entry has
///    the empty suffix;
/// 4. `Number(Overflow)`, where the number is greater than the greatest of its kind, at the digit with which it passes
///    that: 2 in `300u8`, and in `128i8`.
///
/// A suffix is matched byte for byte, and of two entries with one suffix the first is taken. A literal has no sign but
/// a `+` that the format allows, so `-5` is `Number(Empty(0))`. If a minus in front of a literal widens its range, as
/// in `-128i8`, let the entry name the unsigned kind, and check the range once the sign is known.
pub fn typed_literal_in_front<S: SuffixEntry>(
    text: &[u8],
    format: &NumberFormat,
    table: &[S],
) -> Result<TypedLiteral, LiteralError>
    ensures literal { result
        ≡ typed_literal_if_valid format.now (map S.suffix table.now) text.now }
    ensures order { IfOk result (λ found. found.number_stop ≤ found.stop) }
    ensures within { IfOk result (λ found. found.stop ≤ length text.now) }
    ensures range { IfOk result (λ found. IsNumber (type_of found.kind) (pos found.value)) }
{
    let front = match front_of(text, format) {
        Ok(front) => front,
        Err(error) => return Err(LiteralError::Number(error)),
    };
    if has_digit(text, 10, front.stop) {
        return Err(LiteralError::Number(Error::InvalidDigit(front.stop)));
    }
    let suffix = suffix_at(text, front.stop);
    let Some((entry, kind)) = entry_of(suffix, table) else {
        return Err(LiteralError::UnknownSuffix(front.stop));
    };
    match value_as(text, format, &front, kind) {
        Ok(value) => Ok(TypedLiteral {
            value,
            kind,
            entry,
            number_stop: front.stop,
            stop: front.stop + suffix.len(),
        }),
        Err(error) => Err(LiteralError::Number(error)),
    }
}
