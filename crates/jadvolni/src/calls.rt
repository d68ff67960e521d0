//! The six calls of every type, which the exports of that type make.

ghost use Rattle.std.specs.Prelude.{◌≡◌, IsTrue};
ghost use Rattle.lexical_parse_integer.specs.Answer.{with_place, view_of};
ghost use Rattle.lexical_util.specs.Format.{standard};
ghost use Rattle.lexical_util.specs.Kind.{kind_of};
ghost use Rattle.lexical_util.specs.declared.format.kind.FormatKind.TheVariants.{Decimal, Other};
ghost use Rattle.jadvolni.specs.Effect.{effect, complete_effect, partial_effect};
ghost use Rattle.jadvolni.specs.Effect.{complete_call, complete_call_under, partial_call, partial_call_under};
ghost use Rattle.jadvolni.specs.Effect.{front_call, front_call_under};
ghost use Rattle.jadvolni.specs.FormatFields.{are_known, format_of};

use crate::format::FormatFields;
use crate::outcome::{Outcome, UNKNOWN_FIELD};
use crate::slot::Slot;
use lexical_parse_integer::quick::{
    complete_if_valid, complete_standard_by_length, front_if_plain, value_if_short,
};
use lexical_parse_integer::{
    FromLexical, FromLexicalWithOptions, NumberFormatBuilder, Options, Result, format,
    number_in_front, options,
};
use lexical_util::num::Integer;

// Hands over a complete answer of a text of `size` bytes.
#[inline(always)]
fn store<T: Integer, S: Slot<T>>(answer: Result<T>, size: usize, value: &mut S) -> Outcome
    ensures { effect result (S.number value.new)
        ≡ complete_effect size (S.number value.old) (view_of T.number answer) }
{
    match answer {
        Ok(number) => {
            value.put(number);
            Outcome {
                status: 0,
                place: size,
            }
        }
        Err(error) => Outcome::of_fault(error),
    }
}

// Hands over a partial answer.
#[inline(always)]
fn give_front<T: Integer, S: Slot<T>>(answer: Result<(T, usize)>, value: &mut S) -> Outcome
    ensures { effect result (S.number value.new)
        ≡ partial_effect (S.number value.old) (view_of (with_place T.number) answer) }
{
    match answer {
        Ok((number, place)) => {
            value.put(number);
            Outcome { status: 0, place }
        }
        Err(error) => Outcome::of_fault(error),
    }
}

// The whole text, under the standard format, by one call for what isn't short.
#[inline(never)]
fn complete_any<T: FromLexical, S: Slot<T>>(text: &[u8], value: &mut S) -> Outcome
    ensures { effect result (S.number value.new)
        ≡ complete_call T.TYPE text.now (S.number value.old) }
{
    store(complete_standard_by_length::<T>(text), text.len(), value)
}

/// The whole text, under the standard format. A short one is read in place, so that an exported call has nothing to
/// save.
#[inline(always)]
pub fn complete<T: FromLexical, S: Slot<T>>(text: &[u8], value: &mut S) -> Outcome
    ensures { effect result (S.number value.new)
        ≡ complete_call T.TYPE text.now (S.number value.old) }
{
    match value_if_short::<T>(text, &format::STANDARD) {
        Some(number) => store(Ok(number), text.len(), value),
        None => complete_any::<T, S>(text, value),
    }
}

/// The text's front, under the standard format.
#[inline(always)]
pub fn partial<T: FromLexical, S: Slot<T>>(text: &[u8], value: &mut S) -> Outcome
    ensures { effect result (S.number value.new)
        ≡ partial_call T.TYPE text.now (S.number value.old) }
{
    give_front(T::from_lexical_partial(text), value)
}

// What a format with an unknown field is to C.
pub(crate) const UNKNOWN: Outcome = Outcome {
    status: UNKNOWN_FIELD,
    place: 0,
};

// The whole text, under a decimal format without punctuation, where it isn't short digits.
#[inline(never)]
fn complete_of_decimal<T: FromLexicalWithOptions<Options = Options>, S: Slot<T>>(
    text: &[u8],
    fields: &FormatFields,
    value: &mut S,
) -> Outcome
    requires known { IsTrue (are_known fields.now) }
    requires kind { kind_of (format_of fields.now) ≡ Decimal }
    ensures { effect result (S.number value.new)
        ≡ complete_call_under fields.now T.TYPE text.now (S.number value.old) }
{
    if fields.is_standard() {
        return complete_any::<T, S>(text, value);
    }
    store(
        complete_if_valid::<T>(text, &fields.decimal_format()),
        text.len(),
        value,
    )
}

// The whole text, under a format with punctuation.
#[inline(never)]
fn complete_of_other<T: FromLexicalWithOptions<Options = Options>, S: Slot<T>>(
    text: &[u8],
    fields: &FormatFields,
    value: &mut S,
) -> Outcome
    requires known { IsTrue (are_known fields.now) }
    requires kind { kind_of (format_of fields.now) ≡ Other }
    ensures { effect result (S.number value.new)
        ≡ complete_call_under fields.now T.TYPE text.now (S.number value.old) }
{
    let answer = complete_if_valid::<T>(text, &fields.other_format());
    store(answer, text.len(), value)
}

// The whole text, under any format: a rare one, whose kind has to be found.
#[inline(never)]
fn complete_of_rare<T: FromLexicalWithOptions<Options = Options>, S: Slot<T>>(
    text: &[u8],
    fields: &FormatFields,
    value: &mut S,
) -> Outcome
    requires known { IsTrue (are_known fields.now) }
    ensures { effect result (S.number value.new)
        ≡ complete_call_under fields.now T.TYPE text.now (S.number value.old) }
{
    let answer = complete_if_valid::<T>(text, &fields.rare_format());
    store(answer, text.len(), value)
}

// The whole text, under a format with punctuation, or with a rule of its own.
#[inline(never)]
fn complete_under_any<T: FromLexicalWithOptions<Options = Options>, S: Slot<T>>(
    text: &[u8],
    fields: &FormatFields,
    value: &mut S,
) -> Outcome
    ensures { effect result (S.number value.new)
        ≡ complete_call_under fields.now T.TYPE text.now (S.number value.old) }
{
    if !fields.are_known() {
        return UNKNOWN;
    }
    if fields.is_surely_other() {
        return complete_of_other::<T, S>(text, fields, value);
    }
    complete_of_rare::<T, S>(text, fields, value)
}

// The whole text, under a format that is standard but for its radix.
#[inline(never)]
fn complete_in_radix<T: FromLexicalWithOptions<Options = Options>, S: Slot<T>>(
    text: &[u8],
    fields: &FormatFields,
    value: &mut S,
) -> Outcome
    requires known { IsTrue (are_known fields.now) }
    requires format { format_of fields.now
        ≡ record standard { mantissa_radix = fields.now.mantissa_radix } }
    ensures { effect result (S.number value.new)
        ≡ complete_call_under fields.now T.TYPE text.now (S.number value.old) }
{
    let format = NumberFormatBuilder::from_radix(fields.mantissa_radix);
    let answer = T::from_lexical_with_options(text, &format, &options::STANDARD);
    store(answer, text.len(), value)
}

/// The whole text, under a format that may be invalid. A short one is read in place where the format is decimal and has
/// no punctuation: only the fields that decide this are looked at, and no format is built field by field.
#[inline(always)]
pub fn complete_under<T: FromLexicalWithOptions<Options = Options>, S: Slot<T>>(
    text: &[u8],
    fields: &FormatFields,
    value: &mut S,
) -> Outcome
    ensures { effect result (S.number value.new)
        ≡ complete_call_under fields.now T.TYPE text.now (S.number value.old) }
{
    if fields.is_plain_decimal() {
        return match value_if_short::<T>(text, &fields.decimal_format()) {
            Some(number) => store(Ok(number), text.len(), value),
            None => complete_of_decimal::<T, S>(text, fields, value),
        };
    }
    if fields.mantissa_radix != 10 && fields.is_standard_but_radix() {
        return complete_in_radix::<T, S>(text, fields, value);
    }
    complete_under_any::<T, S>(text, fields, value)
}

// The text's front, under a format that is made field by field.
#[inline(never)]
fn partial_under_any<T: FromLexicalWithOptions<Options = Options>, S: Slot<T>>(
    text: &[u8],
    fields: &FormatFields,
    value: &mut S,
) -> Outcome
    ensures { effect result (S.number value.new)
        ≡ partial_call_under fields.now T.TYPE text.now (S.number value.old) }
{
    if !fields.are_known() {
        return UNKNOWN;
    }
    let answer = T::from_lexical_partial_with_options(text, &fields.format(), &options::STANDARD);
    give_front(answer, value)
}

/// The text's front, under a format that may be invalid. Decimal digits are read in place, as by [`complete_under`].
#[inline(always)]
pub fn partial_under<T: FromLexicalWithOptions<Options = Options>, S: Slot<T>>(
    text: &[u8],
    fields: &FormatFields,
    value: &mut S,
) -> Outcome
    ensures { effect result (S.number value.new)
        ≡ partial_call_under fields.now T.TYPE text.now (S.number value.old) }
{
    if fields.is_plain_decimal() {
        if let Some(found) = front_if_plain::<T>(text, &fields.decimal_format()) {
            return give_front(Ok(found), value);
        }
    }
    if !fields.is_standard_but_radix() {
        return partial_under_any::<T, S>(text, fields, value);
    }
    let format = NumberFormatBuilder::from_radix(fields.mantissa_radix);
    let answer = T::from_lexical_partial_with_options(text, &format, &options::STANDARD);
    give_front(answer, value)
}

/// The number in front of the text, under the standard format.
#[inline(always)]
pub fn front<T: FromLexicalWithOptions<Options = Options>, S: Slot<T>>(
    text: &[u8],
    value: &mut S,
) -> Outcome
    ensures { effect result (S.number value.new)
        ≡ front_call T.TYPE text.now (S.number value.old) }
{
    give_front(number_in_front::<T>(text, &format::STANDARD), value)
}

// The number in front of the text, under a decimal format without punctuation.
#[inline(never)]
fn front_of_decimal<T: FromLexicalWithOptions<Options = Options>, S: Slot<T>>(
    text: &[u8],
    fields: &FormatFields,
    value: &mut S,
) -> Outcome
    requires known { IsTrue (are_known fields.now) }
    requires kind { kind_of (format_of fields.now) ≡ Decimal }
    ensures { effect result (S.number value.new)
        ≡ front_call_under fields.now T.TYPE text.now (S.number value.old) }
{
    give_front(number_in_front::<T>(text, &fields.decimal_format()), value)
}

// The number in front of the text, under a format with punctuation.
#[inline(never)]
fn front_of_other<T: FromLexicalWithOptions<Options = Options>, S: Slot<T>>(
    text: &[u8],
    fields: &FormatFields,
    value: &mut S,
) -> Outcome
    requires known { IsTrue (are_known fields.now) }
    requires kind { kind_of (format_of fields.now) ≡ Other }
    ensures { effect result (S.number value.new)
        ≡ front_call_under fields.now T.TYPE text.now (S.number value.old) }
{
    give_front(number_in_front::<T>(text, &fields.other_format()), value)
}

// The number in front of the text, under a format that is standard but for its radix.
#[inline(never)]
fn front_in_radix<T: FromLexicalWithOptions<Options = Options>, S: Slot<T>>(
    text: &[u8],
    fields: &FormatFields,
    value: &mut S,
) -> Outcome
    requires known { IsTrue (are_known fields.now) }
    requires format { format_of fields.now
        ≡ record standard { mantissa_radix = fields.now.mantissa_radix } }
    ensures { effect result (S.number value.new)
        ≡ front_call_under fields.now T.TYPE text.now (S.number value.old) }
{
    let format = NumberFormatBuilder::from_radix(fields.mantissa_radix);
    give_front(number_in_front::<T>(text, &format), value)
}

// The number in front of the text, under any format: a rare one, whose kind has to be found.
#[inline(never)]
fn front_of_rare<T: FromLexicalWithOptions<Options = Options>, S: Slot<T>>(
    text: &[u8],
    fields: &FormatFields,
    value: &mut S,
) -> Outcome
    requires known { IsTrue (are_known fields.now) }
    ensures { effect result (S.number value.new)
        ≡ front_call_under fields.now T.TYPE text.now (S.number value.old) }
{
    give_front(number_in_front::<T>(text, &fields.rare_format()), value)
}

// The number in front of the text, under a format with punctuation, or with a rule of its own.
#[inline(never)]
fn front_under_any<T: FromLexicalWithOptions<Options = Options>, S: Slot<T>>(
    text: &[u8],
    fields: &FormatFields,
    value: &mut S,
) -> Outcome
    ensures { effect result (S.number value.new)
        ≡ front_call_under fields.now T.TYPE text.now (S.number value.old) }
{
    if !fields.are_known() {
        return UNKNOWN;
    }
    if fields.is_surely_other() {
        return front_of_other::<T, S>(text, fields, value);
    }
    front_of_rare::<T, S>(text, fields, value)
}

/// The number in front of the text, under a format that may be invalid.
#[inline(always)]
pub fn front_under<T: FromLexicalWithOptions<Options = Options>, S: Slot<T>>(
    text: &[u8],
    fields: &FormatFields,
    value: &mut S,
) -> Outcome
    ensures { effect result (S.number value.new)
        ≡ front_call_under fields.now T.TYPE text.now (S.number value.old) }
{
    if fields.is_plain_decimal() {
        return front_of_decimal::<T, S>(text, fields, value);
    }
    if fields.mantissa_radix != 10 && fields.is_standard_but_radix() {
        return front_in_radix::<T, S>(text, fields, value);
    }
    front_under_any::<T, S>(text, fields, value)
}
