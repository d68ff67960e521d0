//! The two calls of every type for fixed-point numbers, which the exports of that type make.

ghost use Rattle.std.specs.Prelude.{◌≡◌, IsTrue, None, true};
ghost use Rattle.lexical_fixed.specs.Grammar.{if_fixed};
ghost use Rattle.lexical_fixed.specs.Validity.{fixed_fault};
ghost use Rattle.lexical_util.specs.Kind.{kind_of};
ghost use Rattle.lexical_util.specs.declared.format.kind.FormatKind.TheVariants.{Decimal};
ghost use Rattle.lexical_parse_integer.specs.Answer.{view_of, with_place};
ghost use Rattle.jadvolni.specs.Effect.{effect};
ghost use Rattle.jadvolni.specs.Fixed.{IsPlainFixed, fixed_call, fixed_front_call, fixed_known, fixed_of, fixed_status, front_effect, integer_of, whole_effect};
ghost use Rattle.jadvolni.specs.FormatFields.{are_known};

use crate::calls::UNKNOWN;
use crate::fixed::{FixedFields, fixed_status};
use crate::outcome::Outcome;
use crate::slot::Slot;
use lexical_fixed::FixedFormatError;
use lexical_fixed::quick::{
    callers, complete_if_long, complete_if_not_short, front_at_once, partial_if_left,
    value_if_fewer, value_if_short,
};
use lexical_util::num::Integer;
use lexical_util::result::Result;

// Hands over what a whole text of `size` bytes is, under a valid description.
#[inline(always)]
fn store<T: Integer, S: Slot<T>>(answer: Result<T>, size: usize, value: &mut S) -> Outcome
    ensures { effect result (S.number value.new)
        ≡ whole_effect size (S.number value.old) (if_fixed None (view_of T.number answer)) }
{
    match answer {
        Ok(number) => {
            value.put(number);
            Outcome {
                status: 0,
                place: size,
            }
        }
        Err(error) => Outcome::of_fault(error),
    }
}

// Hands over what a text's front is, under a valid description.
#[inline(always)]
fn give_front<T: Integer, S: Slot<T>>(answer: Result<(T, usize)>, value: &mut S) -> Outcome
    ensures { effect result (S.number value.new)
        ≡ front_effect (S.number value.old) (if_fixed None (view_of (with_place T.number) answer)) }
{
    match answer {
        Ok((number, place)) => {
            value.put(number);
            Outcome { status: 0, place }
        }
        Err(error) => Outcome::of_fault(error),
    }
}

// What an invalid description is to C.
fn refusal(error: FixedFormatError) -> Outcome
    ensures status { result.status ≡ fixed_status error }
    ensures place { result.place ≡ 0 }
{
    Outcome {
        status: fixed_status(error),
        place: 0,
    }
}

// The whole text, under a description that is made field by field.
#[inline(never)]
fn fixed_any<T: Integer, S: Slot<T>>(text: &[u8], fields: &FixedFields, value: &mut S) -> Outcome
    ensures { effect result (S.number value.new)
        ≡ fixed_call fields.now T.TYPE text.now (S.number value.old) }
{
    if !fields.are_known() {
        return UNKNOWN;
    }
    let format = fields.format();
    match format.error() {
        Some(error) => refusal(error),
        None => store(complete_if_not_short::<T>(text, &format), text.len(), value),
    }
}

// The whole text, under a valid description whose integer part is decimal, for a text that isn't read in place.
#[inline(never)]
fn fixed_decimal_left<T: Integer, S: Slot<T>>(
    text: &[u8],
    fields: &FixedFields,
    value: &mut S,
) -> Outcome
    requires kind { kind_of (integer_of fields.now.integer) ≡ Decimal }
    requires known { fixed_known fields.now ≡ true }
    requires valid { fixed_fault (fixed_of fields.now) ≡ None }
    ensures { effect result (S.number value.new)
        ≡ fixed_call fields.now T.TYPE text.now (S.number value.old) }
{
    store(
        complete_if_not_short::<T>(text, &fields.decimal()),
        text.len(),
        value,
    )
}

// The whole text, under a description whose integer part is decimal. Most short ones are read in place.
#[inline(never)]
fn fixed_decimal<T: Integer, S: Slot<T>>(
    text: &[u8],
    fields: &FixedFields,
    value: &mut S,
) -> Outcome
    requires known { IsTrue (are_known fields.now.integer) }
    requires kind { kind_of (integer_of fields.now.integer) ≡ Decimal }
    ensures { effect result (S.number value.new)
        ≡ fixed_call fields.now T.TYPE text.now (S.number value.old) }
{
    if !fields.is_valid_decimal() {
        return fixed_any::<T, S>(text, fields, value);
    }
    match value_if_short::<T, { callers::TEXT }>(text, &fields.decimal()) {
        Some(number) => store(Ok(number), text.len(), value),
        None => fixed_decimal_left::<T, S>(text, fields, value),
    }
}

// The whole text, under a plain description, for a text that isn't short.
#[inline(never)]
fn fixed_long<T: Integer, S: Slot<T>>(text: &[u8], fields: &FixedFields, value: &mut S) -> Outcome
    requires { IsPlainFixed fields.now }
    ensures { effect result (S.number value.new)
        ≡ fixed_call fields.now T.TYPE text.now (S.number value.old) }
{
    store(
        complete_if_long::<T>(text, &fields.standard()),
        text.len(),
        value,
    )
}

// The whole text, under a plain description that takes fewer places. Unlike the longer way, it needs no stack.
#[inline(never)]
fn fixed_fewer<T: Integer, S: Slot<T>>(text: &[u8], fields: &FixedFields, value: &mut S) -> Outcome
    requires { IsPlainFixed fields.now }
    ensures { effect result (S.number value.new)
        ≡ fixed_call fields.now T.TYPE text.now (S.number value.old) }
{
    match value_if_fewer::<T>(text, &fields.standard()) {
        Some(number) => store(Ok(number), text.len(), value),
        None => fixed_long::<T, S>(text, fields, value),
    }
}

// Whether a text may lack places, and is too long to have been read in place, but has at most sixteen bytes behind a
// sign.
#[inline(always)]
fn may_lack_places(text: &[u8], fields: &FixedFields) -> bool {
    fields.takes_fewer != 0 && text.len() > 8 && text.len() <= 17
}

// The whole text, under a plain description, for a text that isn't read in place. Out of line, so that a short text
// doesn't pay for the choice.
#[inline(never)]
fn fixed_plain<T: Integer, S: Slot<T>>(text: &[u8], fields: &FixedFields, value: &mut S) -> Outcome
    requires { IsPlainFixed fields.now }
    ensures { effect result (S.number value.new)
        ≡ fixed_call fields.now T.TYPE text.now (S.number value.old) }
{
    if may_lack_places(text, fields) {
        return fixed_fewer::<T, S>(text, fields, value);
    }
    fixed_long::<T, S>(text, fields, value)
}

/// The whole text, under a description that may be invalid. A short one is read in place where the description is plain.
#[inline(always)]
pub fn fixed<T: Integer, S: Slot<T>>(text: &[u8], fields: &FixedFields, value: &mut S) -> Outcome
    ensures { effect result (S.number value.new)
        ≡ fixed_call fields.now T.TYPE text.now (S.number value.old) }
{
    if fields.is_valid_standard() {
        return match value_if_short::<T, { callers::KNOWN }>(text, &fields.standard()) {
            Some(number) => store(Ok(number), text.len(), value),
            None => fixed_plain::<T, S>(text, fields, value),
        };
    }
    if fields.has_decimal_integer() {
        return fixed_decimal::<T, S>(text, fields, value);
    }
    fixed_any::<T, S>(text, fields, value)
}

// The number in front of the text, under a description that is made field by field.
#[inline(never)]
fn fixed_front_any<T: Integer, S: Slot<T>>(
    text: &[u8],
    fields: &FixedFields,
    value: &mut S,
) -> Outcome
    ensures { effect result (S.number value.new)
        ≡ fixed_front_call fields.now T.TYPE text.now (S.number value.old) }
{
    if !fields.are_known() {
        return UNKNOWN;
    }
    let format = fields.format();
    match format.error() {
        Some(error) => refusal(error),
        None => give_front(partial_if_left::<T>(text, &format), value),
    }
}

// The number in front of the text, under a description whose integer part is decimal. Most are read in place.
#[inline(never)]
fn fixed_front_decimal<T: Integer, S: Slot<T>>(
    text: &[u8],
    fields: &FixedFields,
    value: &mut S,
) -> Outcome
    requires known { IsTrue (are_known fields.now.integer) }
    requires kind { kind_of (integer_of fields.now.integer) ≡ Decimal }
    ensures { effect result (S.number value.new)
        ≡ fixed_front_call fields.now T.TYPE text.now (S.number value.old) }
{
    if !fields.is_valid_decimal() {
        return fixed_front_any::<T, S>(text, fields, value);
    }
    match front_at_once::<T>(text, &fields.decimal()) {
        Some(found) => give_front(Ok(found), value),
        None => fixed_front_any::<T, S>(text, fields, value),
    }
}

// The number in front of the text, under a plain description, where it isn't read at once.
#[inline(never)]
fn fixed_front_plain<T: Integer, S: Slot<T>>(
    text: &[u8],
    fields: &FixedFields,
    value: &mut S,
) -> Outcome
    requires { IsPlainFixed fields.now }
    ensures { effect result (S.number value.new)
        ≡ fixed_front_call fields.now T.TYPE text.now (S.number value.old) }
{
    give_front(partial_if_left::<T>(text, &fields.standard()), value)
}

/// The number in front of the text, under a description that may be invalid. Most are read in place, as by [`fixed`].
#[inline(always)]
pub fn fixed_front<T: Integer, S: Slot<T>>(
    text: &[u8],
    fields: &FixedFields,
    value: &mut S,
) -> Outcome
    ensures { effect result (S.number value.new)
        ≡ fixed_front_call fields.now T.TYPE text.now (S.number value.old) }
{
    if fields.is_valid_standard() {
        return match front_at_once::<T>(text, &fields.standard()) {
            Some(found) => give_front(Ok(found), value),
            None => fixed_front_plain::<T, S>(text, fields, value),
        };
    }
    if fields.has_decimal_integer() {
        return fixed_front_decimal::<T, S>(text, fields, value);
    }
    fixed_front_any::<T, S>(text, fields, value)
}
