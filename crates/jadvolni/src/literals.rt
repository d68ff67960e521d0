//! The calls for a literal with its suffix, as C makes them.

ghost use Rattle.std.specs.Prelude.{◌≡◌};
ghost use Rattle.jadvolni.specs.Halves.{unsigned_number};
ghost use Rattle.jadvolni.specs.Literals.{are_suffixes_known, is_suffix_known, kind_coded, literal_call, literal_effect, place_of_literal, status_of_literal, suffix_view, typed_call, typed_effect};

use crate::calls::UNKNOWN;
use crate::format::FormatFields;
use crate::halves::Unsigned128;
use crate::outcome::{Outcome, status_of};
use lexical_literals::{
    IntegerKind, LiteralError, SuffixEntry, literal_in_front, typed_literal_in_front,
};

/// The literal in front of a text, under a format: the place is behind its suffix, and `suffix` where that begins.
#[unsafe(no_mangle)]
pub extern "C" fn jadvolni_parse_literal(
    text: &[u8],
    format: &FormatFields,
    value: &mut Unsigned128,
    suffix: &mut usize,
) -> Outcome
    ensures { literal_effect result (unsigned_number value.new) suffix.new
        ≡ literal_call format.now text.now (unsigned_number value.old) suffix.old }
{
    if !format.are_known() {
        return UNKNOWN;
    }
    match literal_in_front(text, &format.format()) {
        Ok(literal) => {
            *value = Unsigned128::of(literal.value);
            *suffix = literal.number_stop;
            Outcome {
                status: 0,
                place: literal.stop,
            }
        }
        Err(error) => Outcome::of_fault(error),
    }
}

/// The status of a literal whose suffix no entry of the table has.
pub const UNKNOWN_SUFFIX: u32 = 23;

/// The status of an invalid table of suffixes: no literal can be read with it.
pub const INVALID_SUFFIX_TABLE: u32 = 24;

/// An entry of a table of suffixes: `jadvolni_suffix` in C, where each field is described.
#[repr(C)]
#[derive(Copy, Clone)]
pub struct SuffixFields<'a> {
    pub text: &'a [u8],
    pub code: u32,
    pub reserved: u32,
}

// The kind of integers that has a code.
#[inline(always)]
fn kind_coded(code: u32) -> Option<IntegerKind>
    ensures { result ≡ kind_coded code }
{
    match code {
        1 => Some(IntegerKind::U8),
        2 => Some(IntegerKind::U16),
        3 => Some(IntegerKind::U32),
        4 => Some(IntegerKind::U64),
        5 => Some(IntegerKind::U128),
        6 => Some(IntegerKind::Usize),
        7 => Some(IntegerKind::I8),
        8 => Some(IntegerKind::I16),
        9 => Some(IntegerKind::I32),
        10 => Some(IntegerKind::I64),
        11 => Some(IntegerKind::I128),
        12 => Some(IntegerKind::Isize),
        _ => None,
    }
}

impl SuffixFields<'_> {
    // Whether the entry names a type, and the bytes that are kept for later versions are 0.
    #[inline(always)]
    fn is_known(&self) -> bool
        ensures { result ≡ is_suffix_known self.now }
    {
        kind_coded(self.code).is_some() && self.reserved == 0
    }
}

impl SuffixEntry for SuffixFields<'_> {
    ghost suffix = { suffix_view };

    #[inline(always)]
    fn text(&self) -> &[u8] {
        self.text
    }

    // Never called on an entry without a kind.
    #[inline(always)]
    fn kind(&self) -> IntegerKind {
        kind_coded(self.code).unwrap_or(IntegerKind::U8)
    }
}

// Whether each entry of a table names a type, and has nothing that only a later version knows.
fn are_suffixes_known(table: &[SuffixFields<'_>]) -> bool
    ensures { result ≡ are_suffixes_known table.now }
{
    table.iter().all(|entry| entry.is_known())
}

// What a fault of a literal is to C.
fn outcome_of(error: LiteralError) -> Outcome
    ensures status { result.status ≡ status_of_literal error }
    ensures place { result.place ≡ place_of_literal error }
{
    match error {
        LiteralError::Number(error) => Outcome {
            status: status_of(&error),
            place: error.index().unwrap_or(0),
        },
        LiteralError::UnknownSuffix(place) => Outcome {
            status: UNKNOWN_SUFFIX,
            place,
        },
    }
}

/// The literal in front of a text, under a format and with the type that its suffix names: the place is behind its
/// suffix, `suffix` where that begins, and `entry` which of the table has it.
#[unsafe(no_mangle)]
pub extern "C" fn jadvolni_parse_typed_literal(
    text: &[u8],
    format: &FormatFields,
    table: &[SuffixFields<'_>],
    value: &mut Unsigned128,
    suffix: &mut usize,
    entry: &mut usize,
) -> Outcome
    ensures { typed_effect result (unsigned_number value.new) suffix.new entry.new
        ≡ typed_call format.now table.now text.now
        (unsigned_number value.old) suffix.old entry.old }
{
    if !format.are_known() {
        return UNKNOWN;
    }
    if !are_suffixes_known(table) {
        return Outcome {
            status: INVALID_SUFFIX_TABLE,
            place: 0,
        };
    }
    match typed_literal_in_front(text, &format.format(), table) {
        Ok(literal) => {
            *value = Unsigned128::of(literal.value);
            *suffix = literal.number_stop;
            *entry = literal.entry;
            Outcome {
                status: 0,
                place: literal.stop,
            }
        }
        Err(error) => outcome_of(error),
    }
}
