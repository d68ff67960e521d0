//! The answers to lines that ask for a number.

ghost use Rattle.std.specs.Prelude.{◌≡◌, ◌+◌, ◌≤◌, ◌∷◌, [], ◌++◌, length};
ghost use Rattle.lexical_util.specs.Ascii.{line_feed};
ghost use Rattle.lexical_util.specs.Format.{standard};
ghost use Rattle.lexical_parse_integer.specs.Grammar.{complete, complete_if_valid, partial_if_valid};
ghost use Rattle.answer_lines.specs.Command.{parse_complete, parse_in, parse_partial, type_of};
ghost use Rattle.answer_lines.specs.Number.{Widens};
ghost use Rattle.answer_lines.specs.Output.{command_answer, complete_text, partial_text};

use crate::batch::Batch;
use crate::command::{TypeName, type_and_text};
use crate::number::Number;
use crate::parse::number_of;
use crate::settings::Settings;
use lexical_parse_integer::{FromLexical, FromLexicalWithOptions, NumberFormat, Options};

/// Adds the answer to `c`, a space and the text, and a line feed.
#[inline(always)]
pub fn answer_complete(text: &[u8], settings: &Settings, batch: &mut Batch)
    requires { length batch.old + 128 ≤ 65536 }
    ensures { batch.new ≡ batch.old
        ++ (command_answer settings.now (parse_in parse_complete text.now) ++ line_feed ∷ []) }
{
    match type_and_text(text) {
        None => batch.add_text_line(b"bad line"),
        Some((name, text)) => complete_line(name, text, settings, batch),
    }
}

/// Adds the answer to `p`, a space and the text, and a line feed.
#[inline(always)]
pub fn answer_partial(text: &[u8], settings: &Settings, batch: &mut Batch)
    requires { length batch.old + 128 ≤ 65536 }
    ensures { batch.new ≡ batch.old
        ++ (command_answer settings.now (parse_in parse_partial text.now) ++ line_feed ∷ []) }
{
    match type_and_text(text) {
        None => batch.add_text_line(b"bad line"),
        Some((name, text)) => partial_line(name, text, settings, batch),
    }
}

// The answer to the complete parse of a text as one of the named type, and a line feed.
#[inline(always)]
fn complete_line(name: TypeName, text: &[u8], settings: &Settings, batch: &mut Batch)
    requires { length batch.old + 128 ≤ 65536 }
    ensures { batch.new ≡ batch.old
        ++ (complete_text (complete_if_valid settings.now.format (type_of name) text.now)
        ++ line_feed ∷ []) }
{
    match name {
        TypeName::U8 => complete_line_as::<u8, u128>(text, settings, batch),
        TypeName::U16 => complete_line_as::<u16, u128>(text, settings, batch),
        TypeName::U32 => complete_line_as::<u32, u128>(text, settings, batch),
        TypeName::U64 => complete_line_as::<u64, u128>(text, settings, batch),
        TypeName::U128 => complete_line_as::<u128, u128>(text, settings, batch),
        TypeName::Usize => complete_line_as::<u64, u128>(text, settings, batch),
        TypeName::I8 => complete_line_as::<i8, i128>(text, settings, batch),
        TypeName::I16 => complete_line_as::<i16, i128>(text, settings, batch),
        TypeName::I32 => complete_line_as::<i32, i128>(text, settings, batch),
        TypeName::I64 => complete_line_as::<i64, i128>(text, settings, batch),
        TypeName::I128 => complete_line_as::<i128, i128>(text, settings, batch),
        TypeName::Isize => complete_line_as::<i64, i128>(text, settings, batch),
    }
}

// The answer to the partial parse of a text as one of the named type, and a line feed.
#[inline(always)]
fn partial_line(name: TypeName, text: &[u8], settings: &Settings, batch: &mut Batch)
    requires { length batch.old + 128 ≤ 65536 }
    ensures { batch.new ≡ batch.old
        ++ (partial_text (partial_if_valid settings.now.format (type_of name) text.now)
        ++ line_feed ∷ []) }
{
    let format = settings.format();
    let options = settings.options();
    match name {
        TypeName::U8 => partial_line_as::<u8, u128>(text, format, options, batch),
        TypeName::U16 => partial_line_as::<u16, u128>(text, format, options, batch),
        TypeName::U32 => partial_line_as::<u32, u128>(text, format, options, batch),
        TypeName::U64 => partial_line_as::<u64, u128>(text, format, options, batch),
        TypeName::U128 => partial_line_as::<u128, u128>(text, format, options, batch),
        TypeName::Usize => partial_line_as::<u64, u128>(text, format, options, batch),
        TypeName::I8 => partial_line_as::<i8, i128>(text, format, options, batch),
        TypeName::I16 => partial_line_as::<i16, i128>(text, format, options, batch),
        TypeName::I32 => partial_line_as::<i32, i128>(text, format, options, batch),
        TypeName::I64 => partial_line_as::<i64, i128>(text, format, options, batch),
        TypeName::I128 => partial_line_as::<i128, i128>(text, format, options, batch),
        TypeName::Isize => partial_line_as::<i64, i128>(text, format, options, batch),
    }
}

// The answer to the complete parse of a text as one of type `T`, which `N` holds, and a line feed. Most lines are read
// under the standard format, and their parser knows it.
#[inline(always)]
fn complete_line_as<T, N>(text: &[u8], settings: &Settings, batch: &mut Batch)
where
    T: FromLexical + FromLexicalWithOptions<Options = Options> + Into<N>,
    N: Into<Number>,
    requires widens { Widens T.number T.converts N.converts }
    requires room { length batch.old + 128 ≤ 65536 }
    ensures { batch.new ≡ batch.old
        ++ (complete_text (complete_if_valid settings.now.format T.TYPE text.now)
        ++ line_feed ∷ []) }
{
    if settings.is_standard() {
        return standard_line_as::<T, N>(text, batch);
    }
    line_under_as::<T, N>(text, settings.format(), settings.options(), batch)
}

// The complete answer under the standard format, which the compiler knows here.
#[inline(never)]
fn standard_line_as<T, N>(text: &[u8], batch: &mut Batch)
where
    T: FromLexical + Into<N>,
    N: Into<Number>,
    requires widens { Widens T.number T.converts N.converts }
    requires room { length batch.old + 128 ≤ 65536 }
    ensures { batch.new
        ≡ batch.old ++ (complete_text (complete standard T.TYPE text.now) ++ line_feed ∷ []) }
{
    match T::from_lexical(text) {
        Ok(value) => batch.add_value_line(&number_of::<T, N>(value), None),
        Err(fault) => batch.add_fault_line(fault),
    }
}

// The complete answer under a format that a line has set. Each type has one copy of the parser here, and of the code
// that writes its number, so that no number is passed through memory.
#[inline(never)]
fn line_under_as<T, N>(text: &[u8], format: &NumberFormat, options: &Options, batch: &mut Batch)
where
    T: FromLexicalWithOptions<Options = Options> + Into<N>,
    N: Into<Number>,
    requires widens { Widens T.number T.converts N.converts }
    requires room { length batch.old + 128 ≤ 65536 }
    ensures { batch.new ≡ batch.old
        ++ (complete_text (complete_if_valid format.now T.TYPE text.now) ++ line_feed ∷ []) }
{
    match T::from_lexical_with_options(text, format, options) {
        Ok(value) => batch.add_value_line(&number_of::<T, N>(value), None),
        Err(fault) => batch.add_fault_line(fault),
    }
}

// The answer to the partial parse of a text as one of type `T`, which `N` holds, and a line feed.
#[inline(never)]
fn partial_line_as<T, N>(text: &[u8], format: &NumberFormat, options: &Options, batch: &mut Batch)
where
    T: FromLexicalWithOptions<Options = Options> + Into<N>,
    N: Into<Number>,
    requires widens { Widens T.number T.converts N.converts }
    requires room { length batch.old + 128 ≤ 65536 }
    ensures { batch.new ≡ batch.old
        ++ (partial_text (partial_if_valid format.now T.TYPE text.now) ++ line_feed ∷ []) }
{
    match T::from_lexical_partial_with_options(text, format, options) {
        Ok((value, stop)) => batch.add_value_line(&number_of::<T, N>(value), Some(stop)),
        Err(fault) => batch.add_fault_line(fault),
    }
}
