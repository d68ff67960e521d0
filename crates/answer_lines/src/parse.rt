//! Texts as numbers of the type that a line names.

ghost use Rattle.std.specs.Prelude.{◌≡◌};
ghost use Rattle.lexical_parse_integer.specs.Grammar.{complete_if_valid};
ghost use Rattle.answer_lines.specs.Command.{type_of};
ghost use Rattle.answer_lines.specs.Number.{Widens};

use crate::command::TypeName;
use crate::number::Number;
use lexical_parse_integer::{FromLexicalWithOptions, NumberFormat, Options, Result};
use lexical_util::num::Integer;

/// The value as a number, converted through the widest type, signed or unsigned as its own is.
#[inline(always)]
pub fn number_of<T: Integer + Into<W>, W: Into<Number>>(value: T) -> Number
    requires widens { Widens T.number T.converts W.converts }
    ensures { result ≡ T.number value }
{
    let wide: W = value.into();
    wide.into()
}

// The number that the whole text stands for as one of type `T`, which `W` holds. Each type has one copy of
// the parser in here, rather than one in each arm of a `match`.
#[inline(never)]
fn complete_as<T, W>(text: &[u8], format: &NumberFormat, options: &Options) -> Result<Number>
where
    T: FromLexicalWithOptions<Options = Options> + Into<W>,
    W: Into<Number>,
    requires widens { Widens T.number T.converts W.converts }
    ensures { result ≡ complete_if_valid format.now T.TYPE text.now }
{
    let value = T::from_lexical_with_options(text, format, options)?;
    Ok(number_of::<T, W>(value))
}

/// The number that the whole text stands for as one of the named type. `usize` and `isize` are 64 bits wide, and read
/// as `u64` and `i64`.
pub fn complete(
    name: TypeName,
    text: &[u8],
    format: &NumberFormat,
    options: &Options,
) -> Result<Number>
    ensures { result ≡ complete_if_valid format.now (type_of name) text.now }
{
    match name {
        TypeName::U8 => complete_as::<u8, u128>(text, format, options),
        TypeName::U16 => complete_as::<u16, u128>(text, format, options),
        TypeName::U32 => complete_as::<u32, u128>(text, format, options),
        TypeName::U64 => complete_as::<u64, u128>(text, format, options),
        TypeName::U128 => complete_as::<u128, u128>(text, format, options),
        TypeName::Usize => complete_as::<u64, u128>(text, format, options),
        TypeName::I8 => complete_as::<i8, i128>(text, format, options),
        TypeName::I16 => complete_as::<i16, i128>(text, format, options),
        TypeName::I32 => complete_as::<i32, i128>(text, format, options),
        TypeName::I64 => complete_as::<i64, i128>(text, format, options),
        TypeName::I128 => complete_as::<i128, i128>(text, format, options),
        TypeName::Isize => complete_as::<i64, i128>(text, format, options),
    }
}
