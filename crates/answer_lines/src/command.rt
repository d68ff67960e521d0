//! The words of a line.

ghost use Rattle.std.specs.Prelude.{◌≡◌, ◌<◌, length, IfSome, Some, option_map, position};
ghost use Rattle.answer_lines.specs.Command.{change_named, is_space, parts, type_named, type_and_text};

use crate::field::{Change, Field};

/// One of the twelve integer types.
#[derive(Debug, Clone, Copy, PartialEq, Eq)]
pub enum TypeName {
    U8,
    U16,
    U32,
    U64,
    U128,
    Usize,
    I8,
    I16,
    I32,
    I64,
    I128,
    Isize,
}

impl TypeName {
    /// The type of a name, as Rust writes it.
    pub fn of_name(name: &[u8]) -> Option<TypeName>
        ensures { result ≡ type_named name.now }
    {
        match name {
            b"u8" => Some(TypeName::U8),
            b"u16" => Some(TypeName::U16),
            b"u32" => Some(TypeName::U32),
            b"u64" => Some(TypeName::U64),
            b"u128" => Some(TypeName::U128),
            b"usize" => Some(TypeName::Usize),
            b"i8" => Some(TypeName::I8),
            b"i16" => Some(TypeName::I16),
            b"i32" => Some(TypeName::I32),
            b"i64" => Some(TypeName::I64),
            b"i128" => Some(TypeName::I128),
            b"isize" => Some(TypeName::Isize),
            _ => None,
        }
    }
}

// The text cut at its first space.
fn parts(text: &[u8]) -> Option<(&[u8], &[u8])>
    ensures { option_map (λ cut. (cut.0.now, cut.1.now)) result ≡ parts text.now }
{
    match space_in(text) {
        None => None,
        Some(end) => Some((&text[..end], &text[end + 1..])),
    }
}

// The place of the first space.
fn space_in(text: &[u8]) -> Option<usize>
    ensures place { result ≡ position is_space text.now }
    ensures within { IfSome result (λ end. end < length text.now) }
{
    text.iter().position(|b| *b == b' ')
}

/// The integer type that a text names, and what comes after the name and a space.
#[inline(always)]
pub fn type_and_text(text: &[u8]) -> Option<(TypeName, &[u8])>
    ensures { option_map (λ found. (found.0, found.1.now)) result ≡ type_and_text text.now }
{
    match short_type_and_text(text) {
        Some(found) => Some(found),
        None => any_type_and_text(text),
    }
}

// The type and the text behind it where the name has three bytes, as half of them have: the space is at a known place.
#[inline(always)]
fn short_type_and_text(text: &[u8]) -> Option<(TypeName, &[u8])>
    ensures { IfSome result (λ found.
        type_and_text text.now ≡ Some (found.0, found.1.now)) }
{
    match text {
        [b'u', b'1', b'6', b' ', rest @ ..] => Some((TypeName::U16, rest)),
        [b'u', b'3', b'2', b' ', rest @ ..] => Some((TypeName::U32, rest)),
        [b'u', b'6', b'4', b' ', rest @ ..] => Some((TypeName::U64, rest)),
        [b'i', b'1', b'6', b' ', rest @ ..] => Some((TypeName::I16, rest)),
        [b'i', b'3', b'2', b' ', rest @ ..] => Some((TypeName::I32, rest)),
        [b'i', b'6', b'4', b' ', rest @ ..] => Some((TypeName::I64, rest)),
        _ => None,
    }
}

// The type and the text behind it for a name of any length: out of line, since short names are read in place.
#[inline(never)]
fn any_type_and_text(text: &[u8]) -> Option<(TypeName, &[u8])>
    ensures { option_map (λ found. (found.0, found.1.now)) result ≡ type_and_text text.now }
{
    let (name, text) = parts(text)?;
    Some((TypeName::of_name(name)?, text))
}

/// The change that the text asks for: a field's name, a space, and its new value.
pub fn change_in(text: &[u8]) -> Option<Change>
    ensures { result ≡ change_named text.now }
{
    let (name, value) = parts(text)?;
    Field::of_name(name)?.change(value)
}
