//! What the arguments ask for.

ghost use Rattle.std.specs.Prelude.{◌≡◌, map, option_map};
ghost use Rattle.jad.specs.Question.{asked_by, format_by_radix, format_told, if_dashes, question_about};

use answer_lines::TypeName;
use lexical_formats::named;
use lexical_parse_integer::{FromLexical, NumberFormat, NumberFormatBuilder};
use lexical_util::format::STANDARD;
use std::marker::Model;

/// A text, the type that it is read as, and the format that it is read under.
#[derive(Drop)]
pub struct Question<'a> {
    pub name: TypeName,
    pub format: NumberFormat,
    pub text: &'a [u8],
}

impl<'a> Model for Question<'a> {
    ghost use Rattle.jad.specs.Question.{Question};

    ghost Value = { Question };

    ghost view = { λ q. record { type = q.name; format = q.format; text = q.text.now } };
}

// The standard format in the radix that a text names.
fn format_by_radix(text: &[u8]) -> Option<NumberFormat>
    ensures { result ≡ format_by_radix text.now }
{
    let radix = u8::from_lexical(text).ok()?;
    let format = NumberFormatBuilder::from_radix(radix);
    match format.error() {
        Some(_) => None,
        None => Some(format),
    }
}

// The format that an option and its value name.
fn format_told(option: &[u8], value: &[u8]) -> Option<NumberFormat>
    ensures { result ≡ format_told option.now value.now }
{
    if option == b"--format".as_slice() {
        return named(value);
    }
    if option == b"--radix".as_slice() {
        return format_by_radix(value);
    }
    None
}

// The question after a type's name and a format, where both are there.
fn question_about<'a>(
    name: &[u8],
    format: Option<NumberFormat>,
    text: &'a [u8],
) -> Option<Question<'a>>
    ensures { result ≡ question_about name.now format text.now }
{
    let name = TypeName::of_name(name)?;
    let format = format?;
    Some(Question { name, format, text })
}

// The question where `--`, which only marks that the text follows, comes before the text.
fn question_behind<'a>(
    dashes: &[u8],
    name: &[u8],
    format: Option<NumberFormat>,
    text: &'a [u8],
) -> Option<Question<'a>>
    ensures { result ≡ if_dashes dashes.now (question_about name.now format text.now) }
{
    if dashes == b"--".as_slice() {
        return question_about(name, format, text);
    }
    None
}

/// What the arguments ask for. The first is the type, and the last the text, whatever it looks like.
pub fn asked_by<'a>(arguments: &[&'a [u8]]) -> Option<Question<'a>>
    ensures { result ≡ asked_by (map (λ argument. argument.now) arguments.now) }
{
    if arguments.len() < 2 {
        return None;
    }
    if arguments.len() > 5 {
        return None;
    }
    match arguments {
        [name, text] => question_about(name, Some(STANDARD), text),
        [name, dashes, text] => question_behind(dashes, name, Some(STANDARD), text),
        [name, option, value, text] => question_about(name, format_told(option, value), text),
        [name, option, value, dashes, text] => {
            question_behind(dashes, name, format_told(option, value), text)
        }
        _ => None,
    }
}
