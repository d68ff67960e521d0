// Fields under formats of any kind, each cut by marks of the separators in front and read at once where that can be.
ghost use Rattle.std.specs.Prelude.{◌≡◌, ◌+◌, ◌<◌, ◌≤◌, ℕ, List, Err, IfSome, IsNone, length, take, drop};
ghost use Rattle.lexical_util.specs.Validity.{fault};
ghost use Rattle.lexical_parse_integer.specs.Answer.{view_of};
ghost use Rattle.lexical_parse_integer.specs.Grammar.{complete};
ghost use Rattle.lexical_fields.specs.Fields.{field_length};
ghost use Rattle.lexical_fields.specs.ReadSoFar.{IsReadSoFar};
ghost use Rattle.lexical_fields.specs.Search.{AreMarks};

use crate::marked::{next_marks, split_marked};
use crate::split::split_field;
use lexical_parse_integer::parse::ParseInteger;
use lexical_parse_integer::quick::{complete_valid, value_if_short};
use lexical_parse_integer::{Error, NumberFormat, Result};

// The first field, what is behind its separator, and the marks of that. The field's end is found by the text's marks,
// or by a search where it has none.
#[inline(always)]
fn cut_field(text: &[u8], marks: u64, separator: u8) -> (&[u8], &[u8], u64)
    requires { AreMarks separator text.now marks }
    ensures field { result.0.now ≡ take (field_length separator text.now) text.now }
    ensures behind { result.1.now ≡ drop (field_length separator text.now + 1) text.now }
    ensures shorter { length result.1.now ≤ length text.now }
    ensures marks { AreMarks separator result.1.now result.2 }
{
    if marks == 0 {
        let (field, behind) = split_field(text, separator);
        return (field, behind, 0);
    }
    let (size, behind, more) = split_marked(text, marks, separator);
    (&text[..size], behind, more)
}

// The number of a field, or its fault. A short decimal field is read in place.
#[inline(always)]
fn number_of_field<T: ParseInteger>(field: &[u8], format: &NumberFormat) -> Result<T>
    requires valid { IsNone (fault format.now) }
    ensures { view_of T.number result ≡ complete format.now T.TYPE field.now }
{
    match value_if_short::<T>(field, format) {
        Some(value) => Ok(value),
        None => complete_valid::<T>(field, format),
    }
}

// Reads fields into a slice from its front, as far as it has room, or up to a field at fault. Returns how many numbers
// the slice then has, what is left of the text, and the fault, if one ended the reading: that of the first field left.
// Out of line, to keep registers for plain fields.
#[inline(never)]
pub(crate) fn read_any_format<'a, T: ParseInteger>(
    text: &'a [u8],
    separator: u8,
    format: &NumberFormat,
    values: &mut [T],
) -> (usize, &'a [u8], Option<Error>)
    requires valid { IsNone (fault format.now) }
    ensures reading { (whole : List ℕ) (initial : List T)
        → IsReadSoFar T T.number format.now T.TYPE separator whole initial values.old 0 text.now
        → IsReadSoFar T T.number format.now T.TYPE separator whole initial values.new
        result.0 result.1.now }
    ensures done { IsNone result.2 → result.0 < length values.new → length result.1.now ≡ 0 }
    ensures within { result.0 ≤ length values.new }
    ensures room { IfSome result.2 (λ error. result.0 < length values.new) }
    ensures more { IfSome result.2 (λ error. 0 < length result.1.now) }
    ensures fault { IfSome result.2 (λ error. Err error ≡ complete format.now T.TYPE
        (take (field_length separator result.1.now) result.1.now)) }
    ensures size { length values.new ≡ length values.old }
{
    let mut rest = text;
    let mut marks = 0;
    for i in 0..values.len() {
        if rest.is_empty() {
            return (i, rest, None);
        }
        marks = next_marks(rest, marks, separator);
        let (field, behind, more) = cut_field(rest, marks, separator);
        match number_of_field::<T>(field, format) {
            Ok(value) => values[i] = value,
            Err(error) => return (i, rest, Some(error)),
        }
        rest = behind;
        marks = more;
    }
    (values.len(), rest, None)
}
