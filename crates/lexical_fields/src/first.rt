// What the first field of a text stands for, and what is after it.
ghost use Rattle.std.specs.Prelude.{◌≡◌, ◌+◌, ◌<◌, ◌≤◌, ◌^◌, length, take, drop, IsNone, IsTrue};
ghost use Rattle.lexical_util.specs.Validity.{fault};
ghost use Rattle.lexical_parse_integer.specs.Answer.{view_of};
ghost use Rattle.lexical_parse_integer.specs.Separated.{IsSeparated};
ghost use Rattle.lexical_fields.specs.Fields.{field_length};
ghost use Rattle.lexical_fields.specs.ReadFields.{field_answer};

use crate::places::field_answer;
use crate::search::LEAST_MARKED;
use crate::split::split_field;
use lexical_parse_integer::parse::ParseInteger;
use lexical_parse_integer::quick::field_in_front;
use lexical_parse_integer::{NumberFormat, Options, Result};

// The answer of the first field, which starts at a place, what is after its separator, and whether it is worth
// searching for the next fields by marks. Where the separator can't be a part of a number, a few digits are read and
// their end is found in one pass; every other field is cut first.
#[inline(always)]
pub(crate) fn read_first<'a, T: ParseInteger>(
    start: usize,
    text: &'a [u8],
    separator: u8,
    format: &NumberFormat,
    options: &Options,
    separated: bool,
) -> (Result<T>, &'a [u8], bool)
    requires valid { IsNone (fault format.now) }
    requires fits { start + length text.now < 2 ^ 64 }
    requires separated { IsTrue separated → IsSeparated format.now separator }
    ensures answer { view_of T.number result.0 ≡ field_answer format.now T.TYPE
        (record { start = start; text = take (field_length separator text.now) text.now }) }
    ensures behind { result.1.now ≡ drop (field_length separator text.now + 1) text.now }
    ensures shorter { length result.1.now ≤ length text.now }
    ensures separated { IsTrue result.2 → IsSeparated format.now separator }
{
    if separated {
        if let Some((value, size)) = field_in_front::<T>(text, separator, format) {
            let behind = &text[size + 1..];
            return (Ok(value), behind, behind.len() >= LEAST_MARKED);
        }
    }
    let (field, behind) = split_field(text, separator);
    (
        field_answer::<T>(start, field, format, options),
        behind,
        false,
    )
}
