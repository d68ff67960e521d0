// The first number of a column, where it is a few digits and a separator stands after them: found in one pass.
ghost use Rattle.std.specs.Prelude.{◌≡◌, ◌<◌, ◌↔◌, IfSome, IsTrue, Ok, length, take};
ghost use Rattle.lexical_parse_integer.specs.Grammar.{complete};
ghost use Rattle.lexical_parse_integer.specs.Separated.{IsSeparated, field_length};

use crate::algorithm::plain::{behind_minus, front_of_digits};
use lexical_util::digit::char_to_digit;
use lexical_util::format::{FormatKind, NumberFormat};
use lexical_util::num::Integer;

/// Whether `field_in_front` may read the fields between this separator, under this format.
#[inline(always)]
#[tactic(auto, using(crate::proofs::plain::KindsOfFormats::plain_decimal))]
pub fn is_separated(format: &NumberFormat, separator: u8) -> bool
    ensures { IsTrue result ↔ IsSeparated format.now separator }
{
    match format.kind() {
        FormatKind::Decimal => separator != b'-' && char_to_digit(separator, 10).is_none(),
        _ => false,
    }
}

/// The number of a text's first field and the field's length, where the field is up to twenty-three decimal digits
/// after an optional minus, and a separator comes after it.
///
/// `None` says nothing of the field. Between commas the first field of `12,345678,x` is 12, of length 2.
#[inline(always)]
pub fn field_in_front<T: Integer>(
    text: &[u8],
    separator: u8,
    format: &NumberFormat,
) -> Option<(T, usize)>
    requires { IsSeparated format.now separator }
    ensures length { IfSome result (λ found. found.1 ≡ field_length separator text.now) }
    ensures within { IfSome result (λ found. found.1 < length text.now) }
    ensures answer { IfSome result (λ found.
        complete format.now T.TYPE (take found.1 text.now) ≡ Ok (T.number found.0)) }
{
    let (is_negative, digits) = behind_minus::<T>(text);
    match front_of_digits::<T>(digits, format, is_negative) {
        Some(found) => {
            let stop = usize::from(is_negative) + found.1;
            if stop < text.len() && text[stop] == separator {
                Some((found.0, stop))
            } else {
                None
            }
        }
        None => None,
    }
}
