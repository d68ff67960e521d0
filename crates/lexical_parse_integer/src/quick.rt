//! The parsers in two halves, for crates that build on this one: columns, tables, and calls from C.
//!
//! The first half is the fast path, inlined, and its `None` says nothing about a text. The second half has the answer
//! for what the first one left. There are also three tests: `is_decimal`, `is_separated` and `keeps_zero_rule`.
ghost use Rattle.std.specs.Prelude.{◌≡◌};
ghost use Rattle.lexical_util.specs.Format.{standard};
ghost use Rattle.lexical_parse_integer.specs.Answer.{view_of};
ghost use Rattle.lexical_parse_integer.specs.Grammar.{complete};

pub use crate::algorithm::plain::fields::{field_in_front, is_separated};
pub use crate::algorithm::plain::{front_if_plain, is_decimal, keeps_zero_rule, value_if_short};
pub use crate::algorithm::whole::{
    complete_if_valid, complete_standard, complete_valid, value_for_format,
};
use crate::api::FromLexical;
use lexical_util::result::Result;

/// The integer that the whole text stands for under the standard format, for a text on which `value_if_short` gave up: one
/// of up to sixteen bytes isn't read as digits again.
#[inline(always)]
pub fn complete_standard_by_length<T: FromLexical>(bytes: &[u8]) -> Result<T>
    ensures { view_of T.number result ≡ complete standard T.TYPE bytes.now }
{
    if bytes.len() <= 16 {
        return complete_standard::<T>(bytes);
    }
    T::from_lexical(bytes)
}
