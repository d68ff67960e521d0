// Every integer type, read from bytes.
ghost use Rattle.std.specs.Prelude.{◌≡◌};
ghost use Rattle.lexical_parse_integer.specs.Answer.{with_place, view_of};
ghost use Rattle.lexical_parse_integer.specs.Grammar.{complete_if_valid, partial_if_valid};

use crate::algorithm::plain::{front_if_plain, value_if_short};
use crate::algorithm::whole::{complete_if_valid, complete_standard, value_for_format};
use crate::algorithm::{front_if_valid, standard_front};
use crate::api::{FromLexical, FromLexicalWithOptions};
use crate::options::Options;
use lexical_util::format::{self, NumberFormat};
use lexical_util::num::Integer;
use lexical_util::result::Result;

impl<T: Integer> FromLexical for T {
    #[inline(always)]
    fn from_lexical(bytes: &[u8]) -> Result<T> {
        match value_for_format::<T>(bytes, &format::STANDARD) {
            Some(value) => Ok(value),
            None => complete_standard::<T>(bytes),
        }
    }

    #[inline(always)]
    fn from_lexical_partial(bytes: &[u8]) -> Result<(T, usize)> {
        match front_if_plain::<T>(bytes, &format::STANDARD) {
            Some(found) => Ok(found),
            None => standard_front::<T>(bytes),
        }
    }
}

impl<T: Integer> FromLexicalWithOptions for T {
    type Options = Options;

    // A short decimal text is read in place.
    #[inline(always)]
    fn from_lexical_with_options(
        bytes: &[u8],
        format: &NumberFormat,
        options: &Options,
    ) -> Result<T> {
        match value_if_short::<T>(bytes, format) {
            Some(value) => Ok(value),
            None => complete_if_valid::<T>(bytes, format),
        }
    }

    #[inline(always)]
    fn from_lexical_partial_with_options(
        bytes: &[u8],
        format: &NumberFormat,
        options: &Options,
    ) -> Result<(T, usize)> {
        match front_if_plain::<T>(bytes, format) {
            Some(found) => Ok(found),
            None => front_if_valid::<T>(bytes, format),
        }
    }
}
