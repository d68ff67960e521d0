//! Parsers under a format, as calls of the integer types.
ghost use Rattle.std.specs.Prelude.{◌≡◌, IsNone};
ghost use Rattle.lexical_util.specs.Validity.{fault};
ghost use Rattle.lexical_parse_integer.specs.Answer.{with_place, view_of};
ghost use Rattle.lexical_parse_integer.specs.Grammar.{complete, partial};

use crate::algorithm::front_if_valid;
use crate::algorithm::plain::{front_if_plain, value_if_short};
use crate::algorithm::whole::complete_valid;
use crate::options::Options;
use lexical_util::format::NumberFormat;
use lexical_util::num::Integer;
use lexical_util::result::Result;

/// An integer type that is read under a valid format.
pub trait ParseInteger: Integer {
    /// The integer that the whole text stands for.
    fn parse_complete(bytes: &[u8], format: &NumberFormat, options: &Options) -> Result<Self>
        requires valid { IsNone (fault format.now) }
        ensures { view_of Self.number result ≡ complete format.now Self.TYPE bytes.now };

    /// The integer that the front of the text stands for, and the place at which reading stopped.
    fn parse_partial(
        bytes: &[u8],
        format: &NumberFormat,
        options: &Options,
    ) -> Result<(Self, usize)>
        requires valid { IsNone (fault format.now) }
        ensures { view_of (with_place Self.number) result
            ≡ partial format.now Self.TYPE bytes.now };
}

// The bodies stand here, since `inline(always)` has no effect on those that a trait provides.
impl<T: Integer> ParseInteger for T {
    #[inline(always)]
    fn parse_complete(bytes: &[u8], format: &NumberFormat, options: &Options) -> Result<T> {
        match value_if_short::<T>(bytes, format) {
            Some(value) => Ok(value),
            None => complete_valid::<T>(bytes, format),
        }
    }

    #[inline(always)]
    #[tactic(auto, using(crate::proofs::plain::KindsOfFormats::valid_front))]
    fn parse_partial(bytes: &[u8], format: &NumberFormat, options: &Options) -> Result<(T, usize)> {
        match front_if_plain::<T>(bytes, format) {
            Some(found) => Ok(found),
            None => front_if_valid::<T>(bytes, format),
        }
    }
}
