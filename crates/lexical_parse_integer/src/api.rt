//! The calls that users make: an integer type reads itself from bytes.
ghost use Rattle.std.specs.Prelude.{◌≡◌};
ghost use Rattle.lexical_util.specs.Format.{standard};
ghost use Rattle.lexical_parse_integer.specs.Answer.{with_place, view_of};
ghost use Rattle.lexical_parse_integer.specs.Grammar.{complete, complete_if_valid, partial, partial_if_valid};

pub(crate) mod impls;

use crate::algorithm::{algorithm_complete, algorithm_partial};
use crate::options;
use lexical_util::format::{self, NumberFormat};
use lexical_util::num::Integer;
use lexical_util::options::ParseOptions;
use lexical_util::result::Result;

/// An integer type that is read from decimal bytes.
pub trait FromLexical: Integer {
    /// The integer that the whole text stands for: an optional sign, and at least one digit.
    ///
    /// A fault has a place, which counts bytes from 0: `Overflow` or `Underflow` at the digit with which the value
    /// leaves the type, `InvalidDigit` at the first byte that doesn't belong to the number, `Empty` where a digit is
    /// missing. As an `i8`, `-128` is `Ok(-128)`, `-129` is `Err(Underflow(3))`, and `1a` is `Err(InvalidDigit(1))`.
    fn from_lexical(bytes: &[u8]) -> Result<Self>
        ensures { view_of Self.number result ≡ complete standard Self.TYPE bytes.now }
    {
        algorithm_complete::<Self>(bytes, &format::STANDARD, &options::STANDARD)
    }

    /// The integer that the front of the text stands for, and the place at which reading stopped.
    ///
    /// The place counts bytes from 0: of `1234 }` the answer is `Ok((1234, 4))`. A front without digits is no fault
    /// unless the text ends there: `x` is `Ok((0, 0))`, and `+a` is `Ok((0, 1))`. If a number has to be there, call
    /// `number_in_front`.
    fn from_lexical_partial(bytes: &[u8]) -> Result<(Self, usize)>
        ensures { view_of (with_place Self.number) result ≡ partial standard Self.TYPE bytes.now }
    {
        algorithm_partial::<Self>(bytes, &format::STANDARD, &options::STANDARD)
    }
}

/// An integer type that is read from bytes under a format.
pub trait FromLexicalWithOptions: FromLexical {
    /// The parser's options, which are hints about its input.
    type Options: ParseOptions;

    /// The integer that the whole text stands for under a format, or the fault of the first rule that the format
    /// breaks.
    ///
    /// No answer depends on the options.
    fn from_lexical_with_options(
        bytes: &[u8],
        format: &NumberFormat,
        options: &Self::Options,
    ) -> Result<Self>
        ensures { view_of Self.number result ≡ complete_if_valid format.now Self.TYPE bytes.now };

    /// The integer that the front of the text stands for under a format, and the place at which reading stopped; or
    /// the fault of the first rule that the format breaks.
    ///
    /// A front without digits is mostly no fault, as under the standard format. No answer depends on the options.
    fn from_lexical_partial_with_options(
        bytes: &[u8],
        format: &NumberFormat,
        options: &Self::Options,
    ) -> Result<(Self, usize)>
        ensures { view_of (with_place Self.number) result
            ≡ partial_if_valid format.now Self.TYPE bytes.now };
}
