//! The parsers under a format, over a text and over a cursor, and the parts that they are made of.
//!
//! The names are those of the upstream crate's hidden module of that name; here they are documented, since a reader
//! written by hand can use them.
ghost use Rattle.std.specs.Prelude.{◌≡◌, IsNone};
ghost use Rattle.lexical_util.specs.Format.{standard};
ghost use Rattle.lexical_util.specs.Validity.{fault};
ghost use Rattle.lexical_parse_integer.specs.Answer.{with_place, view_of};
ghost use Rattle.lexical_parse_integer.specs.Grammar.{complete, partial, partial_if_valid};

mod counted;
pub(crate) mod front;
mod join;
pub(crate) mod plain;
pub(crate) mod punctuated;
pub(crate) mod whole;

use crate::algorithm::front::partial_from_front;
use crate::options::Options;
use crate::parse::ParseInteger;
pub use counted::{
    algorithm_complete_on, algorithm_partial_on, parse_sign, try_parse_4digits, try_parse_8digits,
};
pub use lexical_digits::words::{is_4digits, is_8digits, parse_4digits, parse_8digits};
use lexical_util::format::{self, NumberFormat};
use lexical_util::num::Integer;
use lexical_util::result::Result;

/// The integer that the whole text stands for under a valid format.
///
/// Places count bytes from 0. The first of these faults that applies is the answer:
///
/// 1. `InvalidPositiveSign(0)`, a `+` that the format forbids, or `MissingSign(0)`, no sign where it requires one;
/// 2. `Empty` at the text's end, where the text ends after its prefix;
/// 3. `InvalidLeadingZeros` at the first digit, a zero before another digit that the format forbids;
/// 4. `Overflow` or, after a minus, `Underflow` at the digit with which the value leaves `T`;
/// 5. `InvalidDigit` where reading stops, before the text's end;
/// 6. `Empty` at the text's end, where no digit was read and the format requires one.
///
/// No answer depends on the options.
#[inline(always)]
pub fn algorithm_complete<T: Integer>(
    bytes: &[u8],
    format: &NumberFormat,
    options: &Options,
) -> Result<T>
    requires valid { IsNone (fault format.now) }
    ensures { view_of T.number result ≡ complete format.now T.TYPE bytes.now }
{
    T::parse_complete(bytes, format, options)
}

/// The integer that the front of the text stands for under a valid format, and the place at which reading stops.
///
/// The first four faults are those of [`algorithm_complete`]. Then comes `Empty` where reading stops, if no digit was
/// read, the format requires one, and reading stops at the text's end or the format has a separator byte. Where
/// digits are required, none was read and none of this holds, the answer is 0 and the place.
///
/// No answer depends on the options.
#[inline(always)]
pub fn algorithm_partial<T: Integer>(
    bytes: &[u8],
    format: &NumberFormat,
    options: &Options,
) -> Result<(T, usize)>
    requires valid { IsNone (fault format.now) }
    ensures { view_of (with_place T.number) result ≡ partial format.now T.TYPE bytes.now }
{
    T::parse_partial(bytes, format, options)
}

// The partial answer for every text, under a format that may be invalid. Out of line, to keep callers small.
#[inline(never)]
fn partial_if_valid<T: Integer>(bytes: &[u8], format: &NumberFormat) -> Result<(T, usize)>
    ensures { view_of (with_place T.number) result ≡ partial_if_valid format.now T.TYPE bytes.now }
{
    match format.error() {
        Some(broken) => Err(broken),
        None => partial_from_front::<T>(bytes, format),
    }
}

// The partial answer for callers with a fast path. The compiler zeroes memory for a call's `Result` at the beginning of the
// function that makes the call. This wrapper is inlined, so that happens only on the path that needs it.
#[inline(always)]
pub(crate) fn front_if_valid<T: Integer>(bytes: &[u8], format: &NumberFormat) -> Result<(T, usize)>
    ensures { view_of (with_place T.number) result ≡ partial_if_valid format.now T.TYPE bytes.now }
{
    partial_if_valid::<T>(bytes, format)
}

// ---- under the standard format

// The partial answer under the standard format. The compiler knows the format here, and callers needn't build it.
#[inline(never)]
fn standard_partial<T: Integer>(bytes: &[u8]) -> Result<(T, usize)>
    ensures { view_of (with_place T.number) result ≡ partial standard T.TYPE bytes.now }
{
    partial_from_front::<T>(bytes, &format::STANDARD)
}

// The partial answer for callers with a fast path, inlined as `front_if_valid` is.
#[inline(always)]
pub(crate) fn standard_front<T: Integer>(bytes: &[u8]) -> Result<(T, usize)>
    ensures { view_of (with_place T.number) result ≡ partial standard T.TYPE bytes.now }
{
    standard_partial::<T>(bytes)
}
