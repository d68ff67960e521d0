//! The integers of Haskell and OCaml.

ghost use Rattle.std.specs.Prelude.{◌≡◌, None};
ghost use Rattle.lexical_util.specs.Validity.{fault};
ghost use Rattle.lexical_formats.specs.Languages.{haskell, ocaml};

use crate::{any_groups, by_separator};
use lexical_util::format::NumberFormat;

/// Integer literals of Haskell with NumericUnderscores and BinaryLiterals: `1__000`, `0x_1FF`, `0o777` and `0b_1_01`.
/// `0777` is 777.
pub fn haskell() -> NumberFormat
    ensures fields { result ≡ haskell }
    ensures valid { fault result ≡ None }
{
    by_separator(b'_')
        .integer_consecutive_digit_separator(true)
        .integer_prefix_digit_separator(true)
        .build_strict()
}

/// Integer literals of OCaml: `1__000_`, `0x1FF_`, `0o777` and `0b1_01`. `0777` is 777.
///
/// OCaml's `int` has 63 bits: it reads `0x7FFFFFFFFFFFFFFF` as -1; the value here is 9223372036854775807. A letter at
/// the end, as in `1L`, isn't read.
pub fn ocaml() -> NumberFormat
    ensures fields { result ≡ ocaml }
    ensures valid { fault result ≡ None }
{
    any_groups().build_strict()
}
