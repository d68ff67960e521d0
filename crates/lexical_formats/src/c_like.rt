//! The integers of C, and of languages that write them as C does.

ghost use Rattle.std.specs.Prelude.{◌≡◌, None};
ghost use Rattle.lexical_util.specs.Validity.{fault};
ghost use Rattle.lexical_formats.specs.Languages.{c, c23, c_decimal, c_hexadecimal, c_octal, cpp14, csharp, java, kotlin};

use crate::{by_separator, with_prefixes, without_plus};
use lexical_util::format::NumberFormat;

/// Integer constants of C up to C17, of each of the three kinds: `511`, `0777` and `0x1FF`.
///
/// A minus gives C's value only before what C holds in a signed type: `-0xFFFFFFFF` is 1 in C. `0o777` and `0b1` are
/// read besides, and are none of C17's. An end such as `u` or `LL` isn't read.
pub fn c() -> NumberFormat
    ensures fields { result ≡ c }
    ensures valid { fault result ≡ None }
{
    with_prefixes().literal_octal_zero(true).build_strict()
}

/// The decimal constants of C: `511`. A zero before another digit is refused, since it makes a constant octal.
pub fn c_decimal() -> NumberFormat
    ensures fields { result ≡ c_decimal }
    ensures valid { fault result ≡ None }
{
    without_plus().no_integer_leading_zeros(true).build_strict()
}

/// The octal constants of C: `0777`.
///
/// The leading zero isn't asked for: `777` is 511, where C reads 777.
pub fn c_octal() -> NumberFormat
    ensures fields { result ≡ c_octal }
    ensures valid { fault result ≡ None }
{
    without_plus().mantissa_radix(8).build_strict()
}

/// The hexadecimal constants of C: `0x1FF`.
///
/// The prefix isn't asked for: `10` is 16, where C reads 10.
pub fn c_hexadecimal() -> NumberFormat
    ensures fields { result ≡ c_hexadecimal }
    ensures valid { fault result ≡ None }
{
    without_plus()
        .mantissa_radix(16)
        .base_prefix(Some(b'x'))
        .build_strict()
}

/// Integer constants of C23: those of [`c`], with `0b1`, and with `'` between digits: `1'000`.
///
/// `-0xFFFFFFFF` is 1 in C, as [`c`] says. `0o777` is read besides, and is none of C23's. An end such as `u` or `wb`
/// isn't read.
pub fn c23() -> NumberFormat
    ensures fields { result ≡ c23 }
    ensures valid { fault result ≡ None }
{
    by_separator(b'\'').literal_octal_zero(true).build_strict()
}

/// Integer literals of C++14 and later: the texts of [`c23`].
pub fn cpp14() -> NumberFormat
    ensures fields { result ≡ cpp14 }
    ensures valid { fault result ≡ None }
{
    c23()
}

/// Integer literals of C#: `1__000`, `0x_1FF` and `0b1_01`. `0777` is 777.
///
/// `0o777` is read besides, and is none of C#'s. An end such as `UL` isn't read.
pub fn csharp() -> NumberFormat
    ensures fields { result ≡ csharp }
    ensures valid { fault result ≡ None }
{
    by_separator(b'_')
        .integer_consecutive_digit_separator(true)
        .integer_prefix_digit_separator(true)
        .build_strict()
}

/// Integer literals of Java: `1__000`, `0_777`, `0x1_FF` and `0b1_01`, and with an `L` or `l` at the end.
///
/// Java reads `0xFFFFFFFF` as -1; the value here is 4294967295. `0o777` is read besides, and is none of Java's.
pub fn java() -> NumberFormat
    ensures fields { result ≡ java }
    ensures valid { fault result ≡ None }
{
    by_separator(b'_')
        .base_suffix(Some(b'l'))
        .integer_consecutive_digit_separator(true)
        .literal_octal_zero(true)
        .build_strict()
}

/// Integer literals of Kotlin: `1__000`, `0x1_FF` and `0b1_01`, and with an `L` at the end. A zero before another
/// digit is refused.
///
/// `0o777` is read besides, and is none of Kotlin's. The end `u` isn't read.
pub fn kotlin() -> NumberFormat
    ensures fields { result ≡ kotlin }
    ensures valid { fault result ≡ None }
{
    by_separator(b'_')
        .base_suffix(Some(b'L'))
        .case_sensitive_base_suffix(true)
        .integer_consecutive_digit_separator(true)
        .no_integer_leading_zeros(true)
        .build_strict()
}
