//! The integers of Rust, Go, Swift, Ada and VHDL, and of assemblers.

ghost use Rattle.std.specs.Prelude.{◌≡◌, None};
ghost use Rattle.lexical_util.specs.Validity.{fault};
ghost use Rattle.lexical_formats.specs.Languages.{ada, assembler_hexadecimal, go, rust, swift, vhdl};

use crate::{any_groups, by_separator, underscored_digits, without_plus};
use lexical_util::format::NumberFormat;

/// Integer literals of Rust: `1__000_`, `0x_1FF_`, `0o777` and `0b1_01`. `0777` is 777.
///
/// A type at the end, as `u8`, isn't read.
pub fn rust() -> NumberFormat
    ensures fields { result ≡ rust }
    ensures valid { fault result ≡ None }
{
    any_groups()
        .case_sensitive_base_prefix(true)
        .integer_prefix_digit_separator(true)
        .build_strict()
}

/// Integer literals of Go: `1_000`, `0_777`, `0x_1FF`, `0o_777` and `0b_1_01`. `0777` is 511.
pub fn go() -> NumberFormat
    ensures fields { result ≡ go }
    ensures valid { fault result ≡ None }
{
    by_separator(b'_')
        .integer_prefix_digit_separator(true)
        .literal_octal_zero(true)
        .build_strict()
}

/// Integer literals of Swift: `1__000_`, `0x1FF_`, `0o777` and `0b1_01`. `0777` is 777.
pub fn swift() -> NumberFormat
    ensures fields { result ≡ swift }
    ensures valid { fault result ≡ None }
{
    any_groups().case_sensitive_base_prefix(true).build_strict()
}

/// Decimal literals of Ada: `1_000`.
///
/// An exponent, as in `1E6`, isn't read, and no other radix, as in `16#FF#`.
pub fn ada() -> NumberFormat
    ensures fields { result ≡ ada }
    ensures valid { fault result ≡ None }
{
    underscored_digits().build_strict()
}

/// Decimal literals of VHDL: `1_000`.
///
/// An exponent, as in `1E6`, isn't read, and no other radix, as in `16#FF#`.
pub fn vhdl() -> NumberFormat
    ensures fields { result ≡ vhdl }
    ensures valid { fault result ≡ None }
{
    ada()
}

/// Hexadecimal numbers of assemblers: `0FFh`.
///
/// The `h` isn't asked for: `10` is 16, where an assembler reads 10, and `11b` is 283, where it reads 3. Nor is a
/// leading digit from 0 to 9: `FFh`, to an assembler a name, is 255.
pub fn assembler_hexadecimal() -> NumberFormat
    ensures fields { result ≡ assembler_hexadecimal }
    ensures valid { fault result ≡ None }
{
    without_plus()
        .mantissa_radix(16)
        .base_suffix(Some(b'h'))
        .build_strict()
}
