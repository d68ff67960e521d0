//! The integers of Python, Ruby, JavaScript and Julia.

ghost use Rattle.std.specs.Prelude.{◌≡◌, None};
ghost use Rattle.lexical_util.specs.Validity.{fault};
ghost use Rattle.lexical_formats.specs.Languages.{javascript, julia, python, ruby};

use crate::by_separator;
use lexical_util::format::NumberFormat;

/// Integer literals of Python 3: `1_000`, `0x_1FF`, `0o777` and `0b_1_01`. A zero before another digit is refused.
///
/// Python reads zeros alone, as `00`; they are refused here.
pub fn python() -> NumberFormat
    ensures fields { result ≡ python }
    ensures valid { fault result ≡ None }
{
    by_separator(b'_')
        .integer_prefix_digit_separator(true)
        .no_integer_leading_zeros(true)
        .build_strict()
}

/// Integer literals of Ruby, with their sign: `+1_000`, `0_777`, `0x1_FF`, `0o777` and `0b1_01`. `0777` is 511.
///
/// The prefix `0d` isn't read.
pub fn ruby() -> NumberFormat
    ensures fields { result ≡ ruby }
    ensures valid { fault result ≡ None }
{
    by_separator(b'_')
        .no_positive_mantissa_sign(false)
        .literal_octal_zero(true)
        .build_strict()
}

/// Integer literals of JavaScript in strict mode: `1_000`, `0x1_FF`, `0o777` and `0b1_01`, and with an `n` at the end.
/// A zero before another digit is refused.
///
/// JavaScript rounds a number above 9007199254740992 that has no `n`; the value here is exact. `0_1` is refused too. An
/// exponent, as in `1e3`, isn't read.
pub fn javascript() -> NumberFormat
    ensures fields { result ≡ javascript }
    ensures valid { fault result ≡ None }
{
    by_separator(b'_')
        .base_suffix(Some(b'n'))
        .case_sensitive_base_suffix(true)
        .no_integer_leading_zeros(true)
        .build_strict()
}

/// Integer literals of Julia: `1_000`, `0x1_FF`, `0o777` and `0b1_01`. `0777` is 777.
///
/// Julia keeps what has a prefix unsigned, and reads `-0x2` as 254; the value here is -2.
pub fn julia() -> NumberFormat
    ensures fields { result ≡ julia }
    ensures valid { fault result ≡ None }
{
    by_separator(b'_')
        .case_sensitive_base_prefix(true)
        .build_strict()
}
