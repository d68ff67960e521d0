//! The integers of JSON, JSON5, TOML, YAML and SQL. Here a sign is a part of the text.

ghost use Rattle.std.specs.Prelude.{◌≡◌, None};
ghost use Rattle.lexical_util.specs.Format.{json};
ghost use Rattle.lexical_util.specs.Validity.{fault};
ghost use Rattle.lexical_formats.specs.Languages.{json5, sql, sql_2023, toml, yaml};

use crate::{by_separator, own_sign};
use lexical_util::format::{JSON, NumberFormat, STANDARD};

/// Integers of JSON: [`JSON`].
pub fn json() -> NumberFormat
    ensures fields { result ≡ json }
    ensures valid { fault result ≡ None }
{
    JSON
}

/// Integers of JSON5: `+511`, `-511` and `0x1FF`. A zero before another digit is refused.
///
/// `0o777` and `0b1` are read besides, and are none of JSON5's.
pub fn json5() -> NumberFormat
    ensures fields { result ≡ json5 }
    ensures valid { fault result ≡ None }
{
    own_sign().no_integer_leading_zeros(true).build_strict()
}

/// Integers of TOML: `+1_000`, `0x1_FF`, `0o777` and `0b1_01`. A zero before another digit is refused.
///
/// `+0x1` is read besides: TOML has no sign before a prefix.
pub fn toml() -> NumberFormat
    ensures fields { result ≡ toml }
    ensures valid { fault result ≡ None }
{
    by_separator(b'_')
        .no_positive_mantissa_sign(false)
        .case_sensitive_base_prefix(true)
        .no_integer_leading_zeros(true)
        .build_strict()
}

/// Integers of YAML 1.2 by its core schema: `+0511`, `0x1FF` and `0o777`. `0777` is 777.
///
/// Readers of YAML 1.1 take `0777` for 511. `0b1` and `+0x1` are read besides, and are strings in YAML.
pub fn yaml() -> NumberFormat
    ensures fields { result ≡ yaml }
    ensures valid { fault result ≡ None }
{
    own_sign().case_sensitive_base_prefix(true).build_strict()
}

/// Integers of SQL up to SQL:2016, with their sign: `+0511`.
pub fn sql() -> NumberFormat
    ensures fields { result ≡ sql }
    ensures valid { fault result ≡ None }
{
    STANDARD
}

/// Integers of SQL:2023, with their sign: `+1_000`, `0x_1FF`, `0o777` and `0b_1_01`. `0777` is 777.
pub fn sql_2023() -> NumberFormat
    ensures fields { result ≡ sql_2023 }
    ensures valid { fault result ≡ None }
{
    by_separator(b'_')
        .no_positive_mantissa_sign(false)
        .integer_prefix_digit_separator(true)
        .build_strict()
}
