//! Ready formats: the integers of programming languages, of assemblers and of data formats.
//!
//! Each is made by setters of a [`NumberFormatBuilder`], so a caller may copy the lines and change one. A format says
//! what it can of a language: its radixes, its separators, its zeros. What it can't say is documented with each
//! function, and shown by test vectors in docs/FORMATS.md.
//!
//! In most languages a sign is an operator and no part of a literal. The formats of these languages refuse a plus. A
//! minus is refused where the type is unsigned, and read where it is signed.
#![tactic(auto)]

ghost use Rattle.std.specs.Prelude.{◌≡◌};
ghost use Rattle.lexical_formats.specs.Languages.{any_groups, with_prefixes, by_separator, own_sign, underscored_digits, without_plus};

mod c_like;
mod compiled;
mod data;
mod functional;
mod names;
mod scripting;

pub use c_like::{c, c_decimal, c_hexadecimal, c_octal, c23, cpp14, csharp, java, kotlin};
pub use compiled::{ada, assembler_hexadecimal, go, rust, swift, vhdl};
pub use data::{json, json5, sql, sql_2023, toml, yaml};
pub use functional::{haskell, ocaml};
use lexical_util::format::NumberFormatBuilder;
pub use names::named;
pub use scripting::{javascript, julia, python, ruby};

// Literals without a plus.
fn without_plus() -> NumberFormatBuilder
    ensures { result ≡ without_plus }
{
    NumberFormatBuilder::new().no_positive_mantissa_sign(true)
}

// Literals without a plus, in radix 10, or 16, 8 or 2 where `0x`, `0o` or `0b` comes first.
fn with_prefixes() -> NumberFormatBuilder
    ensures { result ≡ with_prefixes }
{
    without_plus().literal_prefixes(true)
}

// Those of `with_prefixes`, and with this separator between digits, one at a time.
fn by_separator(separator: u8) -> NumberFormatBuilder
    ensures { result ≡ by_separator separator }
{
    with_prefixes()
        .digit_separator(Some(separator))
        .integer_internal_digit_separator(true)
}

// Those of `with_prefixes`, and with any number of `_` among and after the digits.
fn any_groups() -> NumberFormatBuilder
    ensures { result ≡ any_groups }
{
    by_separator(b'_')
        .integer_trailing_digit_separator(true)
        .integer_consecutive_digit_separator(true)
}

// Texts of which a sign is a part, in radix 10, or 16, 8 or 2 where `0x`, `0o` or `0b` comes first.
fn own_sign() -> NumberFormatBuilder
    ensures { result ≡ own_sign }
{
    NumberFormatBuilder::new().literal_prefixes(true)
}

// Digits alone, with `_` between them, one at a time.
fn underscored_digits() -> NumberFormatBuilder
    ensures { result ≡ underscored_digits }
{
    without_plus()
        .digit_separator(Some(b'_'))
        .integer_internal_digit_separator(true)
}
