//! Integers of TOML, and a line that sets one: `+1_000` and `-17`, or `0xdead_beef`, `0o755` and `0b1101` without a
//! sign.
//!
//! `lexical_formats::toml` has all of TOML's rules but one: that no sign comes before a prefix. So the reader tests
//! that first.

ghost use Rattle.std.specs.Prelude.{◌≡◌};
ghost use Rattle.std.specs.Option.{option_map};
ghost use Rattle.uses.specs.Toml.{after, has_minus_and_prefix, has_plus_and_prefix, integer_in, setting_in};

use lexical_parse_integer::{Error, FromLexicalWithOptions, Result, options};

// Whether a text begins with `+0x`, `+0o` or `+0b`.
fn has_plus_and_prefix(text: &[u8]) -> bool
    ensures { result ≡ has_plus_and_prefix text.now }
{
    text.starts_with(b"+0x") || text.starts_with(b"+0o") || text.starts_with(b"+0b")
}

// Whether a text begins with `-0x`, `-0o` or `-0b`.
fn has_minus_and_prefix(text: &[u8]) -> bool
    ensures { result ≡ has_minus_and_prefix text.now }
{
    text.starts_with(b"-0x") || text.starts_with(b"-0o") || text.starts_with(b"-0b")
}

/// The `i64` that an integer of TOML stands for: decimal, with a sign or without one, or hexadecimal, octal or binary
/// after `0x`, `0o` or `0b`, with `_` between two digits. A zero before another decimal digit is refused.
///
/// `0xdead_beef` is 3735928559, and `-17` is -17. `017` gives `InvalidLeadingZeros(0)`, `0x_1` `InvalidDigit(2)`, and
/// `+0x1` `InvalidDigit(2)`.
pub fn integer(text: &[u8]) -> Result<i64>
    ensures { result ≡ integer_in text.now }
{
    if has_plus_and_prefix(text) || has_minus_and_prefix(text) {
        return Err(Error::InvalidDigit(2));
    }
    i64::from_lexical_with_options(text, &lexical_formats::toml(), &options::STANDARD)
}

// What stands after a front, where the text begins with it.
fn after<'a>(front: &[u8], text: &'a [u8]) -> Option<&'a [u8]>
    ensures { option_map (λ rest. rest.now) result ≡ after front.now text.now }
{
    text.strip_prefix(front)
}

/// The `i64` that a line of a configuration gives a name, as `retries = 1_000`: [`integer`] of what comes after the
/// name and ` = `, with one blank on either side. `None` where the line begins with something else.
///
/// For the name `retries`, that line is 1000, and `retries = 007` gives `InvalidLeadingZeros(0)`: places count from the
/// value's first byte. `retry = 1` and `retries=1` are `None`.
pub fn setting(name: &[u8], line: &[u8]) -> Option<Result<i64>>
    ensures { result ≡ setting_in name.now line.now }
{
    let text = after(b" = ", after(name, line)?)?;
    Some(integer(text))
}
