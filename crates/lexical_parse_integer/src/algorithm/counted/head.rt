// What stands before the digits: the sign and the prefix.
ghost use Rattle.std.specs.Prelude.{◌≡◌, Err, IfErr, IfOk, OnErr, OnOk, length, ◌&&◌, ◌==◌};
ghost use Rattle.lexical_parse_integer.specs.Answer.{view_of};
ghost use Rattle.lexical_parse_integer.specs.Head.{head_of, sign};
ghost use Rattle.lexical_parse_integer.specs.Reading.{IsAtHead, IsOver};

use crate::cursor::Cursor;
use lexical_util::error::Error;
use lexical_util::num::Integer;
use lexical_util::result::Result;

/// Reads the sign at the text's front, and answers whether it is a minus.
///
/// The first byte alone decides. A `+` is a sign where the format admits one, and
/// `InvalidPositiveSign(0)` elsewhere. A `-` is a sign where `T` is signed; to an unsigned type it
/// is no sign, and isn't read. Where nothing is read and the format requires a sign, the answer is
/// `MissingSign(0)`. A fault leaves the cursor as it was.
///
/// The upstream crate has this as the macro `parse_sign!`.
#[inline(always)]
#[tactic(auto, unfolding(crate::specs::Head::sign))]
pub fn parse_sign<T: Integer>(c: &mut Cursor<'_>) -> Result<bool>
    requires { c.old.position ≡ 0 }
    ensures answer { view_of (λ is_negative. (is_negative, c.new.position)) result
        ≡ sign c.old.format T.TYPE c.old.bytes }
    ensures moved { OnOk result
        (c.new ≡ record c.old { start = c.new.position; position = c.new.position }) }
    ensures unmoved { OnErr result (c.new ≡ c.old) }
{
    c.assert_invariant();
    match c.first() {
        Some(b'+') => {
            if c.format().no_positive_mantissa_sign() {
                return Err(Error::InvalidPositiveSign(0));
            }
            c.step_sign();
            Ok(false)
        }
        Some(b'-') if T::IS_SIGNED => {
            c.step_sign();
            Ok(true)
        }
        _ => {
            if c.format().required_mantissa_sign() {
                return Err(Error::MissingSign(0));
            }
            Ok(false)
        }
    }
}

// Reads sign and prefix, and answers whether there is a minus, whether there is a prefix, and whether an octal zero
// follows.
#[inline(always)]
pub(crate) fn read_head<T: Integer>(c: &mut Cursor<'_>) -> Result<(bool, bool, bool)>
    requires { c.old.position ≡ 0 }
    ensures head { IfOk result
        (λ found. IsAtHead c.old.format T.TYPE c.old.bytes found.0 found.1 found.2 c.new) }
    ensures fault { IfErr result (λ e. head_of c.old.format T.TYPE c.old.bytes ≡ Err e) }
    ensures no_turn { OnErr result (c.new.turns ≡ 0) }
    ensures over { OnErr result (IsOver c.old.bytes c.old.format c.new) }
    ensures same { c.new.identity ≡ c.old.identity }
{
    c.assert_invariant();
    let is_negative = parse_sign::<T>(c)?;
    if c.read_prefix() {
        return Ok((is_negative, true, false));
    }
    let is_octal = c.read_octal_zero();
    Ok((is_negative, false, is_octal))
}

// Whether a prefix is all that there is.
#[inline(always)]
pub(crate) fn is_prefix_alone(c: &Cursor<'_>, is_prefixed: bool) -> bool
    ensures { result ≡ (is_prefixed && (c.now.position == length c.now.bytes)) }
{
    is_prefixed && c.is_buffer_empty()
}
