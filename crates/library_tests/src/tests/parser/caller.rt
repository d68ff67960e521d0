// The callers that CALLING.md shows, proved and run.

ghost use Rattle.std.specs.Prelude.{◌≡◌, ◌<◌, false, drop, Err, IfErr, IfNone, IfOk, IfSome, Ok, pos, slice_get, Some, true, ℕ};
ghost use Rattle.lexical_parse_integer.specs.Answer.{view_of};
ghost use Rattle.lexical_parse_integer.specs.Grammar.{complete, partial};
ghost use Rattle.lexical_parse_integer.specs.Stops.{stops_after_digit};
ghost use Rattle.lexical_util.specs.Format.{standard};
ghost use Rattle.lexical_util.specs.Number.{integer_type};

use lexical_parse_integer::algorithm::algorithm_partial_on;
use lexical_parse_integer::cursor::Cursor;
use lexical_parse_integer::format::STANDARD;
use lexical_parse_integer::{
    Error, FromLexical, FromLexicalWithOptions, NumberFormatBuilder, Result, options,
    stops_after_digit,
};

/// A field that has to be a port: a number from 1 to 65535, and nothing else.
pub fn port(field: &[u8]) -> Option<u16>
    ensures value { IfSome result
        (λ port. complete standard (integer_type 16 false) field.now ≡ Ok (pos port)) }
    ensures some { IfSome result (λ port. 0 < port) }
    ensures none { IfNone result
        (IfOk (complete standard (integer_type 16 false) field.now) (λ value. value ≡ pos 0)) }
{
    let port = u16::from_lexical(field).ok()?;
    if port > 0 { Some(port) } else { None }
}

/// The number at a line's front, and the rest of the line.
#[tactic(auto, using(lexical_parse_integer::proofs::ForCallers::partial_within))]
pub fn number_and_rest(line: &[u8]) -> Result<(u32, &[u8])>
    ensures found { IfOk result (λ found. (place : ℕ)
        × (partial standard (integer_type 32 false) line.now ≡ Ok (pos found.0, place))
        × (found.1.now ≡ drop place line.now)) }
    ensures fault { IfErr result (λ e. partial standard (integer_type 32 false) line.now ≡ Err e) }
{
    let (number, place) = u32::from_lexical_partial(line)?;
    Ok((number, &line[place..]))
}

/// An address in radix 16, with `0x` or without it: `0x1F` or `1f`.
pub fn address(text: &[u8]) -> Result<u32>
    ensures { view_of (λ address. pos address) result
        ≡ complete (record standard { mantissa_radix = 16; base_prefix = Some 120 })
        (integer_type 32 false) text.now }
{
    let format = NumberFormatBuilder::new()
        .mantissa_radix(16)
        .base_prefix(Some(b'x'))
        .build_strict();
    u32::from_lexical_with_options(text, &format, &options::STANDARD)
}

/// The number at a text's front, and the byte at which its reading stopped: `None` at the text's end.
pub fn number_and_stopper(text: &[u8]) -> Result<(u32, Option<u8>)>
    ensures found { IfOk result (λ found. (place : ℕ)
        × (partial standard (integer_type 32 false) text.now ≡ Ok (pos found.0, place))
        × (slice_get text.now place ≡ found.1)) }
    ensures fault { IfErr result (λ e. partial standard (integer_type 32 false) text.now ≡ Err e) }
{
    let mut c = Cursor::new(text, &STANDARD);
    let (number, _) = algorithm_partial_on::<u32>(&mut c, &options::STANDARD)?;
    Ok((number, c.first()))
}

/// The number that a line begins with, where it begins with one: a line without a digit has none.
pub fn leading_number(line: &[u8]) -> Option<u32>
    ensures found { IfSome result (λ number. (place : ℕ)
        × (partial standard (integer_type 32 false) line.now ≡ Ok (pos number, place))
        × (stops_after_digit 10 line.now place ≡ true)) }
    ensures none { IfNone result (IfOk (partial standard (integer_type 32 false) line.now)
        (λ found. stops_after_digit 10 line.now found.1 ≡ false)) }
{
    let (number, place) = u32::from_lexical_partial(line).ok()?;
    if stops_after_digit(line, place, 10) {
        Some(number)
    } else {
        None
    }
}

#[test]
fn callers(rt: HostRuntime) {
    use crate::tests::answers;
    let ports = [port(b"8080"), port(b"0"), port(b"65536")];
    answers(&rt, ports, [Some(8080), None, None]);
    answers(&rt, number_and_rest(b"12 x"), Ok((12, b" x".as_slice())));
    let stoppers = [number_and_stopper(b"12,3"), number_and_stopper(b"+")];
    answers(&rt, stoppers, [Ok((12, Some(b','))), Err(Error::Empty(1))]);
}

#[test]
fn other_callers(rt: HostRuntime) {
    use crate::tests::answers;
    answers(&rt, [address(b"0x1F"), address(b"1f")], [Ok(31), Ok(31)]);
    let leading = [leading_number(b"0"), leading_number(b"x1")];
    answers(&rt, leading, [Some(0), None]);
    let digits = [
        stops_after_digit(b"1f", 2, 16),
        stops_after_digit(b"1f", 2, 10),
        stops_after_digit(b"1f", 0, 10),
    ];
    answers(&rt, digits, [true, false, false]);
}
