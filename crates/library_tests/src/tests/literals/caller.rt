// Callers of the tokenizer by `for` and by the adapters of std's iterators, proved and run.

ghost use Rattle.std.specs.Prelude.{◌≡◌, ◌<◌, count_by, length, IfSome};
ghost use Rattle.lexical_literals.specs.TokenCallers.{first_fault_place, is_number_token};
ghost use Rattle.lexical_literals.specs.Tokens.{tokens, tokens_if_valid};
ghost use Rattle.lexical_parse_integer.specs.Answer.{view_of};

use crate::tests::answers;
use lexical_literals::{Kind, Tokens};
use lexical_parse_integer::{NumberFormat, Result as Parse};
use lexical_util::format::JSON;

/// How many of the tokens are numbers.
fn number_count(source: &[u8]) -> usize
    ensures { result ≡ count_by is_number_token (tokens source.now) }
{
    Tokens::new(source)
        .filter(|token| matches!(token.kind, Kind::Number(_)))
        .count()
}

/// How many of the tokens under a format are numbers.
fn number_count_under(source: &[u8], format: &NumberFormat) -> Parse<usize>
    ensures { result ≡ view_of (count_by is_number_token) (tokens_if_valid format.now source.now) }
{
    let tokens = Tokens::with_format(source, format)?;
    Ok(
        tokens
            .filter(|token| matches!(token.kind, Kind::Number(_)))
            .count(),
    )
}

/// Where the first fault starts.
fn first_fault(source: &[u8]) -> Option<usize>
    ensures { result ≡ first_fault_place (tokens source.now) }
{
    for token in Tokens::new(source) {
        if let Kind::Fault(_) = token.kind {
            return Some(token.start);
        }
    }
    None
}

// The bytes of the first token, cut from its source: some, and none beyond the source's end.
fn first_bytes(source: &[u8]) -> Option<&[u8]>
    ensures { IfSome result (λ bytes. 0 < length bytes.now) }
{
    let token = Tokens::new(source).next()?;
    Some(&source[token.start..token.stop])
}

#[test]
fn callers(rt: HostRuntime) {
    let source = b"x1 = 0x1F + 12_3; 0x";
    answers(&rt, number_count(source), 2);
    answers(&rt, number_count_under(b"[1, 02, -3]", &JSON), Ok(2));
    answers(&rt, first_bytes(source), Some(b"x1".as_slice()));
    let faults = [first_fault(source), first_fault(b"12 x")];
    answers(&rt, faults, [Some(18), None]);
}
