// Tokens one by one, and callers. proofs/Tokens.antt has more sources.

mod caller;
mod ranges;
mod typed;

use crate::tests::answers;
use lexical_literals::{Kind, Token, Tokens};
use lexical_parse_integer::{Error, NumberFormatBuilder};

// The first token outlives the iterator that gave it.
fn first(source: &[u8]) -> Option<Token<'_>> {
    let mut tokens = Tokens::new(source);
    tokens.next()
}

#[test]
fn tokens_one_by_one(rt: HostRuntime) {
    let number = Token {
        kind: Kind::Number(123),
        start: 1,
        stop: 5,
        text: b"12_3",
    };
    answers(&rt, first(b" 12_3;"), Some(number));
    answers(&rt, first(b"\r\n"), None);
    let control = Token {
        kind: Kind::Byte,
        start: 1,
        stop: 2,
        text: b"\0",
    };
    answers(&rt, first(b" \0"), Some(control));
    let radix = NumberFormatBuilder::new()
        .mantissa_radix(37)
        .digit_separator(Some(b'+'))
        .build_unchecked();
    let fault = Tokens::with_format(b"1", &radix).err();
    answers(&rt, fault, Some(Error::InvalidMantissaRadix));
}
