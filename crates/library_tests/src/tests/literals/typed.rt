// Literals with types: rows worked out by hand, by a table of suffixes and by one of the caller's own.

use crate::tests::answers;
use lexical_literals::{
    IntegerKind, LiteralError, Suffix, SuffixEntry, TypedLiteral, literal_format,
    typed_literal_in_front,
};
use lexical_parse_integer::{Error, NumberFormatBuilder};

const SUFFIXES: [Suffix<'static>; 4] = [
    Suffix {
        text: b"u8",
        kind: IntegerKind::U8,
    },
    Suffix {
        text: b"i64",
        kind: IntegerKind::I64,
    },
    Suffix {
        text: b"",
        kind: IntegerKind::I32,
    },
    Suffix {
        text: b"u8",
        kind: IntegerKind::U64,
    },
];

fn typed(text: &[u8]) -> Result<TypedLiteral, LiteralError> {
    typed_literal_in_front(text, &literal_format(), &SUFFIXES)
}

#[test]
fn literals_with_types(rt: HostRuntime) {
    let groups = TypedLiteral {
        value: 1000,
        kind: IntegerKind::I64,
        entry: 1,
        number_stop: 5,
        stop: 8,
    };
    answers(&rt, typed(b"1_000i64;"), Ok(groups));
    let bare = TypedLiteral {
        value: 1,
        kind: IntegerKind::I32,
        entry: 2,
        number_stop: 1,
        stop: 1,
    };
    answers(&rt, typed(b"1.5"), Ok(bare));
    let first = typed(b"0xFFu8").map(|found| (found.value, found.entry));
    answers(&rt, first, Ok((255, 0)));
}

#[test]
fn faults_of_literals_with_types(rt: HostRuntime) {
    let great = b"340282366920938463463374607431768211456u8";
    answers(
        &rt,
        typed(b"300u8"),
        Err(LiteralError::Number(Error::Overflow(2))),
    );
    answers(
        &rt,
        typed(great),
        Err(LiteralError::Number(Error::Overflow(2))),
    );
    answers(
        &rt,
        typed(b"0b102"),
        Err(LiteralError::Number(Error::InvalidDigit(4))),
    );
    answers(&rt, typed(b"12abc"), Err(LiteralError::UnknownSuffix(2)));
    answers(
        &rt,
        typed(b"-1"),
        Err(LiteralError::Number(Error::Empty(0))),
    );
    let radix = NumberFormatBuilder::from_radix(37);
    let refused = typed_literal_in_front(b"1", &radix, &SUFFIXES);
    answers(
        &rt,
        refused,
        Err(LiteralError::Number(Error::InvalidMantissaRadix)),
    );
}

// An entry of a table of the caller's own: a suffix, and what the caller calls it.
struct Named {
    name: &'static str,
    suffix: Suffix<'static>,
}

impl SuffixEntry for Named {
    ghost suffix = { λ entry. record { text = entry.suffix.text.now; kind = entry.suffix.kind } };

    fn text(&self) -> &[u8] {
        self.suffix.text
    }

    fn kind(&self) -> IntegerKind {
        self.suffix.kind
    }
}

const NAMED: [Named; 2] = [
    Named {
        name: "none",
        suffix: Suffix {
            text: b"",
            kind: IntegerKind::I32,
        },
    },
    Named {
        name: "byte",
        suffix: Suffix {
            text: b"u8",
            kind: IntegerKind::U8,
        },
    },
];

// What the caller calls the suffix of the literal in front.
fn name(text: &[u8]) -> Option<&'static str> {
    match typed_literal_in_front(text, &literal_format(), &NAMED) {
        Ok(literal) => NAMED.get(literal.entry).map(|entry| entry.name),
        Err(_) => None,
    }
}

#[test]
fn entries_of_the_caller(rt: HostRuntime) {
    let names = [name(b"7u8"), name(b"7 "), name(b"7i64")];
    answers(&rt, names, [Some("byte"), Some("none"), None]);
}
