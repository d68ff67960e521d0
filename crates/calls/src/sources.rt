//! Calls on a source: its tokens, its literals, and the lines of `lexint`.

use crate::seen::Seen;
use crate::turns::Call;
use answer_lines::run;
use lexical_literals::{Kind, Tokens, literal_in_front};
use lexical_parse_integer::NumberFormat;

// Adds the tokens of a source: their numbers and faults, and where each ends.
#[inline(always)]
fn take_tokens(seen: &mut Seen, tokens: Tokens<'_>) {
    for token in tokens {
        seen.take_place(token.stop);
        match token.kind {
            Kind::Number(value) => seen.take(&value),
            Kind::Fault(error) => seen.take_error(error),
            Kind::Word | Kind::Byte => {}
        }
    }
}

/// `Tokens::new`, to the last.
#[derive(Drop)]
pub struct EachToken;

impl Call<u128> for EachToken {
    #[inline(always)]
    fn once(&mut self, text: &[u8], seen: &mut Seen) {
        take_tokens(seen, Tokens::new(text));
    }
}

/// `Tokens::with_format`, to the last.
#[derive(Drop)]
pub struct EachTokenUnder {
    pub format: NumberFormat,
}

impl Call<u128> for EachTokenUnder {
    #[inline(always)]
    fn once(&mut self, text: &[u8], seen: &mut Seen) {
        match Tokens::with_format(text, &self.format) {
            Ok(tokens) => take_tokens(seen, tokens),
            Err(error) => seen.take_error(error),
        }
    }
}

/// `literal_in_front`.
#[derive(Drop)]
pub struct LiteralInFront {
    pub format: NumberFormat,
}

impl Call<u128> for LiteralInFront {
    #[inline(always)]
    fn once(&mut self, text: &[u8], seen: &mut Seen) {
        match literal_in_front(text, &self.format) {
            Ok(literal) => {
                seen.take(&literal.value);
                seen.take_place(literal.number_stop);
                seen.take_place(literal.stop);
            }
            Err(error) => seen.take_error(error),
        }
    }
}

/// `answer_lines::run`, which is all of `lexint` but its reads and writes.
#[derive(Drop)]
pub struct EachLine;

impl Call<u64> for EachLine {
    #[inline(always)]
    fn once(&mut self, text: &[u8], seen: &mut Seen) {
        if run(text, seen).is_err() {
            seen.take_place(1);
        }
    }
}
