// A literal of a source: the number in front of a text, and its suffix.
ghost use Rattle.std.specs.Prelude.{◌≡◌, ◌<◌, ◌≤◌, IfOk, length};
ghost use Rattle.lexical_literals.specs.Literals.{literal_in_front_if_valid};

use crate::bytes::word_length;
use lexical_parse_integer::laws::grammar::front_end;
use lexical_parse_integer::{NumberFormat, Result, number_in_front};

/// A literal that a text begins with. Its suffix, as the `u32` of `1u32`, is the text from `number_stop` to before
/// `stop`, and empty where the two are one. Places count the text's bytes from 0.
#[derive(Debug, PartialEq, Eq, Copy, Clone)]
pub struct Literal {
    /// The value of its number.
    pub value: u128,
    /// The place behind its number, at which its suffix begins.
    pub number_stop: usize,
    /// The place behind its suffix.
    pub stop: usize,
}

/// The literal that a text begins with: the number in front of it under a format, and the suffix, which is all ASCII
/// letters, `0` to `9` and `_` that follow.
///
/// Under `rust` of `lexical_formats`, `1_000i64;` is 1000, its number ends at 5, and its suffix is `i64`. A letter that
/// is a digit of the number is no part of the suffix: `0xFFu` has the suffix `u`, and `0xFFf` has none. The caller has
/// to check whether the language has the suffix: `1e5` is 1 with the suffix `e5`, and `0b102` is 2 with the suffix `2`.
/// It has to check what follows a literal too: behind the 1 of `1.5` stands a point.
///
/// Faults are those of the number in front as a `u128`: `Overflow` if it is too great, `Empty` if it has no digit.
pub fn literal_in_front(text: &[u8], format: &NumberFormat) -> Result<Literal>
    ensures literal { result ≡ literal_in_front_if_valid format.now text.now }
    ensures order { IfOk result (λ found. found.number_stop ≤ found.stop) }
    ensures within { IfOk result (λ found. found.stop ≤ length text.now) }
{
    // The law by which a number ends within the text.
    front_end();
    let (value, number_stop) = number_in_front::<u128>(text, format)?;
    let (_, behind) = text.split_at(number_stop);
    Ok(Literal {
        value,
        number_stop,
        stop: number_stop + word_length(behind),
    })
}
