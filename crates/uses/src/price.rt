//! A price in front of a text, and what stands behind it: `1.234,50 EUR` is 123450 cents and ` EUR`.

ghost use Rattle.std.specs.Prelude.{◌≡◌};
ghost use Rattle.lexical_parse_integer.specs.Answer.{view_of};
ghost use Rattle.uses.specs.Price.{amounts, price_in, view_of_price};

use lexical_fixed::laws::front_end;
use lexical_fixed::{Error, FixedFormat, NumberFormatBuilder, ParseFixed};

/// What a text begins with.
#[derive(Debug, Copy, Clone, PartialEq, Eq)]
pub struct Price<'a> {
    /// The amount in cents.
    pub cents: i64,
    /// What stands behind it.
    pub rest: &'a [u8],
}

/// Amounts with exactly two places behind a `,`, and a `.` between groups of digits if there are any.
pub fn amounts() -> FixedFormat
    ensures { result ≡ amounts }
{
    FixedFormat {
        point: b',',
        places: 2,
        takes_fewer: false,
        integer: NumberFormatBuilder::new()
            .digit_separator(Some(b'.'))
            .integer_internal_digit_separator(true)
            .build_strict(),
    }
}

impl<'a> Price<'a> {
    /// The price that a text begins with.
    ///
    /// `-0,05;` is -5 cents and `;`. `12,5 EUR` gives `Empty(4)`, since a place is missing, and `12,505` gives
    /// `InvalidDigit(5)`: no digit is dropped.
    #[tactic(auto, unfolding(lexical_parse_integer::specs::Runs::are_same))]
    pub fn of(text: &'a [u8]) -> Result<Price<'a>, Error>
        ensures { view_of view_of_price result ≡ price_in text.now }
    {
        // The law by which the amount ends within the text.
        front_end();
        match i64::parse_fixed_partial(text, &amounts()) {
            Ok((cents, place)) => Ok(Price {
                cents,
                rest: &text[place..],
            }),
            Err(error) => Err(error),
        }
    }
}
