// Whether the front that was read of a text ends with a digit.
ghost use Rattle.std.specs.Prelude.{◌≡◌};
ghost use Rattle.lexical_parse_integer.specs.Stops.{stops_after_digit};
ghost use Rattle.lexical_util.specs.Digit.{IsRadix};

use lexical_util::digit::char_is_digit;

/// Whether a digit of the radix is directly before a place: where a partial parse stopped there, whether it read
/// a digit.
///
/// A partial parse of a text without digits is no fault: under the standard format the front of `x` is `Ok((0, 0))`,
/// and that of `+a` is `Ok((0, 1))`. So where a number has to be there, call this with the place that the parse
/// returns: for `12,` and the place 2 it is true; for `x` and 0, and for `+a` and 1, it is false.
///
/// `laws::grammar::front_digits` says under which formats the answer is that of the numeral. Behind a separator or a
/// suffix it is false though digits were read.
///
/// The radix, which has to be from 2 to 36, is the one that the text was read in. Any place may be asked for.
#[inline]
#[tactic(auto, unfolding(crate::specs::Runs::digit_at))]
pub fn stops_after_digit(text: &[u8], place: usize, radix: u32) -> bool
    requires { IsRadix radix }
    ensures { result ≡ stops_after_digit radix text.now place }
{
    place > 0
        && match text.get(place - 1) {
            Some(byte) => char_is_digit(*byte, radix),
            None => false,
        }
}
