// Decimal digits, which most numbers of a source are. They are read under the standard format, which is faster,
// wherever the source's own format has the same answer.
ghost use Rattle.std.specs.Prelude.{◌≡◌, ◌<◌, IsNone, IsTrue, Ok, Some, false, is_some, length, pos, slice_index, true, None};
ghost use Rattle.lexical_util.specs.Ascii.{digit_zero};
ghost use Rattle.lexical_util.specs.Digit.{digit};
ghost use Rattle.lexical_util.specs.Format.{Format};
ghost use Rattle.lexical_util.specs.Number.{integer_type};
ghost use Rattle.lexical_util.specs.Validity.{fault};
ghost use Rattle.lexical_parse_integer.specs.Affixes.{prefix_radix};
ghost use Rattle.lexical_parse_integer.specs.Grammar.{partial};
ghost use Rattle.lexical_literals.specs.Decimal.{ReadsDecimals, zero_leads};

use crate::groups::{decimal_groups, has_digit, separator_at};
use lexical_parse_integer::laws::grammar::wider_types;
use lexical_parse_integer::quick::front_if_plain;
use lexical_parse_integer::{NumberFormat, format};

// Whether the format reads decimal digits alone as the standard one does, but for zeros in front.
pub(crate) fn reads_decimals(format: &NumberFormat) -> bool
    ensures { IsTrue result → ReadsDecimals format.now }
{
    format.radix() == 10
        && !format.required_mantissa_sign()
        && format.base_prefix().is_none()
        && format.base_suffix().is_none()
}

// Whether the text begins with a zero in front of another digit or a separator, and the format has a rule for zeros in
// front: it forbids them, or reads them as octal.
#[inline(always)]
pub(crate) fn zero_leads(text: &[u8], format: &NumberFormat) -> bool
    requires { 0 < length text.now }
    ensures { result ≡ zero_leads format.now text.now }
{
    if text[0] != b'0' {
        return false;
    }
    if !format.no_integer_leading_zeros() && !format.literal_octal_zero() {
        return false;
    }
    has_digit(text, 10, 1) || separator_at(text, 1, format).is_some()
}

// Whether a text may begin with a literal prefix: with a zero, and behind it a byte above all digits.
#[inline(always)]
pub(crate) fn seems_prefixed(text: &[u8]) -> bool
    requires { 0 < length text.now }
    ensures zero { IsTrue result → slice_index text.now 0 ≡ digit_zero }
    ensures more { IsTrue result → 1 < length text.now }
    ensures bare { result ≡ false → (format : Format) → ReadsDecimals format
        → prefix_radix format text.now 0 ≡ None }
{
    if text[0] != b'0' {
        return false;
    }
    if text.len() < 2 {
        return false;
    }
    text[1] > b'9'
}

// The number of the digits that a text without a prefix begins with, and how many bytes it has, or 0 bytes where it
// doesn't fit in 64 bits. Out of line, so that words and blanks don't pay for it.
#[inline(never)]
pub(crate) fn front_of_decimal(text: &[u8], format: &NumberFormat) -> (u64, usize)
    requires first { is_some (digit 10 (slice_index text.now 0)) ≡ true }
    requires valid { IsNone (fault format.now) }
    requires decimal { ReadsDecimals format.now }
    requires bare { prefix_radix format.now text.now 0 ≡ None }
    requires zeros { zero_leads format.now text.now ≡ false }
    ensures { 0 < result.1
        → partial format.now (integer_type 128 false) text.now ≡ Ok (pos result.0, result.1) }
{
    // The law by which a number of 64 bits is read alike as one of 128.
    wider_types();
    let Some((value, count)) = front_if_plain::<u64>(text, &format::STANDARD) else {
        return (0, 0);
    };
    match separator_at(text, count, format) {
        Some(separator) => decimal_groups(text, format, separator, value, count),
        None => (value, count),
    }
}
