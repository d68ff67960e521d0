// Where a byte first stands outside quotes.
ghost use Rattle.std.specs.Prelude.{◌≡◌, ◌≢◌, ◌==◌, ◌||◌, ◌<◌, ◌≤◌, ℕ, IfSome, IsTrue, length, not, slice_index, take};
ghost use Rattle.std.specs.Int.{bit_at};
ghost use Rattle.lexical_fields.specs.Fields.{field_length};
ghost use Rattle.lexical_tables.specs.Quotes.{hidden, length_outside, quote};
ghost use Rattle.lexical_tables.specs.Looks.{IsPassed};

pub(crate) mod looks;
pub(crate) mod parities;

use self::looks::look_at_16;
use lexical_fields::{field_length, lowest_mark, marks_among_16, next_marks, split_marked};

// How many bytes stand before the first separator outside quotes, or in the text where there is none. Where quotes have
// a meaning, a separator as the first byte, as at an empty row, is answered without a call.
#[inline(always)]
pub(crate) fn length_outside(text: &[u8], separator: u8, has_quotes: bool) -> usize
    ensures value { result ≡ length_outside has_quotes separator text.now }
    ensures within { result ≤ length text.now }
{
    if !has_quotes || separator == b'"' {
        return marked_length(text, separator);
    }
    if !text.is_empty() && text[0] == separator {
        return 0;
    }
    quoted_length(text, separator)
}

// `length_outside` where quotes have no meaning: by one look at 64 bytes, since most lines end among these.
#[inline(always)]
fn marked_length(text: &[u8], separator: u8) -> usize
    ensures value { result ≡ field_length separator text.now }
    ensures within { result ≤ length text.now }
{
    let marks = next_marks(text, 0, separator);
    if marks == 0 {
        return field_length(text, separator);
    }
    split_marked(text, marks, separator).0
}

// `length_outside` where quotes have a meaning: by a look at sixteen bytes, and then by a loop. Out of line, since the
// loop needs more registers.
#[inline(never)]
fn quoted_length(text: &[u8], separator: u8) -> usize
    ensures value { result ≡ field_length separator (hidden separator text.now) }
    ensures within { result ≤ length text.now }
{
    if text.len() < 16 {
        return length_by_bytes(text, separator, 0, false);
    }
    let look = look_at_16(text, 0, separator, false);
    if look.found != 0 {
        return lowest_mark(look.found);
    }
    length_by_16(text, separator, 16, look.is_within)
}

// The length of the cell that the text begins with, of which the first `passed` bytes are known: sixteen bytes at a time.
#[inline(always)]
fn length_by_16(text: &[u8], separator: u8, passed: usize, was_within: bool) -> usize
    requires passed { IsPassed separator text.now passed was_within }
    ensures value { result ≡ field_length separator (hidden separator text.now) }
    ensures within { result ≤ length text.now }
{
    let mut place = passed;
    let mut is_within = was_within;
    while text.len() - place >= 16 {
        let look = look_at_16(text, place, separator, is_within);
        if look.found != 0 {
            return place + lowest_mark(look.found);
        }
        is_within = look.is_within;
        place += 16;
    }
    length_by_bytes(text, separator, place, is_within)
}

// Whether a byte is stepped over in search of a separator: it is another, or stands within quotes.
#[inline(always)]
fn is_stepped_over(byte: u8, separator: u8, is_within: bool) -> bool
    ensures { result ≡ (is_within || not (byte == separator)) }
{
    is_within || byte != separator
}

// The length of the cell that the text begins with, of which the first `passed` bytes are known: byte by byte.
#[inline(always)]
fn length_by_bytes(text: &[u8], separator: u8, passed: usize, was_within: bool) -> usize
    requires passed { IsPassed separator text.now passed was_within }
    ensures value { result ≡ field_length separator (hidden separator text.now) }
    ensures within { result ≤ length text.now }
{
    let mut place = passed;
    let mut is_within = was_within;
    while place < text.len() && is_stepped_over(text[place], separator, is_within) {
        is_within = is_within != (text[place] == b'"');
        place += 1;
    }
    place
}

// Whether no mark stands below a place.
#[inline(always)]
fn has_none_below(marks: u64, place: usize) -> bool
    ensures { IsTrue result → (k : ℕ) → k < place → bit_at marks k ≡ 0 }
{
    marks == 0 || lowest_mark(marks) >= place
}

// Whether one look at sixteen bytes shows that none of a text's first `size` bytes is a quote.
#[inline(always)]
pub(crate) fn shows_no_quote(text: &[u8], size: usize) -> bool
    requires room { 16 ≤ length text.now }
    ensures { IsTrue result → (k : ℕ) → k < size → slice_index text.now k ≢ quote }
{
    if size > 16 {
        return false;
    }
    has_none_below(marks_among_16(&text[..16], b'"'), size)
}

// How many bytes the first cell of what is left of a row has, and whether it was seen that none of them is a quote, if
// sixteen bytes show its end, as they do for most cells. `ahead` begins with `rest`.
#[inline(always)]
pub(crate) fn near_length(rest: &[u8], ahead: &[u8], separator: u8) -> Option<(usize, bool)>
    requires rest { rest.now ≡ take (length rest.now) ahead.now }
    ensures value { IfSome result
        (λ found. found.0 ≡ field_length separator (hidden separator rest.now)) }
    ensures within { IfSome result (λ found. found.0 ≤ length rest.now) }
    ensures no_quote { IfSome result (λ found. IsTrue found.1
        → (k : ℕ) → k < found.0 → slice_index rest.now k ≢ quote) }
{
    if ahead.len() < 16 {
        return None;
    }
    let look = look_at_16(ahead, 0, separator, false);
    if look.found == 0 {
        if rest.len() > 16 {
            return None;
        }
        return Some((rest.len(), has_none_below(look.quotes, rest.len())));
    }
    let size = lowest_mark(look.found).min(rest.len());
    Some((size, has_none_below(look.quotes, size)))
}
