// The first field of a text, and what is behind it.
ghost use Rattle.std.specs.Prelude.{◌≡◌, ◌≢◌, ◌+◌, ◌<◌, ◌≤◌, ℕ, length, take, drop, slice_index};
ghost use Rattle.lexical_fields.specs.Fields.{field_length};

use crate::search::first_of_16;

/// How many bytes the first field has: those before the first separator, or all where there is none.
///
/// A caller can use it to cut a text without reading numbers: the first line of a text is its first field if the
/// separator is `\n`.
#[inline(always)]
pub fn field_length(text: &[u8], separator: u8) -> usize
    ensures value { result ≡ field_length separator text.now }
    ensures within { result ≤ length text.now }
    ensures before { (k : ℕ) → k < result → slice_index text.now k ≢ separator }
    ensures found { result < length text.now → slice_index text.now result ≡ separator }
{
    let mut start = 0;
    while text.len() - start >= 16 {
        if let Some(place) = first_of_16(&text[start..start + 16], separator) {
            return start + place;
        }
        start += 16;
    }
    end_from(text, separator, start)
}

// Where the first field ends, if no separator stands before a place.
#[inline(always)]
fn end_from(text: &[u8], separator: u8, start: usize) -> usize
    requires start { start ≤ length text.now }
    requires none { (k : ℕ) → k < start → slice_index text.now k ≢ separator }
    ensures within { result ≤ length text.now }
    ensures before { (k : ℕ) → k < result → slice_index text.now k ≢ separator }
    ensures found { result < length text.now → slice_index text.now result ≡ separator }
{
    for i in start..text.len() {
        if text[i] == separator {
            return i;
        }
    }
    text.len()
}

// The first field, and what is behind its separator.
#[inline(always)]
pub(crate) fn split_field(text: &[u8], separator: u8) -> (&[u8], &[u8])
    ensures field { result.0.now ≡ take (field_length separator text.now) text.now }
    ensures behind { result.1.now ≡ drop (field_length separator text.now + 1) text.now }
    ensures within { length result.0.now ≤ length text.now }
    ensures shorter { length result.1.now ≤ length text.now }
{
    let (field, behind) = text.split_at(field_length(text, separator));
    if behind.is_empty() {
        (field, behind)
    } else {
        (field, &behind[1..])
    }
}
