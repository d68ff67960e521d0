//! The header of a table.

ghost use Rattle.std.specs.Prelude.{◌≡◌, ◌+◌, ◌-◌, ◌≤◌, ◌<◌, length, drop};
ghost use Rattle.lexical_tables.specs.Header.{behind_lines, header_length};
ghost use Rattle.lexical_tables.specs.Quotes.{has_odd_quotes};

use crate::dialect::Dialect;
use crate::rows::split;

// Whether a text has an odd number of quotes.
fn has_odd_quotes(text: &[u8]) -> bool
    ensures { result ≡ has_odd_quotes text.now }
{
    let mut place = 0;
    let mut odd = false;
    while place < text.len() {
        odd = odd != (text[place] == b'"');
        place += 1;
    }
    odd
}

// What a text has behind its first line.
fn behind_line(text: &[u8], has_quotes: bool) -> &[u8]
    ensures behind { result.now ≡ drop (header_length has_quotes text.now + 1) text.now }
    ensures left { length result.now ≤ length text.now }
    ensures shorter { 0 < length text.now → length result.now < length text.now }
{
    let (line, behind) = split(text, b'\n', has_quotes);
    if has_odd_quotes(line) {
        split(text, b'\n', false).1
    } else {
        behind
    }
}

/// The place behind the first `count` lines of a text, or its end if it has fewer.
///
/// If a table has a header of `count` lines, its rows begin there. Of the dialect only `has_quotes`
/// counts: then a line feed within quotes ends no line, unless they never close. What else stands
/// in the header isn't judged.
///
/// With quotes the place behind one line of `"width\nin mm",2\n1,2\n` is 16, and of `width 5",2\n1,2\n` it is 11.
pub fn after_lines(text: &[u8], count: usize, dialect: &Dialect<'_>) -> usize
    ensures value { result ≡ length text.now
        - length (behind_lines dialect.now.has_quotes count text.now) }
    ensures within { result ≤ length text.now }
{
    let mut rest = text;
    let mut left = count;
    while left > 0 && !rest.is_empty() {
        rest = behind_line(rest, dialect.has_quotes);
        left -= 1;
    }
    text.len() - rest.len()
}
