//! The next cell of a row, found by marks.

ghost use Rattle.std.specs.Prelude.{◌≡◌, ◌≢◌, ◌==◌, ◌&&◌, ◌+◌, ◌-◌, ◌/◌, ◌^◌, ◌<◌, ◌≤◌, IfSome, false, drop, length, slice_index, take, true};
ghost use Rattle.lexical_tables.specs.Ends.{AreEnds, IsFirstEnd};
ghost use Rattle.lexical_tables.specs.RowSoFar.{IsBehind, IsMarked, IsOnRow, IsPart};
ghost use Rattle.lexical_tables.specs.Rows.{carriage_return, line_feed};

use crate::dialect::Dialect;
use crate::ends::{far_end, first_end};

// What is left of a text, and the marks of where its first cells end.
#[derive(Copy, Clone)]
pub(crate) struct Left<'a> {
    pub text: &'a [u8],
    pub marks: u64,
}

// A cell: how many bytes it has, the place of what ends it, and whether it is its row's last.
#[derive(Copy, Clone)]
pub(crate) struct Part {
    pub size: usize,
    pub end: usize,
    pub is_last: bool,
}

// A cell that was found, and what is left of the text behind it.
#[derive(Copy, Clone)]
pub(crate) struct Found<'a> {
    pub part: Part,
    pub behind: Left<'a>,
}

// What is left of a text behind a cell that ends at a place.
#[inline(always)]
pub(crate) fn behind_part(left: Left<'_>, end: usize) -> Left<'_>
    requires within { end < length left.text.now }
    requires few { end < 63 }
    ensures text { result.text.now ≡ drop (end + 1) left.entry.text.now }
    ensures marks { result.marks ≡ left.entry.marks / 2 ^ (end + 1) }
{
    let size = end + 1;
    Left {
        text: &left.text[size..],
        marks: left.marks >> size,
    }
}

// How many bytes a row's last cell has if its line feed is at `end`: a return in front of that is
// none of them, if one may stand there.
#[inline(always)]
fn last_size(left: &[u8], end: usize, takes_returns: bool) -> usize
    requires end { end ≤ length left.now }
    ensures within { result ≤ end }
    ensures cell { takes_returns ≡ false → result ≡ end }
    ensures bare { takes_returns ≡ true → result ≡ end → 0 < end
        → slice_index left.now (end - 1) ≢ carriage_return }
    ensures returned { result ≢ end → (result + 1 ≡ end)
        × (slice_index left.now result ≡ carriage_return) × (takes_returns ≡ true) }
{
    if !takes_returns {
        return end;
    }
    if end == 0 {
        return end;
    }
    if left[end - 1] != b'\r' {
        return end;
    }
    end - 1
}

// Whether a row lacks the return that it should have: a line feed stands directly behind its last
// cell, the first `size` bytes of `left`.
#[inline(always)]
pub(crate) fn lacks_return(left: &[u8], size: usize, has_returns: bool) -> bool
    requires { size < length left.now }
    ensures { result ≡ (has_returns && (slice_index left.now size == line_feed)) }
{
    has_returns && left[size] == b'\n'
}

// The next cell of the first row of a text, by where the cell ends. `left` is the text from the
// cell on.
#[inline(always)]
fn part_to(text: &[u8], left: &[u8], end: usize, separator: u8, dialect: &Dialect<'_>) -> Part
    requires end { IsFirstEnd dialect.now.has_quotes separator left.now end }
    requires here { IsOnRow dialect.now separator text.now left.now }
    requires marked { IsMarked dialect.now separator }
    ensures part { IsPart dialect.now separator text.now left.now result }
    ensures end { result.end ≡ end }
{
    if left[end] != b'\n' {
        return Part {
            size: end,
            end,
            is_last: false,
        };
    }
    let size = last_size(left, end, dialect.takes_returns());
    Part {
        size,
        end,
        is_last: true,
    }
}

// The next cell of the first row of a text, by the marks of `left`, the text from the cell on.
#[inline(always)]
pub(crate) fn next_part(
    text: &[u8],
    left: &[u8],
    marks: u64,
    separator: u8,
    dialect: &Dialect<'_>,
) -> Part
    requires some { marks ≢ 0 }
    requires marks { AreEnds dialect.now.has_quotes separator left.now marks }
    requires here { IsOnRow dialect.now separator text.now left.now }
    requires marked { IsMarked dialect.now separator }
    ensures part { IsPart dialect.now separator text.now left.now result }
    ensures few { result.end < 63 }
    ensures ends { AreEnds dialect.now.has_quotes separator (drop (result.end + 1) left.now)
        (marks / 2 ^ (result.end + 1)) }
{
    let end = first_end(left, marks, separator, dialect.has_quotes);
    part_to(text, left, end, separator, dialect)
}

// The next cell of the first row of a text, if it ends in front of the text's last bytes. `left` is
// the text from the cell on.
#[inline(always)]
fn far_part<'a>(
    text: &[u8],
    left: &'a [u8],
    separator: u8,
    dialect: &Dialect<'_>,
) -> Option<Found<'a>>
    requires here { IsOnRow dialect.now separator text.now left.now }
    requires marked { IsMarked dialect.now separator }
    ensures part { IfSome result
        (λ found. IsPart dialect.now separator text.now left.now found.part) }
    ensures behind { IfSome result (λ found. IsBehind dialect.now separator left.now
        found.part.end found.behind.text.now found.behind.marks) }
{
    match far_end(left, separator, dialect.has_quotes) {
        None => None,
        Some(far) => Some(Found {
            part: part_to(text, left, far.end, separator, dialect),
            behind: Left {
                text: &left[far.end + 1..],
                marks: far.marks,
            },
        }),
    }
}

// The next cell of the first row of a text. It is found by the marks of `left`, the text from the
// cell on, or, if there is none, by looks at the bytes behind them.
#[inline(always)]
pub(crate) fn found_part<'a>(
    text: &[u8],
    left: Left<'a>,
    separator: u8,
    dialect: &Dialect<'_>,
) -> Option<Found<'a>>
    requires marks { AreEnds dialect.now.has_quotes separator left.text.now left.marks }
    requires here { IsOnRow dialect.now separator text.now left.text.now }
    requires marked { IsMarked dialect.now separator }
    ensures part { IfSome result
        (λ found. IsPart dialect.now separator text.now left.entry.text.now found.part) }
    ensures behind { IfSome result (λ found. IsBehind dialect.now separator left.entry.text.now
        found.part.end found.behind.text.now found.behind.marks) }
{
    if left.marks == 0 {
        return far_part(text, left.text, separator, dialect);
    }
    let part = next_part(text, left.text, left.marks, separator, dialect);
    Some(Found {
        part,
        behind: behind_part(left, part.end),
    })
}
