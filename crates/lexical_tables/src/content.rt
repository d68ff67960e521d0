//! What a cell holds.

ghost use Rattle.std.specs.Prelude.{◌≡◌, ◌&&◌, ◌+◌, ◌<◌, ◌≤◌, ◌^◌, length, take, is_some};
ghost use Rattle.std.specs.List.{prefix_len, suffix_len};
ghost use Rattle.lexical_tables.specs.Readings.{text_of};
ghost use Rattle.lexical_tables.specs.Targets.{view_of_text};
ghost use Rattle.lexical_tables.specs.Cells.{content, first_quote, is_blank, view_of_cell, without_blanks, without_quotes};

use crate::cell_text::CellText;
use crate::misplaced::begins_with_quote;

// A cell, or what it holds: the place in the text at which that starts, its bytes, and what begins with them.
#[derive(Copy, Clone)]
pub(crate) struct Cell<'a> {
    pub start: usize,
    pub text: &'a [u8],
    pub ahead: &'a [u8],
}

// Whether a byte is a space or a tab.
#[inline(always)]
fn is_blank(byte: u8) -> bool
    ensures { result ≡ is_blank byte }
{
    byte == b' ' || byte == b'\t'
}

// How many blanks a text begins with.
#[inline(always)]
fn blanks_in_front(text: &[u8]) -> usize
    ensures count { result ≡ prefix_len is_blank text.now }
    ensures within { result ≤ length text.now }
{
    let mut count = 0;
    while count < text.len() && is_blank(text[count]) {
        count += 1;
    }
    count
}

// How many bytes of a text stand in front of the blanks that it ends with.
#[inline(always)]
fn end_of_content(text: &[u8]) -> usize
    ensures count { result + suffix_len is_blank text.now ≡ length text.now }
    ensures within { result ≤ length text.now }
{
    let mut count = text.len();
    while count > 0 && is_blank(text[count - 1]) {
        count -= 1;
    }
    count
}

// A cell without the blanks on both sides.
#[inline(always)]
#[tactic(auto, using(crate::proofs::MarkedCells::begins_ahead, crate::proofs::MarkedCells::ahead_long))]
fn without_blanks(cell: Cell<'_>) -> Cell<'_>
    requires fits { cell.start + length cell.text.now < 2 ^ 64 }
    requires front { cell.text.now ≡ take (length cell.text.now) cell.ahead.now }
    ensures content { view_of_cell result ≡ without_blanks (view_of_cell cell.entry) }
    ensures front { result.text.now ≡ take (length result.text.now) result.ahead.now }
    ensures within { result.start + length result.text.now
        ≤ cell.entry.start + length cell.entry.text.now }
{
    let front = blanks_in_front(cell.text);
    let rest = &cell.text[front..];
    Cell {
        start: cell.start + front,
        text: &rest[..end_of_content(rest)],
        ahead: &cell.ahead[front..],
    }
}

// A cell without its quotes, where these have a meaning.
#[inline(always)]
#[tactic(auto, using(crate::proofs::MarkedCells::begins_ahead, crate::proofs::MarkedCells::ahead_long))]
fn without_quotes(cell: Cell<'_>, has_quotes: bool) -> Cell<'_>
    requires fits { cell.start + length cell.text.now < 2 ^ 64 }
    requires front { cell.text.now ≡ take (length cell.text.now) cell.ahead.now }
    ensures content { view_of_cell result ≡ without_quotes has_quotes (view_of_cell cell.entry) }
    ensures front { result.text.now ≡ take (length result.text.now) result.ahead.now }
    ensures within { result.start + length result.text.now
        ≤ cell.entry.start + length cell.entry.text.now }
{
    if has_quotes && begins_with_quote(cell.text) {
        let rest = &cell.text[1..];
        return Cell {
            start: cell.start + 1,
            text: &rest[..rest.len().saturating_sub(1)],
            ahead: &cell.ahead[1..],
        };
    }
    cell
}

// What a cell holds, as a text, by where it stands.
#[inline(always)]
pub(crate) fn text_of(held: Cell<'_>, has_doubled_quotes: bool, has_quotes: bool) -> CellText
    requires doubled { has_doubled_quotes ≡ (has_quotes && is_some (first_quote held.text.now)) }
    ensures { view_of_text result ≡ text_of has_quotes (view_of_cell held.entry) }
{
    CellText {
        start: held.start,
        size: held.text.len(),
        has_doubled_quotes,
    }
}

// What a cell holds.
#[inline(always)]
pub(crate) fn content(cell: Cell<'_>, has_quotes: bool, allows_blanks: bool) -> Cell<'_>
    requires fits { cell.start + length cell.text.now < 2 ^ 64 }
    requires front { cell.text.now ≡ take (length cell.text.now) cell.ahead.now }
    ensures content { view_of_cell result
        ≡ content has_quotes allows_blanks (view_of_cell cell.entry) }
    ensures front { result.text.now ≡ take (length result.text.now) result.ahead.now }
    ensures within { result.start + length result.text.now
        ≤ cell.entry.start + length cell.entry.text.now }
{
    let held = without_quotes(cell, has_quotes);
    if allows_blanks {
        without_blanks(held)
    } else {
        held
    }
}
