//! Whether the quotes of a cell are in place.

ghost use Rattle.std.specs.Prelude.{◌≡◌, ◌≢◌, ◌&&◌, ◌+◌, ◌-◌, ◌<◌, ◌≤◌, ◌^◌, ℕ, length, take, drop, slice_index, false, true, is_some, IfSome, IsNone, None};
ghost use Rattle.lexical_tables.specs.Cells.{begins_with_quote, content, fault_round_number, fault_round_text, first_quote, misplaced_quote, quote_fault, view_of_cell};
ghost use Rattle.lexical_tables.specs.Quotes.{quote};

use crate::answers::CellFault;
use crate::content::Cell;
use lexical_fields::field_length;

// Whether a text's first byte is a quote.
#[inline(always)]
pub(crate) fn begins_with_quote(text: &[u8]) -> bool
    ensures { result ≡ begins_with_quote text.now }
{
    !text.is_empty() && text[0] == b'"'
}

// The place of a text's first quote.
#[inline(always)]
pub(crate) fn first_quote(text: &[u8]) -> Option<usize>
    ensures place { result ≡ first_quote text.now }
    ensures within { IfSome result (λ place. place < length text.now) }
{
    let place = field_length(text, b'"');
    if place < text.len() {
        Some(place)
    } else {
        None
    }
}

// The quote out of place in a text that begins with one, if a number is read within.
fn fault_round_number(text: &[u8]) -> Option<usize>
    requires some { 0 < length text.now }
    ensures place { result ≡ fault_round_number (length text.now) (first_quote (drop 1 text.now)) }
    ensures within { IfSome result (λ place. place < length text.now) }
{
    match first_quote(&text[1..]) {
        None => Some(0),
        Some(place) if place + 2 == text.len() => None,
        Some(place) => Some(place + 1),
    }
}

// The place of a text's first quote at or behind a place, or the text's length where there is none.
#[inline(always)]
fn next_quote(text: &[u8], place: usize) -> usize
    requires place { place ≤ length text.now }
    ensures from { place ≤ result }
    ensures within { result ≤ length text.now }
    ensures before { (k : ℕ) → place ≤ k → k < result → slice_index text.now k ≢ quote }
    ensures found { result < length text.now → slice_index text.now result ≡ quote }
{
    place + field_length(&text[place..], b'"')
}

// The quote out of place in a text that begins with one, if no number is read of it: from quote to
// quote, since most bytes are none.
fn fault_round_text(text: &[u8]) -> Option<usize>
    requires quoted { begins_with_quote text.now ≡ true }
    ensures place { result ≡ fault_round_text text.now }
    ensures within { IfSome result (λ place. place < length text.now) }
{
    let mut place = 1;
    while place < text.len() {
        let end = next_quote(text, place);
        if end == text.len() {
            return Some(0);
        }
        if end + 1 == text.len() {
            return None;
        }
        if text[end + 1] != b'"' {
            return Some(end);
        }
        place = end + 2;
    }
    Some(0)
}

// Whether doubled quotes stand within those round a text that begins with one, if all are in place: the next quote is mostly the
// last byte, and then no other search is made.
#[inline(always)]
fn doubled_round_text(text: &[u8]) -> Option<bool>
    requires quoted { begins_with_quote text.now ≡ true }
    ensures fine { IfSome result (λ doubled. fault_round_text text.now ≡ None) }
    ensures doubled { IfSome result (λ doubled. doubled
        ≡ is_some (first_quote (take (length (drop 1 text.now) - 1) (drop 1 text.now)))) }
    ensures wrong { IsNone result → is_some (fault_round_text text.now) ≡ true }
{
    if next_quote(text, 1) + 1 == text.len() {
        return Some(false);
    }
    match fault_round_text(text) {
        None => Some(true),
        Some(_) => None,
    }
}

// Whether doubled quotes stand in what a cell holds as a text, if the cell's quotes are in place, where these have a meaning.
#[inline(always)]
pub(crate) fn doubled_quotes(has_quotes: bool, cell: Cell<'_>) -> Option<bool>
    ensures fine { IfSome result
        (λ doubled. quote_fault has_quotes false (view_of_cell cell.entry) ≡ None) }
    ensures doubled { IfSome result (λ doubled. doubled ≡ (has_quotes
        && is_some (first_quote (content has_quotes false (view_of_cell cell.entry)).text))) }
    ensures wrong { IsNone result
        → is_some (quote_fault has_quotes false (view_of_cell cell.entry)) ≡ true }
{
    if has_quotes && begins_with_quote(cell.text) {
        return doubled_round_text(cell.text);
    }
    if has_quotes && first_quote(cell.text).is_some() {
        return None;
    }
    Some(false)
}

// The first quote out of place in a text.
#[inline(always)]
fn misplaced_quote(is_number: bool, text: &[u8]) -> Option<usize>
    ensures place { result ≡ misplaced_quote is_number text.now }
    ensures within { IfSome result (λ place. place < length text.now) }
{
    if !begins_with_quote(text) {
        first_quote(text)
    } else if is_number {
        fault_round_number(text)
    } else {
        fault_round_text(text)
    }
}

// The fault of a cell's quotes, where these have a meaning.
#[inline(always)]
pub(crate) fn quote_fault(has_quotes: bool, is_number: bool, cell: Cell<'_>) -> Option<CellFault>
    requires fits { cell.start + length cell.text.now < 2 ^ 64 }
    ensures { result ≡ quote_fault has_quotes is_number (view_of_cell cell.entry) }
{
    if !has_quotes {
        return None;
    }
    match misplaced_quote(is_number, cell.text) {
        Some(place) => Some(CellFault::MisplacedQuote(cell.start + place)),
        None => None,
    }
}
