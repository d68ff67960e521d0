//! The cells of a row, found one after another.

ghost use Rattle.std.specs.Prelude.{◌≡◌, ◌≢◌, ◌==◌, ◌+◌, ◌-◌, ◌<◌, ◌≤◌, ◌^◌, ℕ, [], ◌∷◌, IsTrue, None, false, length, take, drop, slice_index, if◌then◌else◌};
ghost use Rattle.lexical_tables.specs.ByColumn.{cells_by_width, cells_left, column_count, lacks_cell, lacks_width, separator_of};
ghost use Rattle.lexical_tables.specs.RowCells.{most_cells};
ghost use Rattle.lexical_tables.specs.Quotes.{length_outside, quote};

use crate::dialect::{Dialect, Layout};
use crate::quotes::near_length;
use crate::rows::split;

// How many columns a table has.
#[inline(always)]
pub(crate) fn column_count(dialect: &Dialect<'_>) -> usize
    ensures { result ≡ column_count dialect.now.layout }
{
    match dialect.layout {
        Layout::Separated { columns, .. } => columns,
        Layout::Widths { widths } | Layout::Records { widths } => widths.len(),
    }
}

// Whether what is left of a row has no cell of the next width: it has fewer bytes than the width, or no byte, if no
// width is left.
#[inline(always)]
fn lacks_width(text: &[u8], column: usize, widths: &[usize]) -> bool
    ensures lacks { result ≡ lacks_width (drop column widths.now) text.now }
    ensures fits { length widths.now + 1 < 2 ^ 64 }
{
    if column < widths.len() {
        text.len() < widths[column]
    } else {
        text.is_empty()
    }
}

// Whether what is left of a row behind its first `column` cells has no cell.
#[inline(always)]
pub(crate) fn lacks_cell(text: &[u8], column: usize, dialect: &Dialect<'_>) -> bool
    ensures lacks { result ≡ lacks_cell dialect.now.layout column text.now }
    ensures fits { most_cells dialect.now.layout (length text.now) < 2 ^ 64 }
{
    match dialect.layout {
        Layout::Separated { .. } => false,
        Layout::Widths { widths } | Layout::Records { widths } => lacks_width(text, column, widths),
    }
}

// A cell, what is left of its row behind it, whether no cell is left, and whether the cell was seen to have no quote.
#[derive(Copy, Clone)]
pub(crate) struct NextCell<'a> {
    pub text: &'a [u8],
    pub behind: &'a [u8],
    pub ended: bool,
    pub has_no_quote: bool,
}

// The first cell of what is left of a row behind its first `column` cells, by its width. It has to
// be wholly there.
#[inline(always)]
pub(crate) fn wide_cell<'a>(rest: &'a [u8], column: usize, widths: &[usize]) -> NextCell<'a>
    requires column { column < length widths.now }
    requires there { lacks_width (drop column widths.now) rest.now ≡ false }
    ensures cells { (place : ℕ) → cells_by_width (drop column widths.now) place rest.now
        ≡ record { start = place; text = result.text.now } ∷ (if result.ended then []
        else cells_by_width (drop (column + 1) widths.now)
        (place + (length rest.now - length result.behind.now)) result.behind.now) }
    ensures ended { result.ended
        ≡ lacks_width (drop (column + 1) widths.now) result.behind.now }
    ensures front { result.text.now ≡ take (length result.text.now) rest.now }
    ensures within { length result.text.now ≤ length rest.now }
    ensures left { length result.behind.now ≤ length rest.now }
    ensures tail { result.behind.now
        ≡ drop (length rest.now - length result.behind.now) rest.now }
    ensures unseen { result.has_no_quote ≡ false }
{
    let (text, behind) = rest.split_at(widths[column]);
    NextCell {
        text,
        behind,
        ended: lacks_width(behind, column + 1, widths),
        has_no_quote: false,
    }
}

// The first cell of what is left of a row, by its `size`. `has_no_quote` says whether it was seen
// that none of its bytes is a quote.
#[inline(always)]
pub(crate) fn sized_cell(rest: &[u8], size: usize, has_no_quote: bool) -> NextCell<'_>
    requires within { size ≤ length rest.now }
    ensures front { result.text.now ≡ take size rest.now }
    ensures behind { result.behind.now ≡ drop (size + 1) rest.now }
    ensures within { length result.text.now ≤ length rest.now }
    ensures size { length result.text.now ≡ size }
    ensures left { length result.behind.now ≤ length rest.now }
    ensures ended { result.ended ≡ (length result.text.now == length rest.now) }
    ensures seen { result.has_no_quote ≡ has_no_quote }
{
    if size == rest.len() {
        return NextCell {
            text: rest,
            behind: &rest[size..],
            ended: true,
            has_no_quote,
        };
    }
    NextCell {
        text: &rest[..size],
        behind: &rest[size + 1..],
        ended: false,
        has_no_quote,
    }
}

// The first cell of what is left of a row, found by searching for its separator. `ahead` begins
// with what is left.
#[inline(always)]
pub(crate) fn parted_cell<'a>(
    rest: &'a [u8],
    ahead: &[u8],
    separator: u8,
    has_quotes: bool,
) -> NextCell<'a>
    requires rest { rest.now ≡ take (length rest.now) ahead.now }
    ensures front { result.text.now
        ≡ take (length_outside has_quotes separator rest.now) rest.now }
    ensures behind { result.behind.now
        ≡ drop (length_outside has_quotes separator rest.now + 1) rest.now }
    ensures within { length result.text.now ≤ length rest.now }
    ensures size { length result.text.now ≡ length_outside has_quotes separator rest.now }
    ensures left { length result.behind.now ≤ length rest.now }
    ensures ended { result.ended ≡ (length result.text.now == length rest.now) }
    ensures no_quote { IsTrue result.has_no_quote → (k : ℕ) → k < length result.text.now
        → slice_index result.text.now k ≢ quote }
{
    if has_quotes && separator != b'"' {
        if let Some((size, has_no_quote)) = near_length(rest, ahead, separator) {
            return sized_cell(rest, size, has_no_quote);
        }
    }
    let (text, behind) = split(rest, separator, has_quotes);
    NextCell {
        text,
        behind,
        ended: text.len() == rest.len(),
        has_no_quote: false,
    }
}

// The first cell of what is left of a row behind its first `column` cells. There has to be one.
// `ahead` begins with what is left.
#[inline(always)]
pub(crate) fn next_cell<'a>(
    rest: &'a [u8],
    ahead: &[u8],
    column: usize,
    dialect: &Dialect<'_>,
) -> NextCell<'a>
    requires rest { rest.now ≡ take (length rest.now) ahead.now }
    requires column { column < column_count dialect.now.layout }
    requires there { lacks_cell dialect.now.layout column rest.now ≡ false }
    ensures cells { (place : ℕ)
        → cells_left dialect.now.layout dialect.now.has_quotes column place rest.now
        ≡ record { start = place; text = result.text.now } ∷ (if result.ended then []
        else cells_left dialect.now.layout dialect.now.has_quotes (column + 1)
        (place + (length rest.now - length result.behind.now)) result.behind.now) }
    ensures ended { result.ended ≡ false
        → lacks_cell dialect.now.layout (column + 1) result.behind.now ≡ false }
    ensures wide { separator_of dialect.now.layout ≡ None
        → result.ended ≡ lacks_cell dialect.now.layout (column + 1) result.behind.now }
    ensures front { result.text.now ≡ take (length result.text.now) ahead.now }
    ensures within { length result.text.now ≤ length rest.now }
    ensures left { length result.behind.now ≤ length rest.now }
    ensures tail { result.behind.now
        ≡ drop (length rest.now - length result.behind.now) rest.now }
    ensures no_quote { IsTrue result.has_no_quote → (k : ℕ) → k < length result.text.now
        → slice_index result.text.now k ≢ quote }
{
    match dialect.layout {
        Layout::Separated { separator, .. } => {
            parted_cell(rest, ahead, separator, dialect.has_quotes)
        }
        Layout::Widths { widths } | Layout::Records { widths } => wide_cell(rest, column, widths),
    }
}
