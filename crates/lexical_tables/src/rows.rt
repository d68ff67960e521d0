//! The rows of a text.

ghost use Rattle.std.specs.Prelude.{◌≡◌, ◌+◌, ◌-◌, ◌≤◌, ◌<◌, ◌^◌, ℕ, min, length, take, drop};
ghost use Rattle.lexical_tables.specs.Quotes.{length_outside};
ghost use Rattle.lexical_tables.specs.Rows.{FirstCounts, behind_piece, ends_in, first_row, line_feed, record_size, row_of, rows_from, takes_returns, view_of_row};

use crate::dialect::{Dialect, Layout};
use crate::quotes::length_outside;

// A row: the place at which it starts, its bytes without what ends it, and whether that lacks its return.
#[derive(Debug, Copy, Clone)]
pub(crate) struct Row<'a> {
    pub start: usize,
    pub text: &'a [u8],
    pub lacks_return: bool,
}

// Whether a text's last byte is this one.
#[inline(always)]
pub(crate) fn ends_in(text: &[u8], byte: u8) -> bool
    ensures { result ≡ ends_in byte text.now }
{
    !text.is_empty() && text[text.len() - 1] == byte
}

// The bytes up to a separator outside quotes, or all where there is none, and what is behind it.
#[inline(always)]
pub(crate) fn split(text: &[u8], separator: u8, has_quotes: bool) -> (&[u8], &[u8])
    ensures front { result.0.now ≡ take (length_outside has_quotes separator text.now) text.now }
    ensures behind { result.1.now
        ≡ drop (length_outside has_quotes separator text.now + 1) text.now }
    ensures within { length result.0.now ≤ length text.now }
    ensures size { length result.0.now ≡ length_outside has_quotes separator text.now }
    ensures left { length result.1.now ≤ length text.now }
    ensures shorter { 0 < length text.now → length result.1.now < length text.now }
{
    let (front, end) = text.split_at(length_outside(text, separator, has_quotes));
    if end.is_empty() {
        (front, end)
    } else {
        (front, &end[1..])
    }
}

// How many bytes a record has, up to a limit.
#[inline(never)]
pub(crate) fn record_size(widths: &[usize], limit: usize) -> usize
    ensures { result ≡ min (record_size widths.now) limit }
{
    let mut size = 0;
    let mut column = 0;
    while column < widths.len() {
        size += widths[column].min(limit - size);
        column += 1;
    }
    size.max(1).min(limit)
}

// The first row of a text that starts at a place, and what is behind it.
#[inline(always)]
pub(crate) fn first_row<'a>(
    start: usize,
    text: &'a [u8],
    dialect: &Dialect<'_>,
) -> (Row<'a>, &'a [u8])
    requires some { 0 < length text.now }
    ensures row { view_of_row result.0 ≡ first_row dialect.now start text.now }
    ensures behind { result.1.now
        ≡ behind_piece dialect.now.layout dialect.now.has_quotes text.now }
    ensures within { length result.0.text.now ≤ length text.now }
    ensures front { result.0.text.now ≡ take (length result.0.text.now) text.now }
    ensures shorter { length result.1.now < length text.now }
{
    if let Layout::Records { widths } = dialect.layout {
        let (text, behind) = text.split_at(record_size(widths, text.len()));
        let row = Row {
            start,
            text,
            lacks_return: false,
        };
        return (row, behind);
    }
    first_line(start, text, dialect)
}

// The first line of a text that starts at a place, as a row, and what is behind it.
#[inline(always)]
fn first_line<'a>(start: usize, text: &'a [u8], dialect: &Dialect<'_>) -> (Row<'a>, &'a [u8])
    requires some { 0 < length text.now }
    ensures row { view_of_row result.0 ≡ row_of (takes_returns dialect.now)
        dialect.now.has_returns (start + length text.now) (record {
          start = start;
          text = take (length_outside dialect.now.has_quotes line_feed text.now) text.now;
        }) }
    ensures behind { result.1.now
        ≡ drop (length_outside dialect.now.has_quotes line_feed text.now + 1) text.now }
    ensures within { length result.0.text.now ≤ length text.now }
    ensures front { result.0.text.now ≡ take (length result.0.text.now) text.now }
    ensures shorter { length result.1.now < length text.now }
{
    let (line, behind) = split(text, b'\n', dialect.has_quotes);
    if line.len() == text.len() {
        let row = Row {
            start,
            text: line,
            lacks_return: false,
        };
        return (row, behind);
    }
    if dialect.takes_returns() && ends_in(line, b'\r') {
        let row = Row {
            start,
            text: &line[..line.len() - 1],
            lacks_return: false,
        };
        (row, behind)
    } else {
        let row = Row {
            start,
            text: line,
            lacks_return: dialect.has_returns,
        };
        (row, behind)
    }
}

// What is left of a text behind the empty rows in front of it, where these are skipped.
#[inline(always)]
pub(crate) fn without_empty_rows<'a>(text: &'a [u8], dialect: &Dialect<'_>) -> &'a [u8]
    ensures within { length result.now ≤ length text.now }
    ensures tail { result.now ≡ drop (length text.now - length result.now) text.now }
    ensures rows { (place : ℕ) → rows_from dialect.now place text.now
        ≡ rows_from dialect.now (place + (length text.now - length result.now)) result.now }
    ensures first { FirstCounts dialect.now result.now }
{
    let mut rest = text;
    while dialect.skips_empty_rows && !rest.is_empty() {
        let (row, behind) = first_row(0, rest, dialect);
        if !row.text.is_empty() {
            return rest;
        }
        rest = behind;
    }
    rest
}
