//! Awkward tables: with quotes, with blanks, by widths and in records, and a wrong cell behind many good ones.

use crate::digest::Digest;
use crate::ledger::separated;
use crate::random::Random;
use crate::rows::{Amounts, Entries, Writing, push_amounts, push_entry};
use crate::sample::Sample;
use lexical_tables::{Dialect, Layout};
use std::alloc::{AllocError, Global};

/// How many rows a table has.
const ROWS: usize = 20_000;

/// The widths of a row's cells.
static WIDTHS: [usize; 4] = [10, 6, 12, 9];

// A ledger in quotes as a text, with a letter in the first cell of its last row.
fn quoted(alloc: Global, random: &mut Random) -> Result<Sample, AllocError> {
    let writing = Writing {
        has_returns: true,
        has_quotes: true,
    };
    let mut sample = Sample::new(alloc);
    for _ in 0..ROWS - 1 {
        push_entry(&mut sample, random, &writing)?;
    }
    sample.push(b"12x")?;
    push_entry(&mut sample, random, &writing)?;
    sample.finish(random)?;
    Ok(sample)
}

// Amounts with blanks and empty rows as a text, whose last row lacks a cell.
fn blank(alloc: Global, random: &mut Random) -> Result<Sample, AllocError> {
    let mut sample = Sample::new(alloc);
    for _ in 0..ROWS - 1 {
        push_amounts(&mut sample, random, true)?;
        if random.percent(2) {
            sample.push(b"\n")?;
        }
    }
    sample.push(b"1, 2, 3")?;
    sample.finish(random)?;
    Ok(sample)
}

// Rows by widths as a text, in lines or as records, with zeros in front.
fn wide(alloc: Global, random: &mut Random, in_lines: bool) -> Result<Sample, AllocError> {
    let mut sample = Sample::new(alloc);
    for _ in 0..ROWS {
        for width in WIDTHS {
            let digits = random.between(1, width.min(9));
            for _ in 0..width.saturating_sub(digits) {
                sample.push(b"0")?;
            }
            sample.push_number(random, digits)?;
        }
        if in_lines {
            sample.push(b"\n")?;
        }
    }
    sample.finish(random)?;
    Ok(sample)
}

// A table by widths.
fn by_widths(layout: Layout<'static>) -> Dialect<'static> {
    Dialect {
        layout,
        ..separated(0, false)
    }
}

/// Reads a ledger in quotes, amounts with blanks, lines by widths, and records.
pub fn run(alloc: Global, passes: usize, seed: u64, digest: &mut Digest) -> Result<(), AllocError> {
    let mut random = Random::new(seed, 2);
    let mut quotes = quoted(alloc, &mut random)?;
    let mut blanks = blank(alloc, &mut random)?;
    let mut lines = wide(alloc, &mut random, true)?;
    let mut records = wide(alloc, &mut random, false)?;
    let mut entries = Entries::new(alloc, ROWS)?;
    let mut numbers = Amounts::new(alloc, ROWS)?;
    let with_quotes = Dialect {
        has_quotes: true,
        ..separated(7, true)
    };
    let with_blanks = Dialect {
        allows_blanks: true,
        skips_empty_rows: true,
        ..separated(4, false)
    };
    let in_lines = by_widths(Layout::Widths { widths: &WIDTHS });
    let in_records = by_widths(Layout::Records { widths: &WIDTHS });
    for _ in 0..passes {
        quotes.renew();
        let _stop = entries.read(alloc, quotes.text(), true, &with_quotes, digest)?;
        blanks.renew();
        numbers.read(alloc, blanks.text(), &with_blanks, digest)?;
        lines.renew();
        numbers.read(alloc, lines.text(), &in_lines, digest)?;
        records.renew();
        numbers.read(alloc, records.text(), &in_records, digest)?;
    }
    Ok(())
}
