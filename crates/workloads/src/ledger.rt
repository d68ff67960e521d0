//! The job of large files: the tables of a ledger, read whole, and by blocks as from a file.

use crate::digest::Digest;
use crate::random::Random;
use crate::rows::{Amounts, Entries, Writing, push_amounts, push_entry};
use crate::sample::Sample;
use lexical_tables::{Dialect, Layout};
use std::alloc::{AllocError, Global};

/// How many rows a table has.
const ROWS: usize = 20_000;

/// How many bytes a block has.
const BLOCK: usize = 65_536;

/// A table between commas without quotes and blanks.
pub fn separated(columns: usize, has_returns: bool) -> Dialect<'static> {
    Dialect {
        layout: Layout::Separated {
            separator: b',',
            columns,
        },
        has_returns,
        allows_returns: false,
        has_quotes: false,
        allows_blanks: false,
        skips_empty_rows: false,
        missing: b"",
    }
}

// A ledger as a text.
fn ledger(alloc: Global, random: &mut Random, has_returns: bool) -> Result<Sample, AllocError> {
    let writing = Writing {
        has_returns,
        has_quotes: false,
    };
    let mut sample = Sample::new(alloc);
    for _ in 0..ROWS {
        push_entry(&mut sample, random, &writing)?;
    }
    sample.finish(random)?;
    Ok(sample)
}

// Rows of four amounts as a text.
fn amounts(alloc: Global, random: &mut Random) -> Result<Sample, AllocError> {
    let mut sample = Sample::new(alloc);
    for _ in 0..ROWS {
        push_amounts(&mut sample, random, false)?;
    }
    sample.finish(random)?;
    Ok(sample)
}

// Reads a text by blocks: the row that a block cuts goes in front of the next block.
fn read_blocks(
    alloc: Global,
    text: &[u8],
    dialect: &Dialect<'_>,
    entries: &mut Entries,
    digest: &mut Digest,
) -> Result<(), AllocError> {
    let mut place = 0_usize;
    for _ in 0..text.len() {
        let end = place.saturating_add(BLOCK);
        let Some(block) = text.get(place..end) else {
            break;
        };
        place = place.saturating_add(entries.read(alloc, block, false, dialect, digest)?);
    }
    if let Some(block) = text.get(place..) {
        let _stop = entries.read(alloc, block, true, dialect, digest)?;
    }
    Ok(())
}

/// Reads a ledger whole, one with returns by blocks, and rows of amounts.
pub fn run(alloc: Global, passes: usize, seed: u64, digest: &mut Digest) -> Result<(), AllocError> {
    let mut random = Random::new(seed, 1);
    let mut lines = ledger(alloc, &mut random, false)?;
    let mut returns = ledger(alloc, &mut random, true)?;
    let mut rows = amounts(alloc, &mut random)?;
    let mut entries = Entries::new(alloc, ROWS)?;
    let mut numbers = Amounts::new(alloc, ROWS)?;
    for _ in 0..passes {
        lines.renew();
        let _stop = entries.read(alloc, lines.text(), true, &separated(7, false), digest)?;
        returns.renew();
        read_blocks(
            alloc,
            returns.text(),
            &separated(7, true),
            &mut entries,
            digest,
        )?;
        rows.renew();
        numbers.read(alloc, rows.text(), &separated(4, false), digest)?;
    }
    Ok(())
}
