//! The tables that are read: entries of a ledger, and rows of four amounts.

use crate::digest::Digest;
use crate::random::Random;
use crate::sample::Sample;
use lexical_parse_integer::format::STANDARD;
use lexical_parse_integer::options;
use lexical_tables::{
    CellFault, Dialect, Numbers, Table, TableError, Target, read_columns, read_columns_part,
};
use std::alloc::{AllocError, Global};

/// How the entries of a ledger are written.
#[derive(Drop)]
pub struct Writing {
    pub has_returns: bool,
    pub has_quotes: bool,
}

/// Adds an entry: its number, its account, its day, a word, an amount that may be missing, a balance, and a note.
pub fn push_entry(
    sample: &mut Sample,
    random: &mut Random,
    writing: &Writing,
) -> Result<(), AllocError> {
    sample.push_number(random, 7)?;
    sample.push(b",")?;
    if writing.has_quotes {
        push_quoted_number(sample, random, 4)?;
    } else {
        sample.push_number(random, 4)?;
    }
    sample.push(b",2026")?;
    sample.push(if random.percent(50) { b"0" } else { b"1" })?;
    sample.push_number(random, 1)?;
    sample.push(if random.percent(50) { b"0" } else { b"1" })?;
    sample.push_number(random, 1)?;
    sample.push(b",")?;
    sample.push_word(random, 4)?;
    sample.push(b",")?;
    if random.percent(70) {
        push_amount(sample, random)?;
    }
    sample.push(b",")?;
    push_amount(sample, random)?;
    sample.push(b",")?;
    push_note(sample, random, writing.has_quotes)?;
    sample.push(if writing.has_returns { b"\r\n" } else { b"\n" })
}

// Adds an amount, half of them with a minus.
fn push_amount(sample: &mut Sample, random: &mut Random) -> Result<(), AllocError> {
    if random.percent(50) {
        sample.push(b"-")?;
    }
    let digits = random.realistic(16);
    sample.push_number(random, digits)
}

// Adds a number in quotes.
fn push_quoted_number(
    sample: &mut Sample,
    random: &mut Random,
    digits: usize,
) -> Result<(), AllocError> {
    sample.push(b"\"")?;
    sample.push_number(random, digits)?;
    sample.push(b"\"")
}

// Adds a note of a few letters, or one in quotes with separators, line feeds and doubled quotes.
fn push_note(sample: &mut Sample, random: &mut Random, has_quotes: bool) -> Result<(), AllocError> {
    let letters = random.between(3, 14);
    if !has_quotes {
        return sample.push_word(random, letters);
    }
    sample.push(b"\"")?;
    sample.push_word(random, letters)?;
    match random.below(5) {
        0 => sample.push(b", ")?,
        1 => sample.push(b" \"\"it\"\" ")?,
        2 => sample.push(b"\n")?,
        _ => {}
    }
    sample.push_word(random, 4)?;
    sample.push(b"\"")
}

/// Adds a row of four amounts, between separators and a few blanks, if these are asked for.
pub fn push_amounts(
    sample: &mut Sample,
    random: &mut Random,
    has_blanks: bool,
) -> Result<(), AllocError> {
    for column in 0..4 {
        if column > 0 {
            sample.push(b",")?;
        }
        if has_blanks && random.percent(60) {
            sample.push(if random.percent(50) { b" " } else { b"  " })?;
        }
        push_amount(sample, random)?;
        if has_blanks && random.percent(20) {
            sample.push(b"\t")?;
        }
    }
    sample.push(b"\n")
}

// Takes what is answered of a table.
fn take_answer(digest: &mut Digest, answer: &Result<Table, TableError>) {
    match answer {
        Ok(table) => {
            digest.take_size(table.rows);
            digest.take_size(table.stop);
        }
        Err(error) => {
            digest.take_size(error.row);
            digest.take_size(error.column);
            match error.fault {
                CellFault::NotNumber(fault) => digest.take_error(fault),
                CellFault::MisplacedQuote(place) => take_place(digest, 11, place),
                CellFault::TooFewCells(place) => take_place(digest, 12, place),
                CellFault::TooManyCells(place) => take_place(digest, 13, place),
                CellFault::MissingReturn(place) => take_place(digest, 14, place),
            }
        }
    }
}

// Takes which fault it is, and its place.
fn take_place(digest: &mut Digest, kind: u64, place: usize) {
    digest.take(kind);
    digest.take_size(place);
}

// How many rows were read.
fn rows_of(answer: &Result<Table, TableError>) -> usize {
    match answer {
        Ok(table) => table.rows,
        Err(error) => error.row,
    }
}

// The place at which reading stopped, or the text's end behind a fault.
fn stop_of(answer: &Result<Table, TableError>, text: &[u8]) -> usize {
    match answer {
        Ok(table) => table.stop,
        Err(_) => text.len(),
    }
}

/// Where the columns of a ledger go.
#[derive(Drop)]
pub struct Entries {
    numbers: Vec<u64>,
    accounts: Vec<u32>,
    days: Vec<u32>,
    amounts: Vec<i64>,
    present: Vec<u8>,
    balances: Vec<i64>,
}

impl Entries {
    /// Room for `rows` entries.
    pub fn new(alloc: Global, rows: usize) -> Result<Entries, AllocError> {
        Ok(Entries {
            numbers: vec![in alloc; 0; rows]?,
            accounts: vec![in alloc; 0; rows]?,
            days: vec![in alloc; 0; rows]?,
            amounts: vec![in alloc; 0; rows]?,
            present: vec![in alloc; 0; rows]?,
            balances: vec![in alloc; 0; rows]?,
        })
    }

    /// Reads the entries of a text, or of a part that may cut one, takes them, and returns where it stopped.
    pub fn read(
        &mut self,
        alloc: Global,
        text: &[u8],
        is_last: bool,
        dialect: &Dialect<'_>,
        digest: &mut Digest,
    ) -> Result<usize, AllocError> {
        let answer = entries_of(
            alloc,
            text,
            is_last,
            dialect,
            &mut self.numbers,
            &mut self.accounts,
            &mut self.days,
            &mut self.amounts,
            &mut self.present,
            &mut self.balances,
        )?;
        take_answer(digest, &answer);
        let rows = rows_of(&answer);
        digest.take_all(self.numbers.get(..rows).unwrap_or(&[]));
        digest.take_all(self.accounts.get(..rows).unwrap_or(&[]));
        digest.take_all(self.days.get(..rows).unwrap_or(&[]));
        digest.take_all(self.amounts.get(..rows).unwrap_or(&[]));
        digest.take_bytes(self.present.get(..rows.div_ceil(8)).unwrap_or(&[]));
        digest.take_all(self.balances.get(..rows).unwrap_or(&[]));
        Ok(stop_of(&answer, text))
    }
}

// Reads the entries of a text, or of a part that may cut one.
fn entries_of<'a>(
    alloc: Global,
    text: &[u8],
    is_last: bool,
    dialect: &Dialect<'_>,
    numbers: &'a mut [u64],
    accounts: &'a mut [u32],
    days: &'a mut [u32],
    amounts: &'a mut [i64],
    present: &'a mut [u8],
    balances: &'a mut [i64],
) -> Result<Result<Table, TableError>, AllocError> {
    let rows = numbers
        .len()
        .min(accounts.len())
        .min(days.len())
        .min(amounts.len())
        .min(present.len())
        .min(balances.len());
    let mut targets = Vec::new(alloc);
    targets.push(Some(Target {
        format: STANDARD,
        numbers: Numbers::U64(numbers),
        present: None,
    }))?;
    targets.push(Some(Target {
        format: STANDARD,
        numbers: Numbers::U32(accounts),
        present: None,
    }))?;
    targets.push(Some(Target {
        format: STANDARD,
        numbers: Numbers::U32(days),
        present: None,
    }))?;
    targets.push(None)?;
    targets.push(Some(Target {
        format: STANDARD,
        numbers: Numbers::I64(amounts),
        present: Some(present),
    }))?;
    targets.push(Some(Target {
        format: STANDARD,
        numbers: Numbers::I64(balances),
        present: None,
    }))?;
    if is_last {
        return Ok(read_columns(text, dialect, &options::STANDARD, rows, &mut targets));
    }
    Ok(read_columns_part(text, false, dialect, &options::STANDARD, rows, &mut targets))
}

/// Where four columns of amounts go.
#[derive(Drop)]
pub struct Amounts {
    first: Vec<i64>,
    second: Vec<i64>,
    third: Vec<i64>,
    fourth: Vec<i64>,
}

impl Amounts {
    /// Room for `rows` rows.
    pub fn new(alloc: Global, rows: usize) -> Result<Amounts, AllocError> {
        Ok(Amounts {
            first: vec![in alloc; 0; rows]?,
            second: vec![in alloc; 0; rows]?,
            third: vec![in alloc; 0; rows]?,
            fourth: vec![in alloc; 0; rows]?,
        })
    }

    /// Reads the rows of a text, and takes them.
    pub fn read(
        &mut self,
        alloc: Global,
        text: &[u8],
        dialect: &Dialect<'_>,
        digest: &mut Digest,
    ) -> Result<(), AllocError> {
        let answer = amounts_of(
            alloc,
            text,
            dialect,
            &mut self.first,
            &mut self.second,
            &mut self.third,
            &mut self.fourth,
        )?;
        take_answer(digest, &answer);
        let rows = rows_of(&answer);
        digest.take_all(self.first.get(..rows).unwrap_or(&[]));
        digest.take_all(self.second.get(..rows).unwrap_or(&[]));
        digest.take_all(self.third.get(..rows).unwrap_or(&[]));
        digest.take_all(self.fourth.get(..rows).unwrap_or(&[]));
        Ok(())
    }
}

// Reads four columns of amounts.
fn amounts_of<'a>(
    alloc: Global,
    text: &[u8],
    dialect: &Dialect<'_>,
    first: &'a mut [i64],
    second: &'a mut [i64],
    third: &'a mut [i64],
    fourth: &'a mut [i64],
) -> Result<Result<Table, TableError>, AllocError> {
    let rows = first
        .len()
        .min(second.len())
        .min(third.len())
        .min(fourth.len());
    let mut targets = Vec::new(alloc);
    targets.push(Some(Target {
        format: STANDARD,
        numbers: Numbers::I64(first),
        present: None,
    }))?;
    targets.push(Some(Target {
        format: STANDARD,
        numbers: Numbers::I64(second),
        present: None,
    }))?;
    targets.push(Some(Target {
        format: STANDARD,
        numbers: Numbers::I64(third),
        present: None,
    }))?;
    targets.push(Some(Target {
        format: STANDARD,
        numbers: Numbers::I64(fourth),
        present: None,
    }))?;
    Ok(read_columns(text, dialect, &options::STANDARD, rows, &mut targets))
}
