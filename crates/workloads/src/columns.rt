//! Columns: one number a line, or between commas, of many kinds.

use crate::digest::{Digest, Digested};
use crate::random::Random;
use crate::sample::Sample;
use lexical_fields::{ColumnError, Fields, read_column, read_column_part};
use lexical_parse_integer::format::STANDARD;
use lexical_parse_integer::parse::ParseInteger;
use lexical_parse_integer::{NumberFormat, NumberFormatBuilder, options};
use std::alloc::{AllocError, Global};

/// How many numbers a column has.
const NUMBERS: usize = 40_000;

/// How many bytes a block has.
const BLOCK: usize = 65_536;

/// How the numbers of a column are written.
enum Writing {
    Digits(usize),
    Realistic(usize),
    Negative(usize),
    Hexadecimal(usize, usize),
    Grouped(usize),
    Faulty,
}

// Adds a number.
fn push_number(
    sample: &mut Sample,
    random: &mut Random,
    writing: &Writing,
) -> Result<(), AllocError> {
    match writing {
        Writing::Digits(digits) => sample.push_number(random, *digits),
        Writing::Realistic(most) => {
            let digits = random.realistic(*most);
            sample.push_number(random, digits)
        }
        Writing::Negative(most) => {
            if random.percent(50) {
                sample.push(b"-")?;
            }
            let digits = random.realistic(*most);
            sample.push_number(random, digits)
        }
        Writing::Hexadecimal(least, most) => {
            let digits = random.between(*least, *most);
            sample.push_hexadecimal(random, digits)
        }
        Writing::Grouped(most) => {
            let digits = random.realistic(*most);
            sample.push_grouped(random, digits, b'_')
        }
        Writing::Faulty => push_faulty(sample, random),
    }
}

// Adds a number, or, once in a hundred times, what is no number: an `x` behind a blank, a minus, three digits or 24
// digits, or nothing.
fn push_faulty(sample: &mut Sample, random: &mut Random) -> Result<(), AllocError> {
    if random.percent(99) {
        let digits = random.realistic(16);
        return sample.push_number(random, digits);
    }
    match random.below(5) {
        0 => sample.push(b" ")?,
        1 => sample.push(b"-")?,
        2 => sample.push_number(random, 24)?,
        3 => return Ok(()),
        _ => sample.push_number(random, 3)?,
    }
    sample.push(b"x")
}

// A column as a text, with a line feed behind each number.
fn column(alloc: Global, random: &mut Random, writing: &Writing) -> Result<Sample, AllocError> {
    let mut sample = Sample::new(alloc);
    for _ in 0..NUMBERS {
        push_number(&mut sample, random, writing)?;
        sample.push(b"\n")?;
    }
    sample.finish(random)?;
    Ok(sample)
}

// Takes a fault of a column, and returns where to go on.
fn take_fault(digest: &mut Digest, fault: ColumnError) -> usize {
    match fault {
        ColumnError::InvalidFormat(error) => {
            digest.take_error(error);
            usize::MAX
        }
        ColumnError::InvalidField {
            field,
            start,
            error,
        } => {
            digest.take_size(field);
            digest.take_error(error);
            start
        }
    }
}

// Reads a text, and takes its numbers.
fn read<T: ParseInteger + Digested>(
    sample: &mut Sample,
    format: &NumberFormat,
    values: &mut [T],
    digest: &mut Digest,
) {
    sample.renew();
    match read_column::<T>(sample.text(), b'\n', format, &options::STANDARD, values) {
        Ok(column) => {
            digest.take_size(column.stop);
            digest.take_all(values.get(..column.count).unwrap_or(&[]));
        }
        Err(fault) => {
            let _start = take_fault(digest, fault);
        }
    }
}

// Reads a text by blocks: the number that a block cuts goes in front of the next block.
fn read_blocks<T: ParseInteger + Digested>(
    sample: &mut Sample,
    values: &mut [T],
    digest: &mut Digest,
) {
    sample.renew();
    let text = sample.text();
    let mut place = 0_usize;
    for _ in 0..text.len() {
        let Some(rest) = text.get(place..) else {
            break;
        };
        if rest.is_empty() {
            break;
        }
        let block = rest.get(..BLOCK).unwrap_or(rest);
        let is_last = block.len() == rest.len();
        let answer = read_column_part::<T>(
            block,
            is_last,
            b'\n',
            &STANDARD,
            &options::STANDARD,
            values,
        );
        match answer {
            Ok(column) => {
                digest.take_all(values.get(..column.count).unwrap_or(&[]));
                place = place.saturating_add(column.stop);
            }
            Err(fault) => {
                let _start = take_fault(digest, fault);
                break;
            }
        }
    }
}

// Reads a text whose faults are reported one by one, and takes each field.
fn read_fields(sample: &mut Sample, digest: &mut Digest) {
    sample.renew();
    let fields: Fields<'_, u64> = Fields::new(sample.text(), b'\n', &STANDARD, &options::STANDARD);
    for field in fields {
        match field.answer {
            Ok(value) => digest.take(value),
            Err(error) => digest.take_error(error),
        }
    }
}

/// Reads columns of times and counts, of ids in radix 16, of large and of grouped numbers, and one with faults.
pub fn run(alloc: Global, passes: usize, seed: u64, digest: &mut Digest) -> Result<(), AllocError> {
    let mut random = Random::new(seed, 3);
    let mut times = column(alloc, &mut random, &Writing::Digits(13))?;
    let mut nanoseconds = column(alloc, &mut random, &Writing::Digits(18))?;
    let mut counts = column(alloc, &mut random, &Writing::Realistic(19))?;
    let mut amounts = column(alloc, &mut random, &Writing::Negative(18))?;
    let mut ids = column(alloc, &mut random, &Writing::Digits(7))?;
    let mut large = column(alloc, &mut random, &Writing::Realistic(37))?;
    let mut hashes = column(alloc, &mut random, &Writing::Hexadecimal(8, 16))?;
    let mut groups = column(alloc, &mut random, &Writing::Grouped(18))?;
    let mut faulty = column(alloc, &mut random, &Writing::Faulty)?;
    let hexadecimal = NumberFormatBuilder::from_radix(16);
    let grouped = NumberFormatBuilder::new()
        .digit_separator(Some(b'_'))
        .integer_internal_digit_separator(true)
        .build_unchecked();
    let mut unsigned: Vec<u64> = vec![in alloc; 0; NUMBERS]?;
    let mut signed: Vec<i64> = vec![in alloc; 0; NUMBERS]?;
    let mut short: Vec<u32> = vec![in alloc; 0; NUMBERS]?;
    let mut wide: Vec<u128> = vec![in alloc; 0; NUMBERS]?;
    for _ in 0..passes {
        read::<i64>(&mut times, &STANDARD, &mut signed, digest);
        read::<i64>(&mut nanoseconds, &STANDARD, &mut signed, digest);
        read::<u64>(&mut counts, &STANDARD, &mut unsigned, digest);
        read_blocks::<i64>(&mut amounts, &mut signed, digest);
        read::<u32>(&mut ids, &STANDARD, &mut short, digest);
        read::<u128>(&mut large, &STANDARD, &mut wide, digest);
        read::<u64>(&mut hashes, &hexadecimal, &mut unsigned, digest);
        read::<u64>(&mut groups, &grouped, &mut unsigned, digest);
        read_fields(&mut faulty, digest);
    }
    Ok(())
}
