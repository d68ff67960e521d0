//! Single texts under formats that are known at run time only: JSON, configuration, literals, and texts at fault.

use crate::digest::{Digest, Digested};
use crate::random::Random;
use crate::sample::Sample;
use lexical_formats::{c, json, rust, toml};
use lexical_parse_integer::{
    FromLexicalWithOptions, NumberFormat, NumberFormatBuilder, Result as Answer, options,
};
use std::alloc::{AllocError, Global};

/// How many texts there are.
const TEXTS: usize = 60_000;

/// What a text is read as.
#[derive(Copy, Clone, Drop)]
enum Reading {
    Json,
    JsonFront,
    Toml,
    Rust,
    C,
    Hexadecimal,
    Wide,
}

/// A text: where it stands among all, and what it is read as.
#[derive(Copy, Clone, Drop)]
struct Text {
    start: usize,
    stop: usize,
    reading: Reading,
}

// Adds an integer of JSON.
fn push_integer(sample: &mut Sample, random: &mut Random) -> Result<(), AllocError> {
    if random.percent(30) {
        sample.push(b"-")?;
    }
    let digits = random.realistic(18);
    sample.push_number(random, digits)
}

// Adds a literal as programs have it: with a prefix, in groups, or digits alone.
fn push_literal(sample: &mut Sample, random: &mut Random) -> Result<(), AllocError> {
    match random.below(4) {
        0 => {
            sample.push(b"0x")?;
            let digits = random.between(1, 15);
            sample.push_hexadecimal(random, digits)
        }
        1 => {
            let digits = random.between(4, 15);
            sample.push_grouped(random, digits, b'_')
        }
        _ => {
            let digits = random.realistic(18);
            sample.push_number(random, digits)
        }
    }
}

// Adds a text at fault.
fn push_fault(sample: &mut Sample, random: &mut Random) -> Result<(), AllocError> {
    match random.below(7) {
        0 => {
            sample.push_number(random, 4)?;
            sample.push(b"x")
        }
        1 => {
            sample.push(b" ")?;
            sample.push_number(random, 5)
        }
        2 => sample.push(b"-"),
        3 => sample.push_number(random, 40),
        4 => sample.push(b""),
        5 => sample.push(b"007"),
        _ => sample.push(b"1__0_"),
    }
}

// Adds a text that is read so.
fn push_text(sample: &mut Sample, random: &mut Random, reading: Reading) -> Result<(), AllocError> {
    if random.percent(8) {
        return push_fault(sample, random);
    }
    match reading {
        Reading::Json => push_integer(sample, random),
        Reading::JsonFront => {
            push_integer(sample, random)?;
            sample.push(b", \"name\": \"x\", \"size\": 12")
        }
        Reading::Toml | Reading::Rust => push_literal(sample, random),
        Reading::C => {
            let digits = random.realistic(18);
            sample.push_number(random, digits)
        }
        Reading::Hexadecimal => {
            let digits = random.between(1, 16);
            sample.push_hexadecimal(random, digits)
        }
        Reading::Wide => {
            let digits = random.between(1, 37);
            sample.push_number(random, digits)
        }
    }
}

// Texts of random kinds, and where each stands.
fn texts(alloc: Global, random: &mut Random, sample: &mut Sample) -> Result<Vec<Text>, AllocError> {
    let mut all = Vec::new(alloc);
    for _ in 0..TEXTS {
        let reading = match random.below(10) {
            0..=2 => Reading::Json,
            3..=4 => Reading::JsonFront,
            5 => Reading::Toml,
            6 => Reading::Rust,
            7 => Reading::C,
            8 => Reading::Hexadecimal,
            _ => Reading::Wide,
        };
        let start = sample.size();
        push_text(sample, random, reading)?;
        all.push(Text {
            start,
            stop: sample.size(),
            reading,
        })?;
    }
    sample.finish(random)?;
    Ok(all)
}

// The formats of all readings.
#[derive(Drop)]
struct Formats {
    json: NumberFormat,
    toml: NumberFormat,
    rust: NumberFormat,
    c: NumberFormat,
    hexadecimal: NumberFormat,
}

// Takes the answer to a whole text.
fn take<T: Digested + Drop>(digest: &mut Digest, answer: Answer<T>) {
    match answer {
        Ok(value) => digest.take(value.folded()),
        Err(error) => digest.take_error(error),
    }
}

// Reads a text, and takes the answer.
fn read(bytes: &[u8], reading: Reading, formats: &Formats, digest: &mut Digest) {
    let standard = &options::STANDARD;
    match reading {
        Reading::Json => take(
            digest,
            i64::from_lexical_with_options(bytes, &formats.json, standard),
        ),
        Reading::JsonFront => {
            match i64::from_lexical_partial_with_options(bytes, &formats.json, standard) {
                Ok((value, count)) => {
                    digest.take(value.folded());
                    digest.take_size(count);
                }
                Err(error) => digest.take_error(error),
            }
        }
        Reading::Toml => take(
            digest,
            i64::from_lexical_with_options(bytes, &formats.toml, standard),
        ),
        Reading::Rust => take(
            digest,
            u64::from_lexical_with_options(bytes, &formats.rust, standard),
        ),
        Reading::C => take(
            digest,
            u32::from_lexical_with_options(bytes, &formats.c, standard),
        ),
        Reading::Hexadecimal => take(
            digest,
            u64::from_lexical_with_options(bytes, &formats.hexadecimal, standard),
        ),
        Reading::Wide => take(
            digest,
            u128::from_lexical_with_options(bytes, &formats.json, standard),
        ),
    }
}

/// Reads each text of many.
pub fn run(alloc: Global, passes: usize, seed: u64, digest: &mut Digest) -> Result<(), AllocError> {
    let mut random = Random::new(seed, 6);
    let mut sample = Sample::new(alloc);
    let all = texts(alloc, &mut random, &mut sample)?;
    let formats = Formats {
        json: json(),
        toml: toml(),
        rust: rust(),
        c: c(),
        hexadecimal: NumberFormatBuilder::from_radix(16),
    };
    for _ in 0..passes {
        sample.renew();
        let bytes = sample.text();
        for i in 0..all.len() {
            let text = all[i];
            let part = bytes.get(text.start..text.stop).unwrap_or(&[]);
            read(part, text.reading, &formats, digest);
        }
    }
    Ok(())
}
