//! Lines as `lexint` has them, answered.

use crate::digest::Digest;
use crate::random::Random;
use crate::sample::Sample;
use answer_lines::run as answer;
use std::alloc::{AllocError, Global};

/// How many lines are asked.
const LINES: usize = 40_000;

// Adds a number of a type, half of those of signed types with a minus.
fn push_amount(sample: &mut Sample, random: &mut Random, most: usize) -> Result<(), AllocError> {
    if random.percent(50) {
        sample.push(b"-")?;
    }
    let digits = random.realistic(most);
    sample.push_number(random, digits)
}

// Adds a line.
fn push_line(sample: &mut Sample, random: &mut Random) -> Result<(), AllocError> {
    match random.below(100) {
        0..=49 => {
            sample.push(b"c u64 ")?;
            let digits = random.realistic(19);
            sample.push_number(random, digits)?;
        }
        50..=69 => {
            sample.push(b"c i64 ")?;
            push_amount(sample, random, 18)?;
        }
        70..=84 => {
            sample.push(b"p i64 ")?;
            push_amount(sample, random, 18)?;
            sample.push(b", x")?;
        }
        85..=89 => {
            sample.push(b"c u128 ")?;
            let digits = random.between(20, 37);
            sample.push_number(random, digits)?;
        }
        90..=93 => {
            sample.push(b"c u16 ")?;
            let digits = random.between(1, 6);
            sample.push_number(random, digits)?;
        }
        94..=96 => {
            sample.push(b"c u8 12x")?;
        }
        97..=98 => {
            sample.push(b"f mantissa_radix 16\nc u64 ")?;
            let digits = random.between(1, 16);
            sample.push_hexadecimal(random, digits)?;
            sample.push(b"\nr")?;
        }
        _ => sample.push(b"c u9 1")?,
    }
    sample.push(b"\n")
}

/// Answers lines, most under the standard format, some under one that a line has set.
pub fn run(alloc: Global, passes: usize, seed: u64, digest: &mut Digest) -> Result<(), AllocError> {
    let mut random = Random::new(seed, 5);
    let mut sample = Sample::new(alloc);
    for _ in 0..LINES {
        push_line(&mut sample, &mut random)?;
    }
    sample.finish(&mut random)?;
    for _ in 0..passes {
        sample.renew();
        // The answers are gathered first, so that the digest doesn't depend on where writes are
        // cut.
        let mut answers = Vec::new(alloc);
        if answer(sample.text(), &mut answers).is_err() {
            digest.take(1);
        }
        digest.take_bytes(&answers);
    }
    Ok(())
}
