//! Sources, cut into tokens.

use crate::digest::Digest;
use crate::random::Random;
use crate::sample::Sample;
use lexical_literals::{Kind, Tokens};
use std::alloc::{AllocError, Global};

/// How many statements a source has.
const STATEMENTS: usize = 20_000;

// Adds a number as sources have them: few digits, prefixes, groups, and now and then what can't be read.
fn push_literal(sample: &mut Sample, random: &mut Random) -> Result<(), AllocError> {
    match random.below(100) {
        0..=64 => {
            let digits = random.realistic(20);
            sample.push_number(random, digits)
        }
        65..=84 => {
            sample.push(b"0x")?;
            let digits = random.between(1, 16);
            sample.push_hexadecimal(random, digits)
        }
        85..=96 => {
            let digits = random.between(4, 12);
            sample.push_grouped(random, digits, b'_')
        }
        97 => sample.push(b"0xg"),
        98 => sample.push_number(random, 42),
        _ => sample.push(b"0b10_0110"),
    }
}

// Adds an operand: a word or a number.
fn push_operand(sample: &mut Sample, random: &mut Random) -> Result<(), AllocError> {
    if random.percent(45) {
        let letters = random.between(1, 12);
        return sample.push_word(random, letters);
    }
    push_literal(sample, random)
}

// Adds a statement in a line of its own.
fn push_statement(sample: &mut Sample, random: &mut Random) -> Result<(), AllocError> {
    for _ in 0..random.between(0, 2) {
        sample.push(b"    ")?;
    }
    let letters = random.between(2, 9);
    sample.push_word(random, letters)?;
    sample.push(b" = ")?;
    push_operand(sample, random)?;
    for _ in 0..random.between(0, 2) {
        let operator: &[u8] = match random.below(5) {
            0 => b" + ",
            1 => b" * (",
            2 => b", ",
            3 => b" << ",
            _ => b") - ",
        };
        sample.push(operator)?;
        push_operand(sample, random)?;
    }
    sample.push(b";\n")
}

/// Cuts a source into tokens.
pub fn run(alloc: Global, passes: usize, seed: u64, digest: &mut Digest) -> Result<(), AllocError> {
    let mut random = Random::new(seed, 4);
    let mut sample = Sample::new(alloc);
    for _ in 0..STATEMENTS {
        push_statement(&mut sample, &mut random)?;
    }
    sample.finish(&mut random)?;
    for _ in 0..passes {
        sample.renew();
        for token in Tokens::new(sample.text()) {
            digest.take_size(token.stop);
            match token.kind {
                Kind::Number(value) => digest.take_all(&[value]),
                Kind::Word => digest.take(1),
                Kind::Byte => digest.take(2),
                Kind::Fault(error) => digest.take_error(error),
            }
        }
    }
    Ok(())
}
