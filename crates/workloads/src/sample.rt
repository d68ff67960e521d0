//! A text whose digits change from one reading to the next, while each number keeps its length.

use crate::random::Random;
use std::alloc::{AllocError, Global};

/// How many places of the list of changes a reading may begin at. Any 4096 readings in a row begin
/// at different places.
const BEGINNINGS: usize = 4096;

/// A text, and for each of its bytes 1 if the byte may change, and 0 otherwise.
#[derive(Drop)]
pub struct Sample {
    bytes: Vec<u8>,
    loose: Vec<u8>,
    changes: Vec<u8>,
    renewals: usize,
}

impl Sample {
    /// An empty one.
    pub fn new(alloc: Global) -> Sample {
        Sample {
            bytes: Vec::new(alloc),
            loose: Vec::new(alloc),
            changes: Vec::new(alloc),
            renewals: 0,
        }
    }

    /// The text.
    pub fn text(&self) -> &[u8] {
        self.bytes.as_slice()
    }

    /// How many bytes the text has.
    pub fn size(&self) -> usize {
        self.bytes.len()
    }

    // Adds a byte that may change or may not.
    fn push_byte(&mut self, byte: u8, loose: bool) -> Result<(), AllocError> {
        self.bytes.push(byte)?;
        self.loose.push(u8::from(loose))?;
        Ok(())
    }

    /// Adds bytes that never change.
    pub fn push(&mut self, bytes: &[u8]) -> Result<(), AllocError> {
        for i in 0..bytes.len() {
            self.push_byte(bytes[i], false)?;
        }
        Ok(())
    }

    /// Adds a number of `digits` decimal digits. The first of several isn't 0, and never changes.
    pub fn push_number(&mut self, random: &mut Random, digits: usize) -> Result<(), AllocError> {
        for i in 0..digits {
            let is_fixed = i == 0 && digits > 1;
            let digit = if is_fixed {
                random.between(1, 9)
            } else {
                random.between(0, 9)
            };
            self.push_byte(decimal_digit(digit), !is_fixed)?;
        }
        Ok(())
    }

    /// Adds a number of `digits` digits of radix 16. Those above 9 are capital letters.
    pub fn push_hexadecimal(
        &mut self,
        random: &mut Random,
        digits: usize,
    ) -> Result<(), AllocError> {
        for _ in 0..digits {
            if random.percent(60) {
                self.push_byte(decimal_digit(random.between(0, 9)), true)?;
            } else {
                let letter = b"ABCDEF".get(random.between(0, 5)).copied();
                self.push_byte(letter.unwrap_or(b'A'), false)?;
            }
        }
        Ok(())
    }

    /// Adds a number of `digits` digits, with a separator before each three.
    pub fn push_grouped(
        &mut self,
        random: &mut Random,
        digits: usize,
        separator: u8,
    ) -> Result<(), AllocError> {
        for i in 0..digits {
            if i > 0 && (digits - i) % 3 == 0 {
                self.push_byte(separator, false)?;
            }
            let digit = decimal_digit(random.between(1, 9));
            self.push_byte(digit, i > 0)?;
        }
        Ok(())
    }

    /// Adds a word of `letters` small letters.
    pub fn push_word(&mut self, random: &mut Random, letters: usize) -> Result<(), AllocError> {
        for _ in 0..letters {
            let letter = b"etaoinshrdlucmfw".get(random.between(0, 15)).copied();
            self.push_byte(letter.unwrap_or(b'x'), false)?;
        }
        Ok(())
    }

    /// Makes the changes, once the text is whole.
    pub fn finish(&mut self, random: &mut Random) -> Result<(), AllocError> {
        let count = self.bytes.len().saturating_add(BEGINNINGS);
        for _ in 0..count / 8 + 1 {
            let bits = random.next();
            for place in 0..8_u32 {
                self.changes.push(u8::from((bits >> place) & 1 == 1))?;
            }
        }
        Ok(())
    }

    /// Changes the digits: each that may change is the other one of its pair, or stays.
    pub fn renew(&mut self) {
        self.renewals = self.renewals.wrapping_add(1);
        let beginning = self.renewals.wrapping_mul(41) % BEGINNINGS;
        if let Some(changes) = self.changes.get(beginning..) {
            change(&mut self.bytes, self.loose.as_slice(), changes);
        }
    }
}

// A decimal digit as a byte.
fn decimal_digit(digit: usize) -> u8 {
    b"0123456789".get(digit).copied().unwrap_or(b'0')
}

// Changes the lowest bit of each byte that may change, where the changes say so.
fn change(bytes: &mut [u8], loose: &[u8], changes: &[u8]) {
    let count = bytes.len().min(loose.len()).min(changes.len());
    for i in 0..count {
        bytes[i] ^= loose[i] & changes[i];
    }
}
