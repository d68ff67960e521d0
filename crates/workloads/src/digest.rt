//! A number that stands for all answers, in their order.

use lexical_parse_integer::Error;
use std::io::{Result, Write};

/// The answers so far, as two sums: one of the numbers, and one of the values that the first sum
/// had.
#[derive(Drop)]
pub struct Digest {
    sum: u64,
    sums: u64,
}

impl Digest {
    /// The digest of no answers.
    pub fn new() -> Digest {
        Digest { sum: 1, sums: 0 }
    }

    /// The digest as a number.
    pub fn told(&self) -> u64 {
        self.sums.wrapping_mul(0x9e37_79b9_7f4a_7c15) ^ self.sum
    }

    /// Takes a number.
    #[inline(always)]
    pub fn take(&mut self, number: u64) {
        self.sum = self.sum.wrapping_add(number);
        self.sums = self.sums.wrapping_add(self.sum);
    }

    /// Takes a place, or a count.
    #[inline(always)]
    pub fn take_size(&mut self, size: usize) {
        self.take(size as u64);
    }

    /// Takes the numbers of a column.
    pub fn take_all<T: Digested>(&mut self, numbers: &[T]) {
        for i in 0..numbers.len() {
            self.take(numbers[i].folded());
        }
    }

    /// Takes bytes.
    pub fn take_bytes(&mut self, bytes: &[u8]) {
        let (words, rest) = bytes.as_chunks::<8>();
        for i in 0..words.len() {
            self.take(u64::from_le_bytes(words[i]));
        }
        for i in 0..rest.len() {
            self.take(rest[i] as u64);
        }
        self.take(bytes.len() as u64);
    }

    /// Takes a fault: which it is, and its place.
    pub fn take_error(&mut self, error: Error) {
        let kind = match error {
            Error::Overflow(_) => 1,
            Error::Underflow(_) => 2,
            Error::InvalidDigit(_) => 3,
            Error::Empty(_) => 4,
            Error::MissingSign(_) => 5,
            Error::InvalidPositiveSign(_) => 6,
            Error::InvalidLeadingZeros(_) => 7,
            _ => 8,
        };
        self.take(kind);
        self.take_size(error.index().unwrap_or(0));
    }
}

impl Write for Digest {
    fn write(&mut self, bytes: &[u8]) -> Result<usize> {
        self.take_bytes(bytes);
        Ok(bytes.len())
    }

    fn flush(&mut self) -> Result<()> {
        Ok(())
    }
}

/// A number whose bits a digest takes.
pub trait Digested {
    /// Its bits, folded into 64 where it has more.
    fn folded(&self) -> u64;
}

impl Digested for u32 {
    #[inline(always)]
    fn folded(&self) -> u64 {
        *self as u64
    }
}

impl Digested for u64 {
    #[inline(always)]
    fn folded(&self) -> u64 {
        *self
    }
}

impl Digested for i64 {
    #[inline(always)]
    fn folded(&self) -> u64 {
        self.cast_unsigned()
    }
}

impl Digested for u128 {
    #[inline(always)]
    fn folded(&self) -> u64 {
        ((*self >> 64) as u64) ^ ((*self & 0xffff_ffff_ffff_ffff) as u64)
    }
}

impl Digested for u8 {
    #[inline(always)]
    fn folded(&self) -> u64 {
        *self as u64
    }
}
