//! Sums of what calls return.

use crate::number::Number;
use lexical_parse_integer::{Error, Result as Answer};
use std::io::{Result, Write};

/// The sums of what some calls returned: of the low 64 bits of numbers, of places and counts, and of faults, each as
/// the number that it has in C.
#[derive(Debug, Clone, Copy, PartialEq, Eq)]
pub struct Seen {
    pub numbers: u64,
    pub places: u64,
    pub faults: u64,
}

impl Seen {
    /// Nothing yet.
    pub fn new() -> Seen {
        Seen {
            numbers: 0,
            places: 0,
            faults: 0,
        }
    }

    /// These sums, `count` times over.
    pub fn times(&self, count: u64) -> Seen {
        Seen {
            numbers: self.numbers.wrapping_mul(count),
            places: self.places.wrapping_mul(count),
            faults: self.faults.wrapping_mul(count),
        }
    }

    /// Adds a number.
    #[inline(always)]
    pub fn take<T: Number>(&mut self, number: &T) {
        self.numbers = self.numbers.wrapping_add(number.low());
    }

    /// Adds a place, or a count.
    #[inline(always)]
    pub fn take_place(&mut self, place: usize) {
        self.places = self.places.wrapping_add(place as u64);
    }

    /// Adds a fault by its number, and its place.
    #[inline(always)]
    pub fn take_fault(&mut self, fault: u64, place: usize) {
        self.faults = self.faults.wrapping_add(fault);
        self.take_place(place);
    }

    /// Adds a fault of a text, or of a format.
    #[inline(never)]
    pub fn take_error(&mut self, error: Error) {
        let fault = match error {
            Error::Overflow(_) => 1,
            Error::Underflow(_) => 2,
            Error::InvalidDigit(_) => 3,
            Error::Empty(_) => 4,
            Error::MissingSign(_) => 5,
            Error::InvalidPositiveSign(_) => 6,
            Error::InvalidLeadingZeros(_) => 7,
            Error::InvalidMantissaRadix => 8,
            Error::InvalidDigitSeparator => 9,
            Error::InvalidBasePrefix => 10,
            Error::InvalidBaseSuffix => 11,
            Error::InvalidPunctuation => 12,
            Error::InvalidLiteralPrefixes => 13,
        };
        self.take_fault(fault, error.index().unwrap_or(0));
    }

    /// Adds the answer to a whole text.
    #[inline(always)]
    pub fn take_answer<T: Number + Drop>(&mut self, answer: Answer<T>) {
        match answer {
            Ok(number) => self.take(&number),
            Err(error) => self.take_error(error),
        }
    }

    /// Adds the answer to a front.
    #[inline(always)]
    pub fn take_front<T: Number + Drop>(&mut self, answer: Answer<(T, usize)>) {
        match answer {
            Ok((number, place)) => {
                self.take(&number);
                self.take_place(place);
            }
            Err(error) => self.take_error(error),
        }
    }
}

impl Write for Seen {
    fn write(&mut self, bytes: &[u8]) -> Result<usize> {
        self.take_place(bytes.len());
        Ok(bytes.len())
    }

    fn flush(&mut self) -> Result<()> {
        Ok(())
    }
}
