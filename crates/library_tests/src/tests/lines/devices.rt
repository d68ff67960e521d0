// Devices that give and take bytes badly.

use answer_lines::Buffer;
use std::alloc::AllocError;
use std::io::{Error, ErrorKind, Read, Result, Write};

/// Gives at most `most` bytes a call, each time after `interruptions` interrupted calls. It refuses
/// one read, once it has given `good` bytes: a second try would get the rest.
#[derive(Drop)]
pub struct Reader<'a> {
    bytes: &'a [u8],
    most: usize,
    pub good: usize,
    pub kind: ErrorKind,
    interruptions: usize,
    left: usize,
}

impl<'a> Reader<'a> {
    /// One that refuses nothing.
    pub fn new(bytes: &'a [u8], most: usize, interruptions: usize) -> Reader<'a> {
        Reader {
            bytes,
            most,
            good: usize::MAX,
            kind: ErrorKind::Other,
            interruptions,
            left: interruptions,
        }
    }
}

impl Read for Reader<'_> {
    fn read(&mut self, buf: &mut [u8]) -> Result<usize> {
        if self.left > 0 {
            self.left -= 1;
            return Err(Error::from(ErrorKind::Interrupted));
        }
        self.left = self.interruptions;
        if self.good == 0 {
            self.good = usize::MAX;
            return Err(Error::from(self.kind));
        }
        let given = self.bytes.len().min(self.most).min(self.good);
        let count = given.min(buf.len());
        buf[..count].copy_from_slice(&self.bytes[..count]);
        self.bytes = &self.bytes[count..];
        self.good -= count;
        Ok(count)
    }
}

/// Compares what is written with a block of bytes repeated without end, counts it, and keeps none
/// of it. It takes at most `most` bytes a call, and refuses one write, the one after `good` writes,
/// or the first flush. A second try would succeed.
#[derive(Drop)]
pub struct Writer<'a> {
    block: &'a [u8],
    place: usize,
    most: usize,
    pub good: usize,
    /// What the refused write answers: a fault, or that it took no byte.
    pub refusal: Option<ErrorKind>,
    /// What the first flush answers.
    pub unflushed: Option<ErrorKind>,
    pub is_other: bool,
    pub writes: usize,
    pub bytes: usize,
    /// The bytes before a flush, where that was the last call.
    pub flushed: usize,
}

impl<'a> Writer<'a> {
    /// One that refuses nothing.
    pub fn new(block: &'a [u8], most: usize) -> Writer<'a> {
        Writer {
            block,
            place: 0,
            most,
            good: usize::MAX,
            refusal: None,
            unflushed: None,
            is_other: false,
            writes: 0,
            bytes: 0,
            flushed: 0,
        }
    }

    fn compare(&mut self, bytes: &[u8]) {
        for byte in bytes {
            if self.place >= self.block.len() {
                self.place = 0;
            }
            self.is_other |= self.block.get(self.place) != Some(byte);
            self.place = self.place.saturating_add(1);
        }
    }
}

impl Write for Writer<'_> {
    fn write(&mut self, buf: &[u8]) -> Result<usize> {
        if self.good == 0 {
            self.good = usize::MAX;
            return match self.refusal {
                Some(kind) => Err(Error::from(kind)),
                None => Ok(0),
            };
        }
        self.good -= 1;
        self.flushed = 0;
        let count = buf.len().min(self.most);
        self.compare(&buf[..count]);
        self.writes = self.writes.saturating_add(1);
        self.bytes = self.bytes.saturating_add(count);
        Ok(count)
    }

    fn flush(&mut self) -> Result<()> {
        self.flushed = self.bytes;
        match self.unflushed.take() {
            Some(kind) => Err(Error::from(kind)),
            None => Ok(()),
        }
    }
}

/// Refuses every growth after the first `left`.
#[derive(Drop)]
pub struct RefusingBuffer {
    pub held: Vec<u8>,
    pub left: usize,
}

impl Buffer for RefusingBuffer {
    ghost contents = { λ b. b.held.items };

    fn append(&mut self, bytes: &[u8]) -> std::result::Result<(), AllocError> {
        if bytes.len() > self.held.capacity() - self.held.len() {
            if self.left == 0 {
                return Err(AllocError);
            }
            self.left -= 1;
        }
        self.held.extend_from_slice(bytes)
    }

    fn bytes(&self) -> &[u8] {
        self.held.as_slice()
    }
}
