// Reads, writes and flushes that are refused, and bytes that come and go one at a time.

use super::devices::{Reader, Writer};
use super::{ANSWERS, BLOCK, INPUT, OUTPUT, TIMES, ends, repeated};
use answer_lines::RunError;
use std::alloc::Global;
use std::io::ErrorKind;
use std::process::Abort;
use std::test::Fail;

// Faults that a run could mistake for an end, or for something to try again.
const KINDS: [ErrorKind; 8] = [
    ErrorKind::Other,
    ErrorKind::WouldBlock,
    ErrorKind::TimedOut,
    ErrorKind::UnexpectedEof,
    ErrorKind::BrokenPipe,
    ErrorKind::WriteZero,
    ErrorKind::OutOfMemory,
    ErrorKind::InvalidInput,
];

// Each read is refused in turn, also the one at the end.
fn refuses_each_read(rt: &impl Abort, alloc: Global, bytes: &[u8], most: usize, kind: ErrorKind) {
    for good in 0..=bytes.len() {
        let mut reader = Reader::new(bytes, most, 0);
        reader.good = good;
        reader.kind = kind;
        let writer = Writer::new(b"", 1);
        ends(rt, alloc, reader, writer, Err(RunError::Read), 0, 0);
    }
}

// Each write is refused in turn, by this fault, or by taking no byte.
fn refuses_each_write(
    rt: &impl Abort,
    alloc: Global,
    bytes: &[u8],
    block: &[u8],
    most: usize,
    writes: usize,
    refusal: Option<ErrorKind>,
) {
    for good in 0..writes {
        let mut writer = Writer::new(block, most);
        writer.good = good;
        writer.refusal = refusal;
        let reader = Reader::new(bytes, usize::MAX, 0);
        ends(rt, alloc, reader, writer, Err(RunError::Write), good, 0);
    }
}

// A run takes `writes` writes, and reports it if one of them or the flush is refused.
fn tells_what_is_refused(
    rt: &impl Abort,
    alloc: Global,
    bytes: &[u8],
    block: &[u8],
    times: usize,
    most: usize,
    writes: usize,
) {
    let all = block.len().saturating_mul(times);
    let reader = Reader::new(bytes, usize::MAX, 0);
    let writer = Writer::new(block, most);
    ends(rt, alloc, reader, writer, Ok(()), writes, all);
    refuses_each_write(rt, alloc, bytes, block, most, writes, None);
    let interrupted = Some(ErrorKind::Interrupted);
    refuses_each_write(rt, alloc, bytes, block, most, writes, interrupted);
    for kind in KINDS {
        refuses_each_write(rt, alloc, bytes, block, most, writes, Some(kind));
    }
    for kind in [
        ErrorKind::Interrupted,
        ErrorKind::Other,
        ErrorKind::WouldBlock,
    ] {
        let reader = Reader::new(bytes, usize::MAX, 0);
        let mut writer = Writer::new(block, most);
        writer.unflushed = Some(kind);
        ends(rt, alloc, reader, writer, Err(RunError::Write), writes, all);
    }
}

// A run that reads and writes one byte a call writes the block `times` times.
fn goes_byte_by_byte(rt: &impl Abort, alloc: Global, bytes: &[u8], block: &[u8], times: usize) {
    let all = block.len().saturating_mul(times);
    for interruptions in [0, 1, 5] {
        let reader = Reader::new(bytes, 1, interruptions);
        let writer = Writer::new(block, 1);
        ends(rt, alloc, reader, writer, Ok(()), all, all);
    }
}

// Where a byte, seven bytes or all come by a read.
fn refuses_each_read_of_input(rt: &impl Abort, alloc: Global, kind: ErrorKind) {
    refuses_each_read(rt, alloc, INPUT, 1, kind);
    refuses_each_read(rt, alloc, INPUT, 7, kind);
    refuses_each_read(rt, alloc, INPUT, usize::MAX, kind);
}

#[test]
fn a_refused_read_writes_nothing(rt: HostRuntime) -> Result<(), Fail> {
    for kind in KINDS {
        refuses_each_read_of_input(&rt, rt.alloc(), kind);
    }
    let long = repeated(rt.alloc(), BLOCK, TIMES)?;
    refuses_each_read(&rt, rt.alloc(), &long, usize::MAX, ErrorKind::Other);
    Ok(())
}

/// The long runs write 135,000 and 360,000 bytes, by some 65,400 at a time.
#[test]
fn a_refused_write_or_flush_is_told(rt: HostRuntime) -> Result<(), Fail> {
    let alloc = rt.alloc();
    let long = repeated(alloc, BLOCK, TIMES)?;
    let empty = repeated(alloc, b"\n", 40_000)?;
    tells_what_is_refused(&rt, alloc, INPUT, OUTPUT, 1, 1, OUTPUT.len());
    tells_what_is_refused(&rt, alloc, &long, ANSWERS, TIMES, usize::MAX, 3);
    tells_what_is_refused(&rt, alloc, &long, ANSWERS, TIMES, 10_000, 15);
    tells_what_is_refused(&rt, alloc, &empty, b"bad line\n", 40_000, usize::MAX, 6);
    Ok(())
}

#[test]
fn bytes_go_one_at_a_time(rt: HostRuntime) -> Result<(), Fail> {
    let long = repeated(rt.alloc(), BLOCK, TIMES)?;
    goes_byte_by_byte(&rt, rt.alloc(), INPUT, OUTPUT, 1);
    goes_byte_by_byte(&rt, rt.alloc(), &long, ANSWERS, TIMES);
    Ok(())
}

/// No clause says after how many reads a run gives up: it goes on for more than a million.
#[test]
fn a_million_short_reads(rt: HostRuntime) -> Result<(), Fail> {
    let input = repeated(rt.alloc(), b"c u8 12\nr\n", 100_010)?;
    goes_byte_by_byte(&rt, rt.alloc(), &input, b"ok 12\nok\n", 100_010);
    Ok(())
}
