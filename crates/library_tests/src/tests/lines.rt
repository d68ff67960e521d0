// Runs over readers, writers and buffers that refuse: what a built program can't be made to meet.

mod devices;
mod memory;
mod refusals;

use answer_lines::{RunError, run_from};
use devices::{Reader, Writer};
use std::alloc::{AllocError, Global};
use std::process::Abort;

const INPUT: &[u8] =
    b"c u64 18446744073709551616\nc u64 1234\np u64 1234 }, {\"Key\"\nc i8 -128\nc i8 -129\np u32 -12345\nc u8 \nc u8 1a\nc u9 1\n";

const OUTPUT: &[u8] =
    b"err Overflow 19\nok 1234\nok 1234 4\nok -128\nerr Underflow 3\nok 0 0\nerr Empty 0\nerr InvalidDigit 1\nbad line\n";

// Lines whose answers are longer than they are, so that a short input has several writes.
const BLOCK: &[u8] = b"c u8 256\nc u8 \n\n\n\n\n\n\n\n\n\n\n\n\n";

const ANSWERS: &[u8] =
    b"err Overflow 2\nerr Empty 0\nbad line\nbad line\nbad line\nbad line\nbad line\nbad line\nbad line\nbad line\nbad line\nbad line\nbad line\nbad line\n";

// How many blocks a long input has: their answers take more than two gathering arrays.
const TIMES: usize = 1000;

// `times` copies of some bytes.
fn repeated(alloc: Global, piece: &[u8], times: usize) -> Result<Vec<u8>, AllocError> {
    let mut bytes = Vec::new(alloc);
    for _ in 0..times {
        bytes.extend_from_slice(piece)?;
    }
    Ok(bytes)
}

// A run over these devices has this answer. It writes only the block's bytes, by `writes` writes.
// `flushed` of them are written before the flush, which comes last; 0 means that there is no flush.
fn ends(
    rt: &impl Abort,
    alloc: Global,
    reader: Reader<'_>,
    writer: Writer<'_>,
    answer: Result<(), RunError>,
    writes: usize,
    flushed: usize,
) {
    let at = (reader.good, reader.kind, writer.good, writer.refusal);
    let mut input = reader;
    let mut out = writer;
    let found = run_from(alloc, &mut input, &mut out);
    assert_eq!(rt;
        (found, out.writes, out.flushed, out.is_other),
        (answer, writes, flushed, false),
        "at {at:?}"
    );
}
