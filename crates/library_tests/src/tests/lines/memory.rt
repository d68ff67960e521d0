// Runs in memory, and growths of the input's buffer that are refused.
ghost use Rattle.std.specs.Prelude.{◌≡◌, IfOk};
ghost use Rattle.answer_lines.specs.Output.{output};

use super::super::answers;
use super::devices::{Reader, RefusingBuffer, Writer};
use super::{ANSWERS, BLOCK, INPUT, OUTPUT, TIMES, repeated};
use answer_lines::{RunError, run, run_from, run_with};
use std::alloc::Global;
use std::process::Abort;
use std::test::Fail;

// Each growth is refused in turn: nothing is written then. There are as many as `least`, and fewer than 30.
fn refuses_each_growth(
    rt: &impl Abort,
    alloc: Global,
    bytes: &[u8],
    block: &[u8],
    times: usize,
    least: usize,
) {
    let all = block.len().saturating_mul(times);
    let mut refused = 0usize;
    for left in 0..30usize {
        let held = Vec::new(alloc);
        let mut input = Reader::new(bytes, 1, 0);
        let mut out = Writer::new(block, usize::MAX);
        match run_with(RefusingBuffer { held, left }, &mut input, &mut out) {
            Ok(()) => answers(rt, (out.flushed, out.is_other), (all, false)),
            Err(fault) => {
                answers(rt, fault, RunError::Memory);
                answers(rt, (out.bytes, refused == left), (0, true));
                refused = refused.saturating_add(1);
            }
        }
    }
    answers(rt, least <= refused && refused < 30, true);
}

/// Both read a byte a call, so that the buffer grows from nothing.
#[test]
fn each_refused_growth_writes_nothing(rt: HostRuntime) -> Result<(), Fail> {
    let long = repeated(rt.alloc(), BLOCK, TIMES)?;
    refuses_each_growth(&rt, rt.alloc(), INPUT, OUTPUT, 1, 1);
    refuses_each_growth(&rt, rt.alloc(), &long, ANSWERS, TIMES, 6);
    Ok(())
}

// The bytes that a run from memory writes, by what its contract says alone.
fn output_in_memory(alloc: Global, input: &[u8]) -> Result<Vec<u8>, RunError>
    ensures { IfOk result (λ written. written.items ≡ output input.now) }
{
    let mut reader: &[u8] = input;
    let mut written = Vec::new(alloc);
    run_from(alloc, &mut reader, &mut written)?;
    Ok(written)
}

#[test]
fn a_run_writes_an_answer_line_for_each_line(rt: HostRuntime) -> Result<(), Fail> {
    let written = output_in_memory(rt.alloc(), INPUT)?;
    answers(&rt, written.as_slice(), OUTPUT);
    let mut out = Writer::new(OUTPUT, usize::MAX);
    let answer = run(INPUT, &mut out);
    answers(
        &rt,
        (answer, out.bytes, out.is_other),
        (Ok(()), OUTPUT.len(), false),
    );
    Ok(())
}
