//! Makes the calls that bench/calls counts, several times each, so that callgrind can count what one takes. Standard
//! input has the cases, and standard output gets what each returns.
//!
//! Nothing here is for users.
#![tactic(auto)]

mod case;
mod cells;
mod columns;
mod dispatch;
mod format;
mod number;
mod own;
mod seen;
mod single;
mod sources;
mod tables;
mod turns;
mod valid;

use crate::case::{Case, next_case};
use crate::dispatch::answered;
use crate::seen::Seen;
use std::alloc::{AllocError, Global};
use std::io::{Read, Result, Write};
use std::process::ExitCode;

/// Answers each case of standard input. What can't be read or written, and memory that is refused, is reported by status 2.
fn main(rt: HostRuntime) -> ExitCode {
    let mut input = rt.stdin();
    let mut out = rt.stdout();
    let mut bytes = Vec::new(rt.alloc());
    if input.read_to_end(&mut bytes).is_err() {
        return ExitCode::from(2);
    }
    match answer_all(rt.alloc(), bytes.as_slice(), &mut out) {
        Ok(()) => ExitCode::SUCCESS,
        Err(_) => ExitCode::from(2),
    }
}

// Answers each case of an input, up to one that can't be read.
fn answer_all<W: Write>(alloc: Global, input: &[u8], out: &mut W) -> Result<()> {
    let mut rest = input;
    for _ in 0..input.len() {
        let Some((case, behind)) = next_case(rest) else {
            break;
        };
        tell(answer_of(alloc, &case), out)?;
        rest = behind;
    }
    if rest.is_empty() {
        return Ok(());
    }
    writeln!(out, "no case from {} bytes before the end on", rest.len())
}

// What a case returns, if there is memory and such a call.
fn answer_of(alloc: Global, case: &Case<'_>) -> Option<Seen> {
    match answered(alloc, case) {
        Ok(seen) => seen,
        Err(AllocError) => None,
    }
}

// Writes what a case returned: the sums of its numbers, of its places and of its faults.
fn tell<W: Write>(answer: Option<Seen>, out: &mut W) -> Result<()> {
    match answer {
        Some(seen) => writeln!(out, "{} {} {}", seen.numbers, seen.places, seen.faults),
        None => writeln!(out, "not answered"),
    }
}
