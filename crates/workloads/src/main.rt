//! Jobs that users of the library wait for, to be timed: `workloads NAME PASSES SEED`.
//!
//! Each job makes its input from the seed, reads it `PASSES` times, each time with other digits,
//! and prints a digest of all answers. Nothing here is for users.
#![tactic(auto)]

mod arguments;
mod columns;
mod digest;
mod exports;
mod ledger;
mod lines;
mod random;
mod rows;
mod sample;
mod source;
mod texts;

use crate::arguments::{Job, job_of};
use crate::digest::Digest;
use std::alloc::{AllocError, Global};
use std::process::ExitCode;

/// Does the job that the arguments name, and prints its digest. Arguments that name none, and memory that is refused,
/// are reported by standard error and status 2.
fn main(rt: HostRuntime) -> ExitCode {
    let Some(job) = job_of(&rt) else {
        let _shown = eprintln!(rt; "usage: workloads NAME PASSES SEED");
        return ExitCode::from(2);
    };
    match digest_of(rt.alloc(), &job) {
        Ok(digest) => {
            let told = digest.told();
            match println!(rt; "{told:016x}") {
                Ok(()) => ExitCode::SUCCESS,
                Err(_) => ExitCode::from(2),
            }
        }
        Err(_) => {
            let _shown = eprintln!(rt; "workloads: no memory");
            ExitCode::from(2)
        }
    }
}

// The digest of a job's answers. With the name `all` each job is done, one after the other.
fn digest_of(alloc: Global, job: &Job) -> Result<Digest, AllocError> {
    let mut digest = Digest::new();
    if job.is("ledger") {
        ledger::run(alloc, job.passes, job.seed, &mut digest)?;
    }
    if job.is("exports") {
        exports::run(alloc, job.passes, job.seed, &mut digest)?;
    }
    if job.is("columns") {
        columns::run(alloc, job.passes, job.seed, &mut digest)?;
    }
    if job.is("source") {
        source::run(alloc, job.passes, job.seed, &mut digest)?;
    }
    if job.is("lines") {
        lines::run(alloc, job.passes, job.seed, &mut digest)?;
    }
    if job.is("texts") {
        texts::run(alloc, job.passes, job.seed, &mut digest)?;
    }
    Ok(digest)
}
