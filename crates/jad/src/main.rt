//! Prints the integer that a text stands for: `jad TYPE TEXT`.
#![tactic(auto)]

mod arguments;
mod outcome;
mod question;

use crate::arguments::arguments_of;
use crate::outcome::outcome_for;
use std::alloc::Global;
use std::env::Env;
use std::io;
use std::process::ExitCode;

/// Writes what the arguments ask for. A fault of the system, such as a refused write, goes to standard error, and the
/// status is 2.
fn main(rt: HostRuntime) -> ExitCode {
    match answer(&rt, rt.alloc()) {
        Ok(status) => ExitCode::from(status),
        Err(fault) => {
            let _shown = eprintln!(rt; "jad: {fault}");
            ExitCode::from(2)
        }
    }
}

// Writes what the arguments ask for, and answers the status.
fn answer(rt: &(impl Print + Eprint + Env), alloc: Global) -> io::Result<u8> {
    let arguments = arguments_of(rt, alloc)?;
    let mut texts = Vec::new(alloc);
    for argument in &arguments {
        texts.push(argument.as_slice())?;
    }
    let told = outcome_for(alloc, &texts)?;
    print!(rt; "{}", told.output)?;
    eprint!(rt; "{}", told.error)?;
    Ok(told.status)
}
