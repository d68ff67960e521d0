//! The arguments of the program.

use std::alloc::Global;
use std::env::{Env, FillError};
use std::io::{Error, ErrorKind, Result};

/// The most bytes that the system lets one argument have, with the NUL behind it.
const LONGEST: usize = 131_072;

/// The arguments behind the program's name, each with all of its bytes: none has to be text.
pub fn arguments_of(rt: &impl Env, alloc: Global) -> Result<Vec<Vec<u8>>> {
    let mut all = Vec::new(alloc);
    let mut bytes = [0; LONGEST];
    for number in 1..usize::MAX {
        match rt.arg(number, &mut bytes) {
            Ok(count) => {
                let mut argument = Vec::new(alloc);
                argument.extend_from_slice(&bytes[..count])?;
                if all.push(argument).is_err() {
                    return Err(Error::from(ErrorKind::OutOfMemory));
                }
            }
            Err(FillError::NotPresent) => return Ok(all),
            Err(FillError::TooLong) => return Err(Error::from(ErrorKind::ArgumentListTooLong)),
        }
    }
    Ok(all)
}
