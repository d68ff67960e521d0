// A module for each library that is called.

mod bad_rows;
mod fields;
mod fixed;
mod lines;
mod literals;
mod parser;
mod readers;
mod row_cells;
mod tables;
mod util;

use std::fmt::Debug;
use std::process::Abort;

// An answer is as expected. An assertion takes the prover seconds, and a call to this function a tenth of a second.
fn answers<A: PartialEq + Debug + Drop>(rt: &impl Abort, answer: A, expected: A) {
    assert_eq!(rt; answer, expected);
}
