//! Reads all of standard input, and writes an answer line for each line of it.
#![tactic(auto)]

pub use answer_lines::{RunError, literals, run, run_from};
use std::io::IsTerminal;
use std::process::ExitCode;

/// What is shown to a user at a terminal before anything is read: nothing is answered before the input ends.
const WAITING: &str = "lexint: waiting for lines; Ctrl-D on an empty line ends them";

/// Runs over standard input and output, and ends with status 0. If the run has a fault, its message goes to standard
/// error, and the status is 2. If standard input is a terminal, standard error first says what the program waits for.
fn main(rt: HostRuntime) -> ExitCode {
    let mut input = rt.stdin();
    let mut out = rt.stdout();
    if input.is_terminal() {
        let _shown = eprintln!(rt; "{WAITING}");
    }
    match run_from(rt.alloc(), &mut input, &mut out) {
        Ok(()) => ExitCode::SUCCESS,
        Err(fault) => {
            let text = fault.message();
            let _shown = eprintln!(rt; "{text}");
            ExitCode::from(2)
        }
    }
}
