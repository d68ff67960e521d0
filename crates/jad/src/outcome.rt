//! What a run writes, and how it ends.

ghost use Rattle.std.specs.Prelude.{◌≡◌, IfOk, map};
ghost use Rattle.answer_lines.specs.Command.{type_of};
ghost use Rattle.jad.specs.Outcome.{asks_for_help, outcome_asked, outcome_for, outcome_of};
ghost use Rattle.jad.specs.Question.{Question};

use crate::question::{Question, asked_by};
use answer_lines::{Number, complete};
use lexical_parse_integer::{Result as Parse, options};
use std::alloc::{AllocError, Global};
use std::marker::Model;

/// How the program is called.
const USAGE: &str =
    "usage: jad TYPE [--format NAME | --radix N] [--] TEXT; man jad lists TYPE and NAME";

/// What goes to standard output and to standard error, and the exit status.
#[derive(Drop)]
pub struct Outcome {
    pub output: String,
    pub error: String,
    pub status: u8,
}

impl Model for Outcome {
    ghost use Rattle.std.specs.Prelude.{string_bytes};
    ghost use Rattle.jad.specs.Outcome.{Outcome};

    ghost Value = { Outcome };

    ghost view = { λ o. record {
      output = string_bytes o.output;
      error = string_bytes o.error;
      status = o.status;
    } };
}

// A number goes to standard output, and a fault to standard error.
fn outcome_of(alloc: Global, answer: Parse<Number>) -> Result<Outcome, AllocError>
    ensures { IfOk result (λ told. told ≡ outcome_of answer) }
{
    match answer {
        Ok(value) => Ok(Outcome {
            output: format!(in alloc; "{value}\n")?,
            error: String::new(alloc),
            status: 0,
        }),
        Err(fault) => Ok(Outcome {
            output: String::new(alloc),
            error: format!(in alloc; "jad: {fault}\n")?,
            status: 1,
        }),
    }
}

// Reads the whole text. If the arguments aren't a question, standard error shows how to ask one.
fn outcome_asked(alloc: Global, asked: Option<Question<'_>>) -> Result<Outcome, AllocError>
    ensures { IfOk result (λ told. told ≡ outcome_asked asked.entry) }
{
    match asked {
        None => Ok(Outcome {
            output: String::new(alloc),
            error: format!(in alloc; "{USAGE}\n")?,
            status: 2,
        }),
        Some(asked) => {
            let answer = complete(asked.name, asked.text, &asked.format, &options::STANDARD);
            outcome_of(alloc, answer)
        }
    }
}

// Whether the one argument asks how the program is called.
fn asks_for_help(arguments: &[&[u8]]) -> bool
    ensures { result ≡ asks_for_help (map (λ argument. argument.now) arguments.now) }
{
    match arguments {
        [argument] => *argument == b"--help".as_slice(),
        _ => false,
    }
}

/// The outcome of a run with these arguments, which don't include the program's name. No contract says more than this
/// about the program: `main` writes the two texts, and returns the status.
pub fn outcome_for(alloc: Global, arguments: &[&[u8]]) -> Result<Outcome, AllocError>
    ensures { IfOk result (λ told. told
        ≡ outcome_for (map (λ argument. argument.now) arguments.now)) }
{
    if asks_for_help(arguments) {
        return Ok(Outcome {
            output: format!(in alloc; "{USAGE}\n")?,
            error: String::new(alloc),
            status: 0,
        });
    }
    outcome_asked(alloc, asked_by(arguments))
}
