//! The answer lines to the lines of an input, as the program `lexint` writes them.
#![tactic(auto)]

mod answer;
mod append;
mod batch;
mod buffer;
mod command;
mod decimal;
mod fault;
mod field;
mod laws;
mod lines;
mod number;
mod parse;
mod program;
mod settings;

/// The tokens of a source, as the library has them.
pub mod literals {
    pub use lexical_literals::{Kind, Token, Tokens, literal_format};
}

pub use buffer::Buffer;
pub use command::TypeName;
pub use fault::RunError;
pub use number::Number;
pub use parse::complete;
pub use program::{run, run_from, run_with};
