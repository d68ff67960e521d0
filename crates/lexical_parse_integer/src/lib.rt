//! Integers from bytes, under a format.
#![tactic(auto)]

mod affixes;
pub mod algorithm;
mod api;
pub mod cursor;
pub mod laws;
mod number;
pub mod options;
pub mod parse;
pub mod quick;
mod seek;
mod stop;
mod turns;

pub use api::{FromLexical, FromLexicalWithOptions};
pub use lexical_util::error::Error;
pub use lexical_util::format::{self, NumberFormat, NumberFormatBuilder};
pub use lexical_util::options::ParseOptions;
pub use lexical_util::result::Result;
pub use number::number_in_front;
pub use options::{Options, OptionsBuilder};
pub use stop::stops_after_digit;
