//! Proved callers of the integer parser, each a file of its own.
#![tactic(auto)]

pub mod config;
pub mod fixed_width;
pub mod json;
pub mod ledger;
pub mod price;
pub mod source;
pub mod toml;
