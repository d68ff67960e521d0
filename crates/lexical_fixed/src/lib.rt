//! Fixed-point numbers, as amounts of money are written: `12.50` with two places is 1250.
#![tactic(auto)]

mod api;
mod append;
mod around;
mod by_point;
pub mod error;
pub mod format;
mod fraction;
mod joined;
pub mod laws;
mod parse;
mod parted;
pub mod quick;
mod short;

pub use api::{FromFixed, ParseFixed};
pub use error::{FixedError, FixedFormatError};
pub use format::FixedFormat;
pub use lexical_util::error::Error;
pub use lexical_util::format::{NumberFormat, NumberFormatBuilder};
