//! Words, lanes and tables of digits: from bytes to numbers and counts, under no format.
#![tactic(auto)]

pub mod digits;
pub mod fronts;
pub mod lanes;
pub mod nibbles;
pub mod table;
pub mod values;
pub mod words;
pub mod zeros;
