//! The numbers of a text's fields: one after the other, or a column of them by one call.
//!
//! A field is the bytes up to a separator, one byte that the caller names. The last field needs none
//! after it, and a last separator starts no further field: the lines of a file are its fields between
//! line feeds. The empty text has no field, and a field may be empty.
//!
//! Any byte may be the separator, also a digit, a sign or a byte that the format gives a meaning: the
//! text is cut first, and then each field is read whole.
#![tactic(auto)]

mod any_format;
mod columns;
mod first;
mod iterator;
mod lines;
mod marked;
mod parts;
mod places;
mod search;
mod split;
mod threes;

pub use columns::{Column, ColumnError, read_column};
pub use iterator::{Field, Fields};
pub use lines::{LineColumn, line_column};
pub use marked::{
    next_marks, number_of_front, number_to_12, split_marked, value_in_front, value_of_front,
};
pub use parts::{read_column_part, reads_in_parts, whole_fields};
pub use places::error_in_text;
pub use search::{lowest_mark, marks_among_16};
pub use split::field_length;
