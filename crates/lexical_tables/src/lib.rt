//! Tables: the rows of a text are read by one call, and the first wrong cell is reported.
//!
//! A row is a line, and its cells stand between separators, one byte that the caller names, or each has as
//! many bytes as its width says; then a row may also be a record, which no line feed ends. Each row has as many
//! cells as the caller says. Each column is read into a slice of its own, of its own type and format, or isn't
//! read.
//!
//! Nothing is guessed: what the caller doesn't ask for is a fault with its row, its column and its place.
#![tactic(auto)]

mod alone;
mod amounts;
mod answers;
mod at_once;
mod bad_rows;
mod by_column;
mod cell_text;
mod cells;
mod coded;
mod coded_cells;
pub mod codes;
mod column_integer;
mod columns;
mod content;
mod dialect;
mod digit_cells;
mod ends;
mod far_cells;
mod fixed_targets;
mod fold;
mod header;
mod known_cells;
mod marked_rows;
mod misplaced;
mod next_part;
mod number_cells;
mod numbers;
mod parsed;
mod parts;
mod pass;
mod places;
mod quotes;
mod row_cells;
mod row_end;
mod rows;
mod skipping;
mod targets;
mod text_targets;
mod wide_rows;

pub use alone::columns_alone;
pub use amounts::{breaks_zero_rule, is_quick, units_of_front};
pub use answers::{CellFault, Table, TableError};
pub use at_once::put_at_once;
pub use bad_rows::{BadRow, KeptRow, Skipped};
pub use by_column::read_columns;
pub use cell_text::CellText;
pub use column_integer::{ColumnInteger, put_with_sign};
pub use columns::Column;
pub use dialect::{Dialect, Layout};
pub use fixed_targets::{FixedTarget, put_fixed, put_fixed_at_once};
pub use fold::fold_quotes;
pub use header::after_lines;
pub use numbers::Numbers;
pub use parsed::{put_in_radix, put_standard_parsed};
pub use parts::{columns_in_parts, read_columns_part};
pub use places::{RowPlace, faults_have_places, row_place};
pub use row_cells::{CellPlace, put_cells};
pub use skipping::{read_columns_skipping, read_part_skipping, skipping_in_parts};
pub use targets::{TableColumn, Target, put_bit, put_cell, put_standard_cell, put_zero};
pub use text_targets::TextTarget;
