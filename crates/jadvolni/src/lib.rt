//! The parsers as C calls them: a static library, whose header is `include/jadvolni.h`.
#![tactic(auto)]

pub mod arrays;
pub mod bad_rows;
pub mod calls;
mod coded_columns;
pub mod columns;
pub mod fixed;
pub mod fixed_calls;
mod fixed_columns;
pub mod fixed_texts;
pub mod fold;
pub mod format;
mod format_words;
pub mod fronts;
pub mod halves;
pub mod lines;
pub mod literals;
pub mod outcome;
mod radix_columns;
pub mod row_cells;
pub mod signed;
pub mod skipping;
pub mod slot;
pub mod table_columns;
pub mod tables;
pub mod text_columns;
pub mod unsigned;
pub mod version;
