//! Calls on the fields of a text.

use crate::case::How;
use crate::number::Number;
use crate::seen::Seen;
use crate::turns::Call;
use lexical_fields::{Column, ColumnError, Fields, read_column, read_column_part};
use lexical_parse_integer::parse::ParseInteger;
use lexical_parse_integer::{NumberFormat, options};

// Adds what is answered of a column: its last number, its count, and where it stopped.
#[inline(always)]
fn take_column<T: Number>(seen: &mut Seen, answer: Result<Column, ColumnError>, values: &[T]) {
    match answer {
        Ok(column) => {
            seen.take_place(column.stop);
            seen.take_place(column.count);
            if let Some(last) = values.get(column.count.wrapping_sub(1)) {
                seen.take(last);
            }
        }
        Err(ColumnError::InvalidFormat(error)) => seen.take_error(error),
        Err(
            ColumnError::InvalidField {
                field,
                start,
                error,
            },
        ) => {
            seen.take_place(field);
            seen.take_place(start);
            seen.take_error(error);
        }
    }
}

/// `read_column`, and for a part of a text `read_column_part`.
#[derive(Drop)]
pub struct ReadColumn<T: Drop> {
    pub format: NumberFormat,
    pub how: How,
    pub values: Vec<T>,
}

// What is answered of a column, or of a part of one.
#[inline(always)]
fn read<T: ParseInteger>(
    text: &[u8],
    format: &NumberFormat,
    how: &How,
    values: &mut [T],
) -> Result<Column, ColumnError> {
    let standard = &options::STANDARD;
    if how.is_part {
        read_column_part::<T>(text, false, how.separator, format, standard, values)
    } else {
        read_column::<T>(text, how.separator, format, standard, values)
    }
}

impl<T: ParseInteger + Number + Drop> Call<T> for ReadColumn<T> {
    #[inline(always)]
    fn once(&mut self, text: &[u8], seen: &mut Seen) {
        let answer = read::<T>(text, &self.format, &self.how, &mut self.values);
        take_column(seen, answer, self.values.as_slice());
    }
}

/// `Fields`, from the first to the last.
#[derive(Drop)]
pub struct EachField {
    pub format: NumberFormat,
    pub how: How,
}

impl<T: ParseInteger + Number + Drop> Call<T> for EachField {
    #[inline(always)]
    fn once(&mut self, text: &[u8], seen: &mut Seen) {
        let fields: Fields<'_, T> = Fields::new(
            text,
            self.how.separator,
            &self.format,
            &options::STANDARD,
        );
        for field in fields {
            seen.take_answer(field.answer);
        }
    }
}
