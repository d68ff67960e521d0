//! Calls on one cell.

use crate::case::How;
use crate::number::Number;
use crate::seen::Seen;
use crate::turns::Call;
use crate::valid::ValidFormat;
use lexical_parse_integer::parse::ParseInteger;
use lexical_parse_integer::{Error, options};
use lexical_tables::{Numbers, TableColumn, Target, put_cell};

// Adds what is answered of a cell.
#[inline(always)]
fn take_cell<T: Number>(seen: &mut Seen, fault: Option<Error>, value: Option<&T>) {
    match fault {
        Some(error) => seen.take_error(error),
        None => {
            if let Some(number) = value {
                seen.take(number);
            }
        }
    }
}

// Reads a cell in front of a text by its target, if there is room.
#[inline(always)]
fn read<'a>(text: &[u8], format: &ValidFormat, how: &How, values: &'a mut [i64]) -> Option<Error> {
    let cell = text.get(..how.cell)?;
    if values.is_empty() {
        return None;
    }
    let mut target = Some(Target {
        format: *format.get(),
        numbers: Numbers::I64(values),
        present: None,
    });
    target.read(0, 0, cell, text, &options::STANDARD)
}

// Puts the number of a cell in front of a text, if there is room.
#[inline(always)]
fn put<T: ParseInteger>(
    text: &[u8],
    format: &ValidFormat,
    how: &How,
    values: &mut [T],
) -> Option<Error> {
    let cell = text.get(..how.cell)?;
    if values.is_empty() {
        return None;
    }
    put_cell::<T>(values, 0, 0, cell, text, format.get(), &options::STANDARD)
}

/// `TableColumn::read` of a target.
#[derive(Drop)]
pub struct ReadCell {
    pub format: ValidFormat,
    pub how: How,
    pub values: Vec<i64>,
}

impl Call<i64> for ReadCell {
    #[inline(always)]
    fn once(&mut self, text: &[u8], seen: &mut Seen) {
        let fault = read(text, &self.format, &self.how, &mut self.values);
        take_cell(seen, fault, self.values.as_slice().first());
    }
}

/// `put_cell`.
#[derive(Drop)]
pub struct PutCell<T: Drop> {
    pub format: ValidFormat,
    pub how: How,
    pub values: Vec<T>,
}

impl<T: ParseInteger + Number + Drop> Call<T> for PutCell<T> {
    #[inline(always)]
    fn once(&mut self, text: &[u8], seen: &mut Seen) {
        let fault = put::<T>(text, &self.format, &self.how, &mut self.values);
        take_cell(seen, fault, self.values.as_slice().first());
    }
}
