//! Calls on tables of one column or three, whose numbers are of `i64`.

ghost use Rattle.std.specs.Prelude.{map};
ghost use Rattle.lexical_tables.specs.ByColumn.{AreUsable};

use crate::case::How;
use crate::own::Own;
use crate::seen::Seen;
use crate::turns::Call;
use lexical_parse_integer::{NumberFormat, options};
use lexical_tables::{
    CellFault, Numbers, Table, TableColumn, TableError, Target, read_columns, read_columns_part,
};
use std::alloc::{AllocError, Global};

// Adds what is wrong with a table.
#[inline(never)]
fn take_error(seen: &mut Seen, error: &TableError) {
    seen.take_place(error.row);
    seen.take_place(error.column);
    match error.fault {
        CellFault::NotNumber(fault) => seen.take_error(fault),
        CellFault::TooFewCells(place) => seen.take_fault(14, place),
        CellFault::TooManyCells(place) => seen.take_fault(15, place),
        CellFault::MissingReturn(place) => seen.take_fault(16, place),
        CellFault::MisplacedQuote(place) => seen.take_fault(18, place),
    }
}

// Adds what is answered of a table: its rows, where it stopped, and the number of its last row.
#[inline(always)]
fn take_table(seen: &mut Seen, answer: &Result<Table, TableError>, values: &[i64]) {
    match answer {
        Ok(table) => {
            seen.take_place(table.rows);
            seen.take_place(table.stop);
            if let Some(last) = values.get(table.rows.wrapping_sub(1)) {
                seen.take(last);
            }
        }
        Err(error) => take_error(seen, error),
    }
}

/// What is read, and where the numbers go.
#[derive(Drop)]
pub struct Place {
    pub alloc: Global,
    pub format: NumberFormat,
    pub how: How,
    pub first: Vec<i64>,
    pub second: Vec<i64>,
    pub third: Vec<i64>,
    pub present: Vec<u8>,
}

/// What is answered of a table, if its format is valid.
type Answer = Option<Result<Table, TableError>>;

// What is answered of a table, or of a part of one.
#[inline(always)]
fn read<C: TableColumn>(
    text: &[u8],
    how: &How,
    rows: usize,
    targets: &mut [C],
) -> Result<Table, TableError>
    requires usable { AreUsable rows (map C.target targets.old) }
{
    let dialect = how.dialect();
    let standard = &options::STANDARD;
    if how.is_part {
        return read_columns_part(text, false, &dialect, standard, rows, targets);
    }
    read_columns(text, &dialect, standard, rows, targets)
}

// What is answered of a table of one column.
#[inline(always)]
fn read_one<'a>(
    alloc: Global,
    text: &[u8],
    format: &NumberFormat,
    how: &How,
    values: &'a mut [i64],
) -> Result<Answer, AllocError> {
    if !format.is_valid() {
        return Ok(None);
    }
    let rows = values.len();
    let mut targets = Vec::new(alloc);
    targets.push(Some(Target {
        format: *format,
        numbers: Numbers::I64(values),
        present: None,
    }))?;
    Ok(Some(read(text, how, rows, &mut targets)))
}

// What is answered of a table of three columns.
#[inline(always)]
fn read_three<'a>(
    alloc: Global,
    text: &[u8],
    format: &NumberFormat,
    how: &How,
    first: &'a mut [i64],
    second: &'a mut [i64],
    third: &'a mut [i64],
) -> Result<Answer, AllocError> {
    if !format.is_valid() {
        return Ok(None);
    }
    let rows = first.len().min(second.len()).min(third.len());
    let mut targets = Vec::new(alloc);
    targets.push(Some(Target {
        format: *format,
        numbers: Numbers::I64(first),
        present: None,
    }))?;
    targets.push(Some(Target {
        format: *format,
        numbers: Numbers::I64(second),
        present: None,
    }))?;
    targets.push(Some(Target {
        format: *format,
        numbers: Numbers::I64(third),
        present: None,
    }))?;
    Ok(Some(read(text, how, rows, &mut targets)))
}

// What is answered of such a table, where the middle column isn't read, and numbers of the last may be missing.
#[inline(always)]
fn read_two<'a>(
    alloc: Global,
    text: &[u8],
    format: &NumberFormat,
    how: &How,
    first: &'a mut [i64],
    third: &'a mut [i64],
    present: &'a mut [u8],
) -> Result<Answer, AllocError> {
    if !format.is_valid() {
        return Ok(None);
    }
    let rows = first.len().min(third.len()).min(present.len());
    let mut targets = Vec::new(alloc);
    targets.push(Some(Target {
        format: *format,
        numbers: Numbers::I64(first),
        present: None,
    }))?;
    targets.push(None)?;
    targets.push(Some(Target {
        format: *format,
        numbers: Numbers::I64(third),
        present: Some(present),
    }))?;
    Ok(Some(read(text, how, rows, &mut targets)))
}

// The answer to a table of which no column is read: there are no targets, and columns behind the last target aren't
// read.
#[inline(always)]
fn read_none(alloc: Global, text: &[u8], how: &How) -> Result<Table, TableError> {
    let mut targets: Vec<Option<Target<'_>>> = Vec::new(alloc);
    read(text, how, how.rows, &mut targets)
}

// What is answered of a table with a user's own column.
#[inline(always)]
fn read_own<'a>(
    alloc: Global,
    text: &[u8],
    format: &NumberFormat,
    how: &How,
    values: &'a mut [i64],
) -> Result<Answer, AllocError> {
    if !format.is_valid() {
        return Ok(None);
    }
    let rows = values.len();
    let mut targets = Vec::new(alloc);
    targets.push(Own {
        target: Some(Target {
            format: *format,
            numbers: Numbers::I64(values),
            present: None,
        }),
    })?;
    Ok(Some(read(text, how, rows, &mut targets)))
}

/// `read_columns`, and for a part of a text `read_columns_part`.
#[derive(Drop)]
pub struct OneColumn {
    pub place: Place,
}

impl Call<i64> for OneColumn {
    #[inline(always)]
    fn once(&mut self, text: &[u8], seen: &mut Seen) {
        let place = &mut self.place;
        if let Ok(Some(answer)) = read_one(
            place.alloc,
            text,
            &place.format,
            &place.how,
            &mut place.first,
        ) {
            take_table(seen, &answer, place.first.as_slice());
        }
    }
}

/// The call for three columns.
#[derive(Drop)]
pub struct ThreeColumns {
    pub place: Place,
}

impl Call<i64> for ThreeColumns {
    #[inline(always)]
    fn once(&mut self, text: &[u8], seen: &mut Seen) {
        let place = &mut self.place;
        let answer = read_three(
            place.alloc,
            text,
            &place.format,
            &place.how,
            &mut place.first,
            &mut place.second,
            &mut place.third,
        );
        if let Ok(Some(answer)) = answer {
            take_table(seen, &answer, place.first.as_slice());
        }
    }
}

/// The call for three columns of which the middle one isn't read, and numbers of the last may be missing.
#[derive(Drop)]
pub struct TwoOfThree {
    pub place: Place,
}

impl Call<i64> for TwoOfThree {
    #[inline(always)]
    fn once(&mut self, text: &[u8], seen: &mut Seen) {
        let place = &mut self.place;
        let answer = read_two(
            place.alloc,
            text,
            &place.format,
            &place.how,
            &mut place.first,
            &mut place.third,
            &mut place.present,
        );
        if let Ok(Some(answer)) = answer {
            take_table(seen, &answer, place.first.as_slice());
        }
    }
}

/// The call for three columns of which none is read.
#[derive(Drop)]
pub struct NoneOfThree {
    pub alloc: Global,
    pub how: How,
}

impl Call<i64> for NoneOfThree {
    #[inline(always)]
    fn once(&mut self, text: &[u8], seen: &mut Seen) {
        let answer = read_none(self.alloc, text, &self.how);
        take_table(seen, &answer, &[]);
    }
}

/// `read_columns` with a user's own column.
#[derive(Drop)]
pub struct OwnColumn {
    pub place: Place,
}

impl Call<i64> for OwnColumn {
    #[inline(always)]
    fn once(&mut self, text: &[u8], seen: &mut Seen) {
        let place = &mut self.place;
        if let Ok(Some(answer)) = read_own(
            place.alloc,
            text,
            &place.format,
            &place.how,
            &mut place.first,
        ) {
            take_table(seen, &answer, place.first.as_slice());
        }
    }
}
