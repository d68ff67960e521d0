//! The bad rows of a table, as C has them.

ghost use Rattle.jadvolni.specs.Skipping.{bad_fields};

use crate::tables::cell_outcome;
use lexical_tables::{BadRow, KeptRow};

/// What is known of a bad row: `jadvolni_bad_row` in C, where each field is described.
#[repr(C)]
#[derive(Copy, Clone)]
pub struct BadRowFields {
    pub status: u32,
    pub reserved: [u8; 20],
    pub row: usize,
    pub column: usize,
    pub place: usize,
    pub start: usize,
    pub stop: usize,
}

impl KeptRow for BadRowFields {
    ghost kept = { bad_fields };

    fn of_bad_row(row: BadRow) -> Self {
        let (status, place) = cell_outcome(row.error.fault);
        BadRowFields {
            status,
            reserved: [0; 20],
            row: row.error.row,
            column: row.error.column,
            place,
            start: row.place.start,
            stop: row.place.stop,
        }
    }
}
