// Bad rows of tables, as callers have them. proofs/skipped/WorkedRows.antt of the crate has more texts.

use crate::tests::answers;
use lexical_parse_integer::format::STANDARD;
use lexical_parse_integer::{Error, options};
use lexical_tables::{
    BadRow, CellFault, Dialect, Layout, Numbers, RowPlace, Skipped, TableError, Target,
    read_columns_skipping, read_part_skipping, row_place,
};
use std::slice;

// One column, without empty rows.
fn lines() -> Dialect<'static> {
    Dialect {
        layout: Layout::Separated {
            separator: b',',
            columns: 1,
        },
        has_returns: false,
        allows_returns: false,
        has_quotes: false,
        allows_blanks: false,
        skips_empty_rows: true,
        missing: b"",
    }
}

// A bad row from a place to another.
fn bad_row(row: usize, column: usize, fault: CellFault, start: usize, stop: usize) -> BadRow {
    BadRow {
        error: TableError { row, column, fault },
        place: RowPlace { start, stop },
    }
}

// What is read of a text or of a part of one, in room for two rows and two bad ones.
fn read(text: &[u8], is_last: bool) -> (Skipped, [i16; 2], [BadRow; 2]) {
    let mut numbers = [9; 2];
    let mut bad = [bad_row(9, 9, CellFault::TooFewCells(9), 9, 9); 2];
    let mut target = Some(Target {
        format: STANDARD,
        numbers: Numbers::I16(&mut numbers),
        present: None,
    });
    let targets = slice::from_mut(&mut target);
    let standard = options::STANDARD;
    let read = if is_last {
        read_columns_skipping(text, &lines(), &standard, 2, targets, &mut bad)
    } else {
        read_part_skipping(text, false, &lines(), &standard, 2, targets, &mut bad)
    };
    (read, numbers, bad)
}

#[test]
fn bad_rows_are_skipped(rt: HostRuntime) {
    let (read, numbers, bad) = read(b"1\nx\n\n-2\n,\n3", true);
    answers(&rt, (read.rows, read.bad_rows, read.stop), (2, 1, 8));
    answers(&rt, numbers, [1, -2]);
    let letter = CellFault::NotNumber(Error::InvalidDigit(2));
    answers(&rt, bad[0], bad_row(1, 0, letter, 2, 5));
    answers(&rt, bad[1].error.row, 9);
}

#[test]
fn a_bad_row_takes_no_room(rt: HostRuntime) {
    let (first, numbers, _) = read(b"x\n1\n2\n3", true);
    answers(&rt, (first.rows, first.bad_rows, first.stop), (2, 1, 6));
    answers(&rt, numbers, [1, 2]);
    let mut numbers = [9; 4];
    let mut bad: [BadRow; 0] = [];
    let mut target = Some(Target {
        format: STANDARD,
        numbers: Numbers::I16(&mut numbers),
        present: None,
    });
    let targets = slice::from_mut(&mut target);
    let text = b"1\n2\nx\n3\n4";
    let third = read_columns_skipping(text, &lines(), &options::STANDARD, 3, targets, &mut bad);
    answers(&rt, (third.rows, third.bad_rows, third.stop), (3, 1, 8));
    answers(&rt, numbers, [1, 2, 3, 9]);
}

#[test]
fn a_row_that_a_part_cuts_is_left(rt: HostRuntime) {
    let (read, numbers, bad) = read(b"7\n8,\n6", false);
    answers(&rt, (read.rows, read.bad_rows, read.stop), (1, 1, 5));
    answers(&rt, numbers[0], 7);
    answers(&rt, bad[0], bad_row(1, 1, CellFault::TooManyCells(4), 2, 5));
}

#[test]
fn rows_have_places(rt: HostRuntime) {
    let text = b"\n1\n\n2";
    let first = RowPlace { start: 1, stop: 4 };
    answers(&rt, row_place(text, &lines(), 0), Some(first));
    answers(&rt, row_place(text, &lines(), 2), None);
    let narrow = Dialect {
        layout: Layout::Records { widths: &[0] },
        ..lines()
    };
    let second = RowPlace { start: 1, stop: 2 };
    answers(&rt, row_place(b"12", &narrow, 1), Some(second));
}
