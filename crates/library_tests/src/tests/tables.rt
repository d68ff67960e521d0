// Tables, as callers have them. proofs/ColumnRows.antt of the crate has more texts.

mod bytes;

ghost use Rattle.std.specs.Prelude.{◌≡◌, ◌-◌, ◌≤◌, ◌<◌, drop, length, option_map, take, IfSome};
ghost use Rattle.lexical_tables.specs.Rows.{rows, rows_from};
ghost use Rattle.lexical_tables.specs.Targets.{view_of_target};

use crate::tests::answers;
use lexical_parse_integer::format::STANDARD;
use lexical_parse_integer::{Error, Options, options};
use lexical_tables::{
    CellFault, CellText, Dialect, Layout, Numbers, Table, TableColumn, TableError, Target,
    after_lines, fold_quotes, put_cell, put_standard_cell, read_columns, read_columns_part,
};
use std::alloc::{AllocError, Global};
use std::slice;
use std::test::Fail;

// What reading a table answers.
type Answer = Result<Table, TableError>;

// Two columns between commas, with returns or without.
fn pairs(has_returns: bool) -> Dialect<'static> {
    Dialect {
        layout: Layout::Separated {
            separator: b',',
            columns: 2,
        },
        has_returns,
        allows_returns: false,
        has_quotes: false,
        allows_blanks: false,
        skips_empty_rows: false,
        missing: b"",
    }
}

// The answer that `rows` rows were read, and that reading stopped at `stop`.
fn table(rows: usize, stop: usize) -> Answer {
    Ok(Table { rows, stop })
}

// The first wrong cell.
fn fault_in(row: usize, column: usize, fault: CellFault) -> Answer {
    Err(TableError { row, column, fault })
}

// What is read of a text whose first column is read, in room for three rows, and what that then holds.
fn read(text: &[u8], has_returns: bool) -> (Answer, [i16; 3]) {
    read_under(text, &pairs(has_returns))
}

// The same for a table with this dialect.
fn read_under(text: &[u8], dialect: &Dialect<'_>) -> (Answer, [i16; 3]) {
    let mut numbers = [9; 3];
    let mut target = Some(Target {
        format: STANDARD,
        numbers: Numbers::I16(&mut numbers),
        present: None,
    });
    let targets = slice::from_mut(&mut target);
    let answer = read_columns(text, dialect, &options::STANDARD, 3, targets);
    (answer, numbers)
}

// How many rows a table had room for, none of which is read, and what it leaves of the text: the rows behind them.
fn left_behind<'a>(text: &'a [u8], dialect: &Dialect<'_>, room: usize) -> Option<(usize, &'a [u8])>
    ensures room { IfSome result (λ left. left.0 ≤ room) }
    ensures rows { IfSome result (λ left.
        rows_from dialect.now (length text.now - length left.1.now) left.1.now
        ≡ drop left.0 (rows dialect.now text.now)) }
{
    let mut target: Option<Target<'_>> = None;
    let targets = slice::from_mut(&mut target);
    match read_columns(text, dialect, &options::STANDARD, room, targets) {
        Ok(table) => Some((table.rows, &text[table.stop..])),
        Err(_) => None,
    }
}

#[test]
fn a_table_leaves_the_rows_behind_its_room(rt: HostRuntime) {
    let left = left_behind(b"1,2\n3,4\nx", &pairs(false), 2);
    answers(&rt, left, Some((2, b"x".as_slice())));
}

#[test]
fn first_wrong_cells(rt: HostRuntime) {
    answers(&rt, read(b"1,\n-30,x", false), (table(2, 8), [1, -30, 9]));
    let letter = fault_in(1, 0, CellFault::NotNumber(Error::InvalidDigit(5)));
    answers(&rt, read(b"1,2\n3x,4\n,", false), (letter, [1, 9, 9]));
    let few = fault_in(1, 1, CellFault::TooFewCells(5));
    answers(&rt, read(b"1,2\n3\n", false), (few, [1, 3, 9]));
    let many = fault_in(0, 2, CellFault::TooManyCells(4));
    answers(&rt, read(b"1,2,", false), (many, [1, 9, 9]));
    let lacks = fault_in(0, 2, CellFault::MissingReturn(3));
    answers(&rt, read(b"1,2\n", true), (lacks, [1, 9, 9]));
}

#[test]
fn rows_may_end_either_way(rt: HostRuntime) {
    let dialect = Dialect {
        allows_returns: true,
        ..pairs(false)
    };
    let rows = read_under(b"1,2\r\n-30,x\n7,\r\n", &dialect);
    answers(&rt, rows, (table(3, 15), [1, -30, 7]));
    let within = fault_in(1, 0, CellFault::NotNumber(Error::InvalidDigit(5)));
    answers(
        &rt,
        read_under(b"1,2\n3\r,4\n", &dialect),
        (within, [1, 9, 9]),
    );
    let last = Dialect {
        layout: Layout::Separated {
            separator: b',',
            columns: 1,
        },
        ..dialect
    };
    let alone = fault_in(1, 0, CellFault::NotNumber(Error::InvalidDigit(4)));
    answers(&rt, read_under(b"6\r\n5\r", &last), (alone, [6, 9, 9]));
}

#[test]
fn cells_with_quotes_blanks_and_marks(rt: HostRuntime) {
    let mut numbers = [9_i16; 3];
    let mut bits = [0xfc];
    let mut target = Some(Target {
        format: STANDARD,
        numbers: Numbers::I16(&mut numbers),
        present: Some(&mut bits),
    });
    let dialect = Dialect {
        has_quotes: true,
        allows_blanks: true,
        missing: b"NA",
        ..pairs(false)
    };
    let targets = slice::from_mut(&mut target);
    let text = b"\" 1 \",\"a\"\"b,c\"\n\tNA,x\n";
    let answer = read_columns(text, &dialect, &options::STANDARD, 3, targets);
    answers(&rt, answer, table(2, 21));
    answers(&rt, (numbers, bits), ([1, 0, 9], [0xfd]));
}

#[test]
fn doubled_quotes_are_folded(rt: HostRuntime) {
    let mut to = *b".........";
    answers(&rt, fold_quotes(b"5\"\" nails", &mut to), 8);
    answers(&rt, to, *b"5\" nails.");
    let mut short = *b"...";
    answers(&rt, fold_quotes(b"a\"\"\"b", &mut short), 4);
    answers(&rt, short, *b"...");
}

#[test]
fn a_header_is_stepped_over(rt: HostRuntime) {
    let text = b"width,\"height\n1,2\n";
    let start = after_lines(text, 1, &pairs(false));
    answers(&rt, start, 14);
    answers(&rt, read(&text[start..], false), (table(1, 4), [1, 9, 9]));
    answers(
        &rt,
        [
            after_lines(b"a\nb", 2, &pairs(false)),
            after_lines(b"a\n\n", 1, &pairs(false)),
        ],
        [3, 2],
    );
}

/// The first and the third of three columns, for as many rows as both slices have room for.
fn read_ledger<'a>(
    alloc: Global,
    text: &[u8],
    days: &'a mut [u16],
    cents: &'a mut [i64],
) -> Result<Answer, AllocError> {
    let rows = days.len().min(cents.len());
    let mut targets = Vec::new(alloc);
    targets.push(Some(Target {
        format: STANDARD,
        numbers: Numbers::U16(days),
        present: None,
    }))?;
    targets.push(None)?;
    targets.push(Some(Target {
        format: STANDARD,
        numbers: Numbers::I64(cents),
        present: None,
    }))?;
    let dialect = Dialect {
        layout: Layout::Separated {
            separator: b';',
            columns: 3,
        },
        has_returns: true,
        allows_returns: false,
        has_quotes: false,
        allows_blanks: false,
        skips_empty_rows: false,
        missing: b"",
    };
    Ok(read_columns(text, &dialect, &options::STANDARD, rows, &mut targets))
}

#[test]
fn columns_go_into_slices_of_their_own(rt: HostRuntime) -> Result<(), Fail> {
    let mut days = [9; 3];
    let mut cents = [9; 3];
    let answer = read_ledger(
        rt.alloc(),
        b"1;rent, paid;-80000\r\n365;;7\r\n",
        &mut days,
        &mut cents,
    )?;
    answers(&rt, answer, table(2, 29));
    answers(&rt, (days, cents), ([1, 365, 9], [-80000, 7, 9]));
    let answer = read_ledger(rt.alloc(), b"2;a;0\r\n3;b;x\r\n", &mut days, &mut cents)?;
    let letter = fault_in(1, 2, CellFault::NotNumber(Error::InvalidDigit(11)));
    answers(&rt, answer, letter);
    answers(&rt, (days, cents), ([2, 3, 9], [0, 7, 9]));
    Ok(())
}

// What is read of a part whose first cell, of two that have widths, is read, in room for three rows, and what that
// then holds.
fn read_wide(text: &[u8], is_last: bool, layout: Layout<'_>) -> (Answer, [i16; 3]) {
    let mut numbers = [9; 3];
    let mut target = Some(Target {
        format: STANDARD,
        numbers: Numbers::I16(&mut numbers),
        present: None,
    });
    let dialect = Dialect {
        layout,
        ..pairs(false)
    };
    let targets = slice::from_mut(&mut target);
    let answer = read_columns_part(text, is_last, &dialect, &options::STANDARD, 3, targets);
    (answer, numbers)
}

#[test]
fn cells_have_widths(rt: HostRuntime) {
    let lines = Layout::Widths { widths: &[3, 2] };
    let few = fault_in(2, 1, CellFault::TooFewCells(16));
    answers(
        &rt,
        read_wide(b"007ab\n-30,,\n1234", true, lines),
        (few, [7, -30, 123]),
    );
    let many = fault_in(0, 2, CellFault::TooManyCells(5));
    answers(&rt, read_wide(b"007abc\n", true, lines), (many, [7, 9, 9]));
    let records = Layout::Records { widths: &[3, 2] };
    let few = fault_in(1, 1, CellFault::TooFewCells(9));
    answers(
        &rt,
        read_wide(b"007a\n-30,", true, records),
        (few, [7, -30, 9]),
    );
    answers(
        &rt,
        read_wide(b"007a\n-30,", false, records),
        (table(1, 5), [7, 9, 9]),
    );
    let wide = Layout::Records {
        widths: &[3, usize::MAX],
    };
    let few = fault_in(0, 1, CellFault::TooFewCells(5));
    answers(&rt, read_wide(b"007ab", true, wide), (few, [7, 9, 9]));
    answers(
        &rt,
        read_wide(b"007ab", false, wide),
        (table(0, 0), [9, 9, 9]),
    );
}

#[test]
fn a_part_has_whole_rows(rt: HostRuntime) {
    let mut column = [9_u8; 3];
    let mut target = Some(Target {
        format: STANDARD,
        numbers: Numbers::U8(&mut column),
        present: None,
    });
    let targets = slice::from_mut(&mut target);
    let options = &options::STANDARD;
    let answer = read_columns_part(b"1,2\n3,4", false, &pairs(false), options, 3, targets);
    answers(&rt, answer, table(1, 4));
    answers(&rt, column, [1, 9, 9]);
}

// A user's own column, which passes calls on to a target, and doesn't write `read_at_once`.
#[derive(Drop)]
struct Own<'a> {
    inner: Option<Target<'a>>,
}

impl TableColumn for Own<'_> {
    ghost target = { λ own. option_map view_of_target own.inner };

    fn is_read(&self) -> bool {
        self.inner.is_read()
    }

    fn is_text(&self) -> bool {
        self.inner.is_text()
    }

    fn may_miss(&self) -> bool {
        self.inner.may_miss()
    }

    fn put_missing(&mut self, row: usize) {
        self.inner.put_missing(row);
    }

    fn put_text(&mut self, code: u8, row: usize, text: CellText) {
        self.inner.put_text(code, row, text);
    }

    fn read(
        &mut self,
        row: usize,
        start: usize,
        text: &[u8],
        ahead: &[u8],
        options: &Options,
    ) -> Option<Error> {
        self.inner.read(row, start, text, ahead, options)
    }
}

// What is read of a text's first column by a user's own column, and its numbers, in room for six rows.
fn read_by_own(text: &[u8]) -> (Answer, [i64; 6]) {
    let mut numbers = [9; 6];
    let mut own = Own {
        inner: Some(Target {
            format: STANDARD,
            numbers: Numbers::I64(&mut numbers),
            present: None,
        }),
    };
    let targets = slice::from_mut(&mut own);
    let answer = read_columns(text, &pairs(false), &options::STANDARD, 6, targets);
    (answer, numbers)
}

// Short and long cells, and cells that the fast path leaves. Many bytes follow the first cells, and few the last ones.
#[test]
fn a_column_of_ones_own_reads_all_cells(rt: HostRuntime) {
    let text =
        b"1,-22\n-9223372036854775808,123456789012\n+5,0\n00000000000000000000000000000000000007,1\n1234567890123456,-1234567\n+7,65";
    let numbers = [1, i64::MIN, 5, 7, 1234567890123456, 7];
    answers(&rt, read_by_own(text), (table(6, 117), numbers));
    let letter = |row, place| fault_in(row, 0, CellFault::NotNumber(Error::InvalidDigit(place)));
    answers(&rt, read_by_own(b"1x,2\n3,4"), (letter(0, 1), [9; 6]));
    let late =
        b"1,2\n3x,4\n123456789012345678,123456789012345678\n123456789012345678,12345678901234";
    answers(&rt, read_by_own(late), (letter(1, 5), [1, 9, 9, 9, 9, 9]));
}

// What `put_cell` and `put_standard_cell` put at place 1 for a cell at place 5, and return.
fn put_both(cell: &[u8], ahead: &[u8]) -> [(Option<Error>, [i16; 2]); 2]
    requires front { cell.now ≡ take (length cell.now) ahead.now }
    requires short { length cell.now < 100 }
{
    let mut numbers = [9; 2];
    let told = put_cell(
        &mut numbers,
        1,
        5,
        cell,
        ahead,
        &STANDARD,
        &options::STANDARD,
    );
    let mut others = [9; 2];
    let also = put_standard_cell(&mut others, 1, 5, cell, ahead, &options::STANDARD);
    [(told, numbers), (also, others)]
}

#[test]
fn a_cell_is_put_by_itself(rt: HostRuntime) {
    answers(&rt, put_both(b"-7", b"-7"), [(None, [9, -7]); 2]);
    answers(
        &rt,
        put_both(b"12", b"12,3,4,5,6,7,8,9,10,11,12"),
        [(None, [9, 12]); 2],
    );
    answers(&rt, put_both(b"+12", b"+12"), [(None, [9, 12]); 2]);
    let large = Some(Error::Overflow(9));
    answers(&rt, put_both(b"32768", b"32768"), [(large, [9, 9]); 2]);
}
