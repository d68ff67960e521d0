//! Cells that are read by the codes of their columns, at once or afterwards.

ghost use Rattle.std.specs.Prelude.{◌≡◌, ◌+◌, ◌<◌, ◌≤◌, ◌^◌, ℕ, IsTrue, None, false, get_or, is_none, length, map, option_map, slice_index, take};
ghost use Rattle.lexical_tables.specs.ByColumn.{AreUsable, answer_at, fault_in, kinds_of, put_read_at, wrong_cell};
ghost use Rattle.lexical_tables.specs.Codes.{AreCodes, AreStandard, IsCodeIn};

use crate::answers::TableError;
use crate::by_column::read_by_column;
use crate::codes::{AMOUNTS, CODED, TEXTS, code_of};
use crate::content::Cell;
use crate::dialect::Dialect;
use crate::digit_cells::read_coded;
use crate::known_cells::read_text;
use crate::number_cells::read_other_number;
use crate::targets::TableColumn;
use lexical_parse_integer::Options;

// Reads the cell of a column at once, the first `size` bytes of a text, by the column's code, and returns whether it did.
#[inline(always)]
pub(crate) fn read_coded_cell<
    C: TableColumn,
    const HAS_QUOTES: bool,
    const ALL_STANDARD: bool,
    const HAS_CALLS: bool,
>(
    targets: &mut [C],
    codes: &[u8; CODED],
    column: usize,
    row: usize,
    start: usize,
    ahead: &[u8],
    size: usize,
    dialect: &Dialect<'_>,
    options: &Options,
) -> bool
    requires quotes { dialect.now.has_quotes ≡ HAS_QUOTES }
    requires codes { AreCodes dialect.now codes.now (map C.target targets.old) }
    requires standard { IsTrue ALL_STANDARD → AreStandard (column + 1) codes.now }
    requires usable { AreUsable (row + 1) (map C.target targets.old) }
    requires room { size + 17 ≤ length ahead.now }
    requires fits { start + size < 2 ^ 64 }
    ensures fault { IsTrue result → fault_in (answer_at dialect.now
        (kinds_of (map C.target targets.old)) column
        (record { start = start; text = take size ahead.now })) ≡ None }
    ensures targets { IsTrue result → map C.target targets.new ≡ put_read_at row column
        (answer_at dialect.now (kinds_of (map C.target targets.old)) column
        (record { start = start; text = take size ahead.now })) (map C.target targets.old) }
    ensures kept { result ≡ false → map C.target targets.new ≡ map C.target targets.old }
{
    if column >= CODED {
        return false;
    }
    if column >= targets.len() {
        return false;
    }
    read_coded::<C, HAS_QUOTES, ALL_STANDARD, HAS_CALLS>(
        &mut targets[column],
        codes[column],
        row,
        start,
        ahead,
        size,
        dialect,
        options,
    )
}

// Reads the cell of a column of texts that `read_coded_cell` has left, the first `size` bytes of a text, if its quotes are in
// place, and returns whether it did.
#[inline(always)]
fn read_long_text<C: TableColumn>(
    targets: &mut [C],
    code: u8,
    column: usize,
    row: usize,
    start: usize,
    ahead: &[u8],
    size: usize,
    dialect: &Dialect<'_>,
) -> bool
    requires code { column < length targets.old
        → IsCodeIn dialect.now code (get_or (map C.target targets.old) column None) }
    requires usable { AreUsable (row + 1) (map C.target targets.old) }
    requires within { size ≤ length ahead.now }
    requires fits { start + size < 2 ^ 64 }
    ensures fault { IsTrue result → fault_in (answer_at dialect.now
        (kinds_of (map C.target targets.old)) column
        (record { start = start; text = take size ahead.now })) ≡ None }
    ensures targets { IsTrue result → map C.target targets.new ≡ put_read_at row column
        (answer_at dialect.now (kinds_of (map C.target targets.old)) column
        (record { start = start; text = take size ahead.now })) (map C.target targets.old) }
    ensures kept { result ≡ false → map C.target targets.new ≡ map C.target targets.old }
{
    if code != TEXTS || column >= targets.len() {
        return false;
    }
    let cell = Cell {
        start,
        text: &ahead[..size],
        ahead,
    };
    read_text(&mut targets[column], row, cell, dialect)
}

// Reads the cell of a column of amounts or with the code of a type that `read_coded_cell` has left, the first `size` bytes of a
// text, and returns whether it is right: else what is wrong is reported.
#[inline(always)]
fn read_typed_cell<C: TableColumn>(
    targets: &mut [C],
    code: u8,
    column: usize,
    row: usize,
    start: usize,
    ahead: &[u8],
    size: usize,
    dialect: &Dialect<'_>,
    options: &Options,
    wrong: &mut Option<TableError>,
) -> bool
    requires fine { wrong.old ≡ None }
    requires code { column < length targets.old
        → IsCodeIn dialect.now code (get_or (map C.target targets.old) column None) }
    requires read { 7 ≤ code }
    requires usable { AreUsable (row + 1) (map C.target targets.old) }
    requires room { size + 17 ≤ length ahead.now }
    requires fits { start + size < 2 ^ 64 }
    ensures right { result ≡ is_none (fault_in (answer_at dialect.now
        (kinds_of (map C.target targets.old)) column
        (record { start = start; text = take size ahead.now }))) }
    ensures fault { wrong.new ≡ option_map (wrong_cell row column) (fault_in
        (answer_at dialect.now (kinds_of (map C.target targets.old)) column
        (record { start = start; text = take size ahead.now }))) }
    ensures targets { map C.target targets.new ≡ put_read_at row column (answer_at dialect.now
        (kinds_of (map C.target targets.old)) column
        (record { start = start; text = take size ahead.now })) (map C.target targets.old) }
{
    if dialect.has_quotes || column >= targets.len() {
        return read_by_column::<C, false>(
            targets, column, row, start, ahead, size, dialect, options, wrong,
        );
    }
    read_other_number(
        &mut targets[column],
        code,
        column,
        row,
        start,
        ahead,
        size,
        dialect,
        options,
        wrong,
    )
}

// Reads the cell of a column that `read_coded_cell` has left, the first `size` bytes of a text, and returns whether it is right:
// else what is wrong is reported.
#[inline(always)]
pub(crate) fn read_left_cell<C: TableColumn>(
    targets: &mut [C],
    codes: &[u8; CODED],
    column: usize,
    row: usize,
    start: usize,
    ahead: &[u8],
    size: usize,
    dialect: &Dialect<'_>,
    options: &Options,
    wrong: &mut Option<TableError>,
) -> bool
    requires fine { wrong.old ≡ None }
    requires codes { AreCodes dialect.now codes.now (map C.target targets.old) }
    requires usable { AreUsable (row + 1) (map C.target targets.old) }
    requires room { size + 17 ≤ length ahead.now }
    requires fits { start + size < 2 ^ 64 }
    ensures right { result ≡ is_none (fault_in (answer_at dialect.now
        (kinds_of (map C.target targets.old)) column
        (record { start = start; text = take size ahead.now }))) }
    ensures fault { wrong.new ≡ option_map (wrong_cell row column) (fault_in
        (answer_at dialect.now (kinds_of (map C.target targets.old)) column
        (record { start = start; text = take size ahead.now }))) }
    ensures targets { map C.target targets.new ≡ put_read_at row column (answer_at dialect.now
        (kinds_of (map C.target targets.old)) column
        (record { start = start; text = take size ahead.now })) (map C.target targets.old) }
{
    let code = code_of(codes, column);
    if code >= AMOUNTS {
        return read_typed_cell(
            targets, code, column, row, start, ahead, size, dialect, options, wrong,
        );
    }
    if read_long_text(targets, code, column, row, start, ahead, size, dialect) {
        return true;
    }
    read_by_column::<C, false>(
        targets, column, row, start, ahead, size, dialect, options, wrong,
    )
}
