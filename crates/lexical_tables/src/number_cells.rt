//! Cells where quotes have no meaning, in columns whose code is that of a type.

ghost use Rattle.std.specs.Prelude.{◌≡◌, ◌+◌, ◌-◌, ◌<◌, ◌≤◌, ◌^◌, IsTrue, None, false, is_none, length, option_map, take, true};
ghost use Rattle.lexical_tables.specs.ByColumn.{IsUsable, fault_in, kind_of, put_read, wrong_cell};
ghost use Rattle.lexical_tables.specs.Cells.{answer_as, held_answer, view_of_cell};
ghost use Rattle.lexical_tables.specs.Codes.{IsCodeIn, IsNumberPut, IsReadAs};
ghost use Rattle.lexical_tables.specs.Targets.{has_numbers};

use crate::answers::{CellFault, TableError};
use crate::content::{Cell, content};
use crate::dialect::Dialect;
use crate::digit_cells::{coded_number, put_found};
use crate::known_cells::had_at_once;
use crate::targets::TableColumn;
use lexical_parse_integer::Options;

// How many bytes have to follow digits that are read as words.
const ROOM_BEHIND: usize = 17;

// How many bytes a cell may have whose digits are all read at once, also those around a point.
const SHORT: usize = 13;

// Whether a text is too near the end of what begins with it to be read as words.
#[inline(always)]
fn is_near_end(held: Cell<'_>) -> bool
    requires front { held.text.now ≡ take (length held.text.now) held.ahead.now }
    ensures { result ≡ false → length held.entry.text.now + 17 ≤ length held.entry.ahead.now }
{
    held.ahead.len() - held.text.len() < ROOM_BEHIND
}

// Puts the number of what a cell holds into the row's place, if the cell holds up to eighteen digits, alone or behind a
// minus, and returns whether it did.
#[inline(always)]
fn put_digits<C: TableColumn>(target: &mut C, code: u8, row: usize, held: Cell<'_>) -> bool
    requires column { IsReadAs code (C.target target.old) }
    requires read { 8 ≤ code }
    requires usable { IsUsable (row + 1) (C.target target.old) }
    requires front { held.text.now ≡ take (length held.text.now) held.ahead.now }
    ensures put { IsTrue result
        → IsNumberPut code row held.entry.text.now (C.target target.old) (C.target target.new) }
    ensures kept { result ≡ false → C.target target.new ≡ C.target target.old }
{
    if is_near_end(held) {
        return false;
    }
    let size = held.text.len();
    let found = coded_number::<false>(code, held.ahead, size);
    put_found(target, code, row, held.ahead, size, found)
}

// Reads what a cell holds, the first `size` bytes of a text, where digits read as words aren't all of it: the missing
// text, another number, or no number. Returns whether it is right, and reports what is wrong. Out of line, to keep
// registers for the loops.
#[inline(never)]
pub(crate) fn read_held_number<C: TableColumn>(
    target: &mut C,
    column: usize,
    row: usize,
    start: usize,
    ahead: &[u8],
    size: usize,
    dialect: &Dialect<'_>,
    options: &Options,
    wrong: &mut Option<TableError>,
) -> bool
    requires fine { wrong.old ≡ None }
    requires numbers { has_numbers (C.target target.old) ≡ true }
    requires usable { IsUsable (row + 1) (C.target target.old) }
    requires within { size ≤ length ahead.now }
    requires fits { start + size < 2 ^ 64 }
    ensures right { result ≡ is_none (fault_in (held_answer dialect.now
        (option_map kind_of (C.target target.old))
        (record { start = start; text = take size ahead.now }))) }
    ensures fault { wrong.new ≡ option_map (wrong_cell row column) (fault_in
        (held_answer dialect.now (option_map kind_of (C.target target.old))
        (record { start = start; text = take size ahead.now }))) }
    ensures target { C.target target.new ≡ option_map (put_read row
        (held_answer dialect.now (option_map kind_of (C.target target.old))
        (record { start = start; text = take size ahead.now }))) (C.target target.old) }
{
    let text = &ahead[..size];
    if target.may_miss() && text == dialect.missing {
        target.put_missing(row);
        return true;
    }
    let held = Cell { start, text, ahead };
    if size > SHORT || is_near_end(held) {
        if had_at_once(target, row, held) {
            return true;
        }
    }
    match target.read_left(row, start, text, ahead, options) {
        Some(error) => {
            let fault = CellFault::NotNumber(error);
            *wrong = Some(TableError { row, column, fault });
            false
        }
        None => true,
    }
}

// Reads a cell by its column's code, and returns whether it is right: else what is wrong is reported.
#[inline(always)]
pub(crate) fn read_number<C: TableColumn>(
    target: &mut C,
    code: u8,
    column: usize,
    row: usize,
    cell: Cell<'_>,
    dialect: &Dialect<'_>,
    options: &Options,
    wrong: &mut Option<TableError>,
) -> bool
    requires fine { wrong.old ≡ None }
    requires quotes { dialect.now.has_quotes ≡ false }
    requires code { IsCodeIn dialect.now code (C.target target.old) }
    requires read { 8 ≤ code }
    requires usable { IsUsable (row + 1) (C.target target.old) }
    requires front { cell.text.now ≡ take (length cell.text.now) cell.ahead.now }
    requires fits { cell.start + length cell.text.now < 2 ^ 64 }
    ensures right { result ≡ is_none (fault_in (answer_as dialect.now
        (option_map kind_of (C.target target.old)) (view_of_cell cell.entry))) }
    ensures fault { wrong.new ≡ option_map (wrong_cell row column) (fault_in (answer_as dialect.now
        (option_map kind_of (C.target target.old)) (view_of_cell cell.entry))) }
    ensures target { C.target target.new ≡ option_map (put_read row (answer_as dialect.now
        (option_map kind_of (C.target target.old)) (view_of_cell cell.entry)))
        (C.target target.old) }
{
    let held = content(cell, false, dialect.allows_blanks);
    if put_digits(target, code, row, held) {
        return true;
    }
    let size = held.text.len();
    read_held_number(
        target, column, row, held.start, held.ahead, size, dialect, options, wrong,
    )
}

// Reads a cell as `read_number` does, the first `size` bytes of a text. Out of line, to keep registers for the loop.
#[inline(never)]
fn read_padded_number<C: TableColumn>(
    target: &mut C,
    code: u8,
    column: usize,
    row: usize,
    start: usize,
    ahead: &[u8],
    size: usize,
    dialect: &Dialect<'_>,
    options: &Options,
    wrong: &mut Option<TableError>,
) -> bool
    requires fine { wrong.old ≡ None }
    requires quotes { dialect.now.has_quotes ≡ false }
    requires code { IsCodeIn dialect.now code (C.target target.old) }
    requires read { 8 ≤ code }
    requires usable { IsUsable (row + 1) (C.target target.old) }
    requires within { size ≤ length ahead.now }
    requires fits { start + size < 2 ^ 64 }
    ensures right { result ≡ is_none (fault_in (answer_as dialect.now
        (option_map kind_of (C.target target.old))
        (record { start = start; text = take size ahead.now }))) }
    ensures fault { wrong.new ≡ option_map (wrong_cell row column) (fault_in
        (answer_as dialect.now (option_map kind_of (C.target target.old))
        (record { start = start; text = take size ahead.now }))) }
    ensures target { C.target target.new ≡ option_map (put_read row
        (answer_as dialect.now (option_map kind_of (C.target target.old))
        (record { start = start; text = take size ahead.now }))) (C.target target.old) }
{
    let cell = Cell {
        start,
        text: &ahead[..size],
        ahead,
    };
    read_number(target, code, column, row, cell, dialect, options, wrong)
}

// Reads a cell of a column of numbers that the fast path left, the first `size` bytes of a text. Digits between blanks
// are read by the column's code. Returns whether the cell is right, and reports what is wrong.
#[inline(always)]
pub(crate) fn read_other_number<C: TableColumn>(
    target: &mut C,
    code: u8,
    column: usize,
    row: usize,
    start: usize,
    ahead: &[u8],
    size: usize,
    dialect: &Dialect<'_>,
    options: &Options,
    wrong: &mut Option<TableError>,
) -> bool
    requires fine { wrong.old ≡ None }
    requires quotes { dialect.now.has_quotes ≡ false }
    requires code { IsCodeIn dialect.now code (C.target target.old) }
    requires read { dialect.now.allows_blanks ≡ true → 8 ≤ code }
    requires numbers { has_numbers (C.target target.old) ≡ true }
    requires usable { IsUsable (row + 1) (C.target target.old) }
    requires within { size ≤ length ahead.now }
    requires fits { start + size < 2 ^ 64 }
    ensures right { result ≡ is_none (fault_in (answer_as dialect.now
        (option_map kind_of (C.target target.old))
        (record { start = start; text = take size ahead.now }))) }
    ensures fault { wrong.new ≡ option_map (wrong_cell row column) (fault_in
        (answer_as dialect.now (option_map kind_of (C.target target.old))
        (record { start = start; text = take size ahead.now }))) }
    ensures target { C.target target.new ≡ option_map (put_read row
        (answer_as dialect.now (option_map kind_of (C.target target.old))
        (record { start = start; text = take size ahead.now }))) (C.target target.old) }
{
    if dialect.allows_blanks {
        return read_padded_number(
            target, code, column, row, start, ahead, size, dialect, options, wrong,
        );
    }
    read_held_number(
        target, column, row, start, ahead, size, dialect, options, wrong,
    )
}
