//! Cells of texts, and of numbers that are read at once or parsed.

ghost use Rattle.std.specs.Prelude.{◌≡◌, ◌⊎◌, ◌&&◌, ◌+◌, ◌<◌, ◌≤◌, ◌^◌, ℕ, IsTrue, None, false, length, option_map, take, true};
ghost use Rattle.std.specs.Str.{bytes_eq};
ghost use Rattle.lexical_tables.specs.ByColumn.{IsUsable, fault_in, kind_of, put_read};
ghost use Rattle.lexical_tables.specs.Cells.{answer_as, quote_fault, view_of_cell};
ghost use Rattle.lexical_tables.specs.Codes.{IsCodeIn};
ghost use Rattle.lexical_tables.specs.Targets.{has_bits, has_numbers, keeps_text, put_text, text_fault};

use crate::cell_text::CellText;
use crate::codes::{AMOUNTS, AT_ONCE, TEXTS};
use crate::content::{Cell, content, text_of};
use crate::dialect::Dialect;
use crate::misplaced::{doubled_quotes, quote_fault};
use crate::targets::TableColumn;
use lexical_parse_integer::Options;

// Reads a cell in its column of texts, if its quotes are in place, and returns whether they are: it holds the missing
// text, or a text, and where that stands goes to the row's place.
#[inline(always)]
#[tactic(auto, using(crate::proofs::CodeSteps::text_code))]
pub(crate) fn read_text<C: TableColumn>(
    target: &mut C,
    row: usize,
    cell: Cell<'_>,
    dialect: &Dialect<'_>,
) -> bool
    requires usable { IsUsable (row + 1) (C.target target.old) }
    requires text { keeps_text (C.target target.old) ≡ true }
    requires front { cell.text.now ≡ take (length cell.text.now) cell.ahead.now }
    requires fits { cell.start + length cell.text.now < 2 ^ 64 }
    ensures right { IsTrue result → fault_in (answer_as dialect.now
        (option_map kind_of (C.target target.old)) (view_of_cell cell.entry)) ≡ None }
    ensures wrong { result ≡ false → fault_in (answer_as dialect.now
        (option_map kind_of (C.target target.old)) (view_of_cell cell.entry))
        ≡ quote_fault dialect.now.has_quotes false (view_of_cell cell.entry) }
    ensures target { C.target target.new ≡ option_map (put_read row (answer_as dialect.now
        (option_map kind_of (C.target target.old)) (view_of_cell cell.entry)))
        (C.target target.old) }
    ensures kept { result ≡ false → C.target target.new ≡ C.target target.old }
{
    let Some(has_doubled_quotes) = doubled_quotes(dialect.has_quotes, cell) else {
        return false;
    };
    let held = content(cell, dialect.has_quotes, false);
    let is_missing = target.may_miss() && held.text == dialect.missing;
    if is_missing {
        target.put_missing(row);
    } else {
        let text = text_of(held, has_doubled_quotes, dialect.has_quotes);
        target.put_text(TEXTS, row, text);
    }
    true
}

// Reads a cell as `read_text` does, the first `size` bytes of a text. Out of line, to keep registers
// for the loop.
#[inline(never)]
pub(crate) fn read_text_cell<C: TableColumn>(
    target: &mut C,
    row: usize,
    start: usize,
    ahead: &[u8],
    size: usize,
    dialect: &Dialect<'_>,
) -> bool
    requires usable { IsUsable (row + 1) (C.target target.old) }
    requires text { keeps_text (C.target target.old) ≡ true }
    requires within { size ≤ length ahead.now }
    requires fits { start + size < 2 ^ 64 }
    ensures fault { IsTrue result → fault_in (answer_as dialect.now
        (option_map kind_of (C.target target.old))
        (record { start = start; text = take size ahead.now })) ≡ None }
    ensures target { IsTrue result → C.target target.new ≡ option_map (put_read row
        (answer_as dialect.now (option_map kind_of (C.target target.old))
        (record { start = start; text = take size ahead.now }))) (C.target target.old) }
    ensures kept { result ≡ false → C.target target.new ≡ C.target target.old }
{
    let cell = Cell {
        start,
        text: &ahead[..size],
        ahead,
    };
    read_text(target, row, cell, dialect)
}

// Puts the number of what a cell holds into the row's place, if the fast path reads it, and returns whether it did.
#[inline(always)]
pub(crate) fn had_at_once<C: TableColumn>(target: &mut C, row: usize, held: Cell<'_>) -> bool
    requires usable { IsUsable (row + 1) (C.target target.old) }
    requires front { held.text.now ≡ take (length held.text.now) held.ahead.now }
    ensures fault { IsTrue result
        → text_fault (C.target target.old) (view_of_cell held.entry) ≡ None }
    ensures target { IsTrue result → C.target target.new
        ≡ option_map (put_text row (view_of_cell held.entry)) (C.target target.old) }
    ensures kept { result ≡ false → C.target target.new ≡ C.target target.old }
{
    target.read_at_once(row, held.ahead, held.text.len())
}

// Reads a cell in its column of numbers that are parsed, where its quotes are in place and it holds the missing text or
// a number, and returns whether it did.
#[inline(always)]
fn read_parsed<C: TableColumn>(
    target: &mut C,
    row: usize,
    cell: Cell<'_>,
    dialect: &Dialect<'_>,
    options: &Options,
) -> bool
    requires usable { IsUsable (row + 1) (C.target target.old) }
    requires numbers { has_numbers (C.target target.old) ≡ true }
    requires front { cell.text.now ≡ take (length cell.text.now) cell.ahead.now }
    requires fits { cell.start + length cell.text.now < 2 ^ 64 }
    ensures fault { IsTrue result → fault_in (answer_as dialect.now
        (option_map kind_of (C.target target.old)) (view_of_cell cell.entry)) ≡ None }
    ensures target { IsTrue result → C.target target.new ≡ option_map (put_read row
        (answer_as dialect.now (option_map kind_of (C.target target.old))
        (view_of_cell cell.entry))) (C.target target.old) }
    ensures kept { result ≡ false → C.target target.new ≡ C.target target.old }
{
    if quote_fault(dialect.has_quotes, true, cell).is_some() {
        return false;
    }
    let held = content(cell, dialect.has_quotes, dialect.allows_blanks);
    if target.may_miss() {
        if held.text == dialect.missing {
            target.put_missing(row);
            return true;
        }
    }
    target
        .read_left(row, held.start, held.text, held.ahead, options)
        .is_none()
}

// Reads a cell as `read_parsed` does, the first `size` bytes of a text. Its place isn't needed: only a fault would
// report it. Out of line, to keep registers for the loop.
#[inline(never)]
pub(crate) fn read_parsed_cell<C: TableColumn>(
    target: &mut C,
    row: usize,
    ahead: &[u8],
    size: usize,
    dialect: &Dialect<'_>,
    options: &Options,
) -> bool
    requires usable { IsUsable (row + 1) (C.target target.old) }
    requires numbers { has_numbers (C.target target.old) ≡ true }
    requires room { size + 17 ≤ length ahead.now }
    ensures fault { IsTrue result → (start : ℕ) → fault_in (answer_as dialect.now
        (option_map kind_of (C.target target.old))
        (record { start = start; text = take size ahead.now })) ≡ None }
    ensures target { IsTrue result → (start : ℕ) → C.target target.new ≡ option_map (put_read row
        (answer_as dialect.now (option_map kind_of (C.target target.old))
        (record { start = start; text = take size ahead.now }))) (C.target target.old) }
    ensures kept { result ≡ false → C.target target.new ≡ C.target target.old }
{
    let cell = Cell {
        start: 0,
        text: &ahead[..size],
        ahead,
    };
    read_parsed(target, row, cell, dialect, options)
}
