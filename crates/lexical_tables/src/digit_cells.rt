//! Cells that are read at once: digits in place, others by calls, as their columns' codes say.

ghost use Rattle.std.specs.Prelude.{◌≡◌, ◌+◌, ◌-◌, ◌*◌, ◌<◌, ◌≤◌, ◌^◌, nat_le, ℕ, IfSome, IsTrue, None, false, length, take, drop, option_map, true};
ghost use Rattle.lexical_util.specs.Format.{Format};
ghost use Rattle.lexical_fields.specs.Numerals.{IsNumeral};
ghost use Rattle.lexical_tables.specs.Amounts.{IsAmountsIn};
ghost use Rattle.lexical_tables.specs.ByColumn.{IsUsable, fault_in, kind_of, put_read};
ghost use Rattle.lexical_tables.specs.Cells.{answer_as, quote_fault, view_of_cell};
ghost use Rattle.lexical_tables.specs.Codes.{AreQuotesRound, IsBareIn, IsCodeIn, IsDecimal, IsNumberPut, IsNumeralUnder, IsReadAs, has_zero_rule};

use crate::codes::{AMOUNTS, AT_ONCE, BARE, NOT_READ, PARSED, TEXTS, U8, WITH_ZERO_RULE};
use crate::content::{Cell, content};
use crate::dialect::Dialect;
use crate::known_cells::{read_parsed_cell, read_text_cell};
use crate::quotes::shows_no_quote;
use crate::targets::TableColumn;
use lexical_fields::number_of_front;
use lexical_parse_integer::Options;

// The text behind the first quote of a cell, and how many bytes the cell has between its quotes. If the cell isn't
// within quotes, or quotes have no meaning, they are `ahead` and `size`.
#[inline(always)]
fn within_quotes(ahead: &[u8], size: usize, has_quotes: bool) -> (&[u8], usize)
    requires room { size + 17 ≤ length ahead.now }
    ensures round { AreQuotesRound has_quotes (take size ahead.now)
        (length ahead.now - length result.0.now) }
    ensures tail { result.0.now ≡ drop (length ahead.now - length result.0.now) ahead.now }
    ensures within { length result.0.now ≤ length ahead.now }
    ensures size { result.1 + 2 * (length ahead.now - length result.0.now) ≡ size }
{
    if !has_quotes {
        return (ahead, size);
    }
    if ahead[0] != b'"' {
        return (ahead, size);
    }
    if size < 2 || ahead[size - 1] != b'"' {
        return (ahead, size);
    }
    (&ahead[1..], size - 2)
}

// Whether one look shows that no quote is out of place in a cell that isn't read, the first `size` bytes of a text:
// quotes have no meaning, or no quote stands in the cell, except for two around it.
#[inline(always)]
fn shows_no_fault(ahead: &[u8], size: usize, has_quotes: bool) -> bool
    requires room { size + 17 ≤ length ahead.now }
    ensures { IsTrue result → (start : ℕ) → None ≡ quote_fault has_quotes false
        (record { start = start; text = take size ahead.now }) }
{
    if !has_quotes {
        return true;
    }
    let (held, count) = within_quotes(ahead, size, has_quotes);
    shows_no_quote(held, count)
}

// Whether a text's first `size` bytes, digits behind an optional minus, keep the rule on zeros, if
// the column's code has that rule.
#[inline(always)]
fn keeps_zero_rule<const ALL_STANDARD: bool>(
    code: u8,
    ahead: &[u8],
    size: usize,
    is_negative: bool,
) -> bool
    requires standard { IsTrue ALL_STANDARD → code < 32 }
    requires room { size + 17 ≤ length ahead.now }
    ensures { IsTrue result → (format : Format) (number : ℕ) → IsDecimal format (has_zero_rule code)
        → IsNumeral is_negative number (take size ahead.now)
        → IsNumeralUnder format is_negative number (take size ahead.now) }
{
    if ALL_STANDARD {
        return true;
    }
    if code < WITH_ZERO_RULE {
        return true;
    }
    let first = usize::from(is_negative);
    ahead[first] != b'0' || size == first + 1
}

// The number of a text's first `size` bytes with its sign, as `number_of_front` reads it, if the digits keep the rule
// on zeros, where the column's code has that rule.
#[inline(always)]
pub(crate) fn coded_number<const ALL_STANDARD: bool>(
    code: u8,
    ahead: &[u8],
    size: usize,
) -> Option<(bool, u64)>
    requires standard { IsTrue ALL_STANDARD → code < 32 }
    requires room { size + 17 ≤ length ahead.now }
    ensures numeral { IfSome result (λ found. (format : Format)
        → IsDecimal format (has_zero_rule code)
        → IsNumeralUnder format found.0 found.1 (take size ahead.now)) }
    ensures small { IfSome result (λ found. found.1 < 2 ^ 63) }
{
    if !keeps_zero_rule::<ALL_STANDARD>(code, ahead, size, ahead[0] == b'-') {
        return None;
    }
    number_of_front(ahead, size)
}

// Puts a number with its sign, which a text's first `size` bytes write, into the row's place, if the column's type has
// it, and returns whether it did.
#[inline(always)]
pub(crate) fn put_found<C: TableColumn>(
    target: &mut C,
    code: u8,
    row: usize,
    ahead: &[u8],
    size: usize,
    found: Option<(bool, u64)>,
) -> bool
    requires column { IsReadAs code (C.target target.old) }
    requires read { 8 ≤ code }
    requires usable { IsUsable (row + 1) (C.target target.old) }
    requires numeral { IfSome found (λ found. (format : Format)
        → IsDecimal format (has_zero_rule code)
        → IsNumeralUnder format found.0 found.1 (take size ahead.now)) }
    requires small { IfSome found (λ found. found.1 < 2 ^ 63) }
    ensures put { IsTrue result
        → IsNumberPut code row (take size ahead.now) (C.target target.old) (C.target target.new) }
    ensures kept { result ≡ false → C.target target.new ≡ C.target target.old }
{
    let Some((is_negative, number)) = found else {
        return false;
    };
    target.put_number(code, row, is_negative, number)
}

// Reads a cell of a column of amounts at once, the first `size` bytes of a text, and returns whether it did. Out of line:
// inlined, it makes the loops over rows too large to be inlined.
#[inline(never)]
fn read_amount<C: TableColumn, const HAS_QUOTES: bool>(
    target: &mut C,
    row: usize,
    ahead: &[u8],
    size: usize,
    dialect: &Dialect<'_>,
) -> bool
    requires quotes { dialect.now.has_quotes ≡ HAS_QUOTES }
    requires amounts { IsAmountsIn dialect.now (C.target target.old) }
    requires usable { IsUsable (row + 1) (C.target target.old) }
    requires room { size + 17 ≤ length ahead.now }
    ensures fault { IsTrue result → (start : ℕ) → fault_in (answer_as dialect.now
        (option_map kind_of (C.target target.old))
        (record { start = start; text = take size ahead.now })) ≡ None }
    ensures target { IsTrue result → (start : ℕ) → C.target target.new ≡ option_map (put_read row
        (answer_as dialect.now (option_map kind_of (C.target target.old))
        (record { start = start; text = take size ahead.now }))) (C.target target.old) }
    ensures kept { result ≡ false → C.target target.new ≡ C.target target.old }
{
    let (held, count) = within_quotes(ahead, size, HAS_QUOTES);
    target.read_amount(row, held, count)
}

// Reads a cell of a column of bare numbers, the first `size` bytes of a text, if it is a number, alone or within
// quotes. Returns whether it did.
#[inline(always)]
fn read_bare_cell<C: TableColumn, const HAS_QUOTES: bool>(
    target: &mut C,
    row: usize,
    ahead: &[u8],
    size: usize,
    dialect: &Dialect<'_>,
    options: &Options,
) -> bool
    requires quotes { dialect.now.has_quotes ≡ HAS_QUOTES }
    requires usable { IsUsable (row + 1) (C.target target.old) }
    requires bare { IsBareIn dialect.now (C.target target.old) }
    requires room { size + 17 ≤ length ahead.now }
    ensures fault { IsTrue result → (start : ℕ) → fault_in (answer_as dialect.now
        (option_map kind_of (C.target target.old))
        (record { start = start; text = take size ahead.now })) ≡ None }
    ensures target { IsTrue result → (start : ℕ) → C.target target.new ≡ option_map (put_read row
        (answer_as dialect.now (option_map kind_of (C.target target.old))
        (record { start = start; text = take size ahead.now }))) (C.target target.old) }
    ensures kept { result ≡ false → C.target target.new ≡ C.target target.old }
{
    let (held, count) = within_quotes(ahead, size, HAS_QUOTES);
    if HAS_QUOTES {
        if !shows_no_quote(held, count) {
            return false;
        }
    }
    target.read_parsed(row, held, count, options)
}

// Whether a code is that of a type.
#[inline(always)]
fn is_typed<const ALL_STANDARD: bool>(code: u8) -> bool
    requires standard { IsTrue ALL_STANDARD → 8 ≤ code }
    ensures { result ≡ nat_le 8 code }
{
    ALL_STANDARD || code >= U8
}

// Reads a cell at once, the first `size` bytes of a text, where the column isn't read, or the cell
// is digits alone, behind a minus or within quotes, and returns whether it did. With `HAS_CALLS` it
// also reads texts, amounts and numbers of other formats, each by a call. With `ALL_STANDARD` the
// code is that of a type without the rule on zeros, and nothing else is asked for.
#[inline(always)]
pub(crate) fn read_coded<
    C: TableColumn,
    const HAS_QUOTES: bool,
    const ALL_STANDARD: bool,
    const HAS_CALLS: bool,
>(
    target: &mut C,
    code: u8,
    row: usize,
    start: usize,
    ahead: &[u8],
    size: usize,
    dialect: &Dialect<'_>,
    options: &Options,
) -> bool
    requires quotes { dialect.now.has_quotes ≡ HAS_QUOTES }
    requires code { IsCodeIn dialect.now code (C.target target.old) }
    requires standard { IsTrue ALL_STANDARD → (8 ≤ code) × (code < 32) }
    requires usable { IsUsable (row + 1) (C.target target.old) }
    requires room { size + 17 ≤ length ahead.now }
    requires fits { start + size < 2 ^ 64 }
    ensures fault { IsTrue result → fault_in (answer_as dialect.now
        (option_map kind_of (C.target target.old))
        (record { start = start; text = take size ahead.now })) ≡ None }
    ensures target { IsTrue result → C.target target.new ≡ option_map (put_read row
        (answer_as dialect.now (option_map kind_of (C.target target.old))
        (record { start = start; text = take size ahead.now }))) (C.target target.old) }
    ensures kept { result ≡ false → C.target target.new ≡ C.target target.old }
{
    if !is_typed::<ALL_STANDARD>(code) {
        // Two short chains of tests: of one long chain the compiler would make a jump table, which takes longer.
        if HAS_CALLS && code > AT_ONCE {
            if code == PARSED {
                return read_parsed_cell(target, row, ahead, size, dialect, options);
            }
            if code == BARE {
                return read_bare_cell::<C, HAS_QUOTES>(target, row, ahead, size, dialect, options);
            }
            if code == AMOUNTS {
                return read_amount::<C, HAS_QUOTES>(target, row, ahead, size, dialect);
            }
            return false;
        }
        if code == NOT_READ {
            return shows_no_fault(ahead, size, HAS_QUOTES);
        }
        if HAS_CALLS && code == TEXTS {
            return read_text_cell(target, row, start, ahead, size, dialect);
        }
        return false;
    }
    let (held, count) = within_quotes(ahead, size, HAS_QUOTES);
    put_found(
        target,
        code,
        row,
        held,
        count,
        coded_number::<ALL_STANDARD>(code, held, count),
    )
}
