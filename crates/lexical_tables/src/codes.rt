//! The code of a column: a byte that describes all its cells, which a table's reader asks for once per call.
//!
//! [`UNKNOWN`] is right for every column: then the reader asks the column at each cell. The code of a type is for a
//! column whose cells are read under a format without punctuation in radix 10, with [`WITH_BITS`] added where a number
//! may be missing, and [`WITH_ZERO_RULE`] where the format forbids leading zeros. Its three lowest bits are the type: 0
//! to 3 for `u8` to `u64`, and 4 to 7 for `i8` to `i64`.

ghost use Rattle.std.specs.Prelude.{◌≡◌, ◌<◌, ◌≤◌, Some, is_some, length, map, slice_index};
ghost use Rattle.lexical_tables.specs.Cells.{ends_in_digit};
ghost use Rattle.lexical_tables.specs.Codes.{AreCodes, AreStandard, IsCode, IsCodeIn, coded_type, has_coded_bits};
ghost use Rattle.lexical_tables.specs.declared.codes.Loop.TheVariants.{Standard};
ghost use Rattle.lexical_tables.specs.Readings.{Integers};
ghost use Rattle.lexical_tables.specs.Targets.{TargetView};

use crate::dialect::Dialect;
use crate::targets::TableColumn;
use lexical_parse_integer::NumberFormat;
use lexical_parse_integer::quick::is_separated;
use lexical_util::digit::char_is_digit;

/// Nothing is known of the column's cells.
pub const UNKNOWN: u8 = 0;

/// The column's cells aren't read.
pub const NOT_READ: u8 = 1;

/// The column's cells are texts.
pub const TEXTS: u8 = 2;

/// The column's cells are numbers, most of which `read_at_once` reads.
pub const AT_ONCE: u8 = 3;

/// The column's cells are numbers that `read_parsed` and `read_left` parse: the loop over cells doesn't call
/// `read_at_once`.
pub const PARSED: u8 = 5;

// The column's cells are numbers that `TableColumn::read_parsed` parses: neither blanks nor a missing text stand in
// them. The table's reader sets this code for a column whose own code is `PARSED`.
pub(crate) const BARE: u8 = 6;

// The column's cells are amounts, which `TableColumn::read_amount` reads. The table's reader sets this code for a
// column whose own code is `AT_ONCE`.
pub(crate) const AMOUNTS: u8 = 7;

/// Numbers of 8 bits without a sign.
pub const U8: u8 = 8;

/// Numbers of 16 bits without a sign.
pub const U16: u8 = 9;

/// Numbers of 32 bits without a sign.
pub const U32: u8 = 10;

/// Numbers of 64 bits without a sign.
pub const U64: u8 = 11;

/// Numbers of 8 bits with a sign.
pub const I8: u8 = 12;

/// Numbers of 16 bits with a sign.
pub const I16: u8 = 13;

/// Numbers of 32 bits with a sign.
pub const I32: u8 = 14;

/// Numbers of 64 bits with a sign.
pub const I64: u8 = 15;

/// What is added to the code of a type where a number may be missing.
pub const WITH_BITS: u8 = 16;

/// What is added to the code of a type, with bits or without, where no zero may stand in front of another digit.
pub const WITH_ZERO_RULE: u8 = 32;

/// The code of a column under a format, from its code under the standard one, which has to be the code of a type.
///
/// It is for implementations of [`TableColumn`](crate::TableColumn).
#[tactic(auto, using(crate::proofs::CodeSteps::parsed_integers))]
pub fn under_format(code: u8, format: &NumberFormat) -> u8
    requires read { 8 ≤ code }
    requires standard { code < 32 }
    ensures { (target : TargetView) → target.reading ≡ Integers format.now (coded_type code)
        → is_some target.present ≡ has_coded_bits code → IsCode result (Some target) }
{
    if !is_separated(format, b' ') {
        return PARSED;
    }
    if format.no_integer_leading_zeros() {
        return code + WITH_ZERO_RULE;
    }
    code
}

/// Whether a number may be missing in a column with a code of a type.
#[inline(always)]
pub fn has_bits(code: u8) -> bool
    ensures { result ≡ has_coded_bits code }
{
    code % (2 * WITH_BITS) >= WITH_BITS
}

// How many columns of a table may have a code. The columns behind them are asked at each cell.
pub(crate) const CODED: usize = 256;

// Which loop reads the cells of a table, by the codes of its columns.
#[derive(Copy, Clone)]
pub(crate) enum Loop {
    // Each column has the code of a type without the rule on zeros: the loop asks for no other code.
    Standard,
    // The loop makes no call to read a cell: it stops at a cell that needs one.
    WithoutCalls,
    // Texts, amounts or numbers of other formats are read by calls.
    WithCalls,
}

// The loop for these columns and one more, which has a code.
#[inline(always)]
fn with_code(columns: Loop, code: u8) -> Loop
    ensures columns { result ≡ Standard → columns ≡ Standard }
    ensures code { result ≡ Standard → (8 ≤ code) × (code < 32) }
{
    if code >= U8 && code < WITH_ZERO_RULE {
        return columns;
    }
    if code == TEXTS || code == AMOUNTS || code == PARSED || code == BARE {
        return Loop::WithCalls;
    }
    match columns {
        Loop::WithCalls => Loop::WithCalls,
        _ => Loop::WithoutCalls,
    }
}

// Whether a text's last byte is a decimal digit.
#[tactic(auto, using(crate::proofs::CodeLists::no_digit))]
fn ends_in_digit(text: &[u8]) -> bool
    ensures { result ≡ ends_in_digit text.now }
{
    if text.is_empty() {
        return false;
    }
    char_is_digit(text[text.len() - 1], 10)
}

// The code in a table of a column whose own code is `AT_ONCE`. It stays that if blanks are allowed, or if the missing
// text may be a number too; otherwise a column with amounts gets `AMOUNTS`.
#[inline(always)]
#[tactic(auto, using(crate::proofs::CodeSteps::low_code, crate::proofs::CodeSteps::amounts_code))]
fn code_of_amounts<C: TableColumn>(target: &C, dialect: &Dialect<'_>, is_missing_number: bool) -> u8
    requires mark { is_missing_number ≡ ends_in_digit dialect.now.missing.now }
    requires code { IsCode 3 (C.target target.now) }
    ensures { IsCodeIn dialect.now result (C.target target.now) }
{
    if dialect.allows_blanks {
        return AT_ONCE;
    }
    if is_missing_number {
        if target.may_miss() {
            return AT_ONCE;
        }
    }
    if target.has_amounts() {
        return AMOUNTS;
    }
    AT_ONCE
}

// The code in a table of a column whose own code is `PARSED`: `BARE` where neither blanks nor a missing text stand in
// cells.
#[inline(always)]
#[tactic(auto, using(crate::proofs::CodeSteps::parsed_code, crate::proofs::CodeSteps::bare_code))]
fn code_of_parsed<C: TableColumn>(target: &C, dialect: &Dialect<'_>) -> u8
    requires code { IsCode 5 (C.target target.now) }
    ensures { IsCodeIn dialect.now result (C.target target.now) }
{
    if dialect.allows_blanks || target.may_miss() {
        return PARSED;
    }
    BARE
}

// A column's code in a table: where the missing text may be a number too, the column is asked for each number.
#[inline(always)]
#[tactic(auto, using(crate::proofs::CodeSteps::asked_code, crate::proofs::CodeSteps::low_code, crate::proofs::CodeSteps::none_code, crate::proofs::CodeSteps::type_code))]
fn code_in<C: TableColumn>(target: &C, dialect: &Dialect<'_>, is_missing_number: bool) -> u8
    requires mark { is_missing_number ≡ ends_in_digit dialect.now.missing.now }
    ensures { IsCodeIn dialect.now result (C.target target.now) }
{
    let code = target.code();
    if code < AT_ONCE {
        return code;
    }
    if code == PARSED {
        return code_of_parsed(target, dialect);
    }
    if code == AT_ONCE {
        return code_of_amounts(target, dialect, is_missing_number);
    }
    if code < U8 {
        return UNKNOWN;
    }
    if is_missing_number {
        if has_bits(code) {
            return AT_ONCE;
        }
    }
    code
}

// Asks each column that may have a code for that code, and returns which loop reads the cells.
#[inline(never)]
pub(crate) fn put_codes<C: TableColumn>(
    dialect: &Dialect<'_>,
    targets: &[C],
    codes: &mut [u8; CODED],
) -> Loop
    ensures codes { AreCodes dialect.now codes.new (map C.target targets.now) }
    ensures standard { result ≡ Standard → AreStandard (length targets.now) codes.new }
{
    let is_missing_number = ends_in_digit(dialect.missing);
    let count = targets.len().min(CODED);
    let mut columns = Loop::Standard;
    for column in 0..count {
        let code = code_in(&targets[column], dialect, is_missing_number);
        codes[column] = code;
        columns = with_code(columns, code);
    }
    columns
}

// The code of a column. The columns behind the coded ones have no code.
#[inline(always)]
pub(crate) fn code_of(codes: &[u8], column: usize) -> u8
    ensures coded { column < length codes.now → result ≡ slice_index codes.now column }
    ensures behind { length codes.now ≤ column → result ≡ 0 }
{
    if column < codes.len() {
        codes[column]
    } else {
        UNKNOWN
    }
}
