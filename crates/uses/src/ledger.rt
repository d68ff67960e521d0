//! Ledgers: a line for each entry, with its name, a space or a tab, and its amount in cents.

ghost use Rattle.std.specs.Prelude.{◌≡◌, ◌<◌, length, position, true, IfSome};
ghost use Rattle.lexical_util.specs.Number.{integer_type, number_if_fits};
ghost use Rattle.lexical_parse_integer.specs.Answer.{view_of};
ghost use Rattle.uses.specs.Ledger.{cents_in, entry_in, is_blank, view_of_entry, total_in};

use lexical_parse_integer::{Error, FromLexical};

/// One line of a ledger.
#[derive(Debug, Copy, Clone, PartialEq, Eq)]
pub struct Entry<'a> {
    /// What comes before the first space or tab.
    pub name: &'a [u8],
    /// What comes after it.
    pub cents: i64,
}

/// Why a line is no entry.
#[derive(Debug, Copy, Clone, PartialEq, Eq)]
pub enum LineError {
    /// The line has no space and no tab, so that no amount begins.
    NoAmount,
    /// The amount begins at `start` in the line, and isn't read; the fault's place counts from there.
    Amount { start: usize, error: Error },
}

/// Why a ledger has no total.
#[derive(Debug, Copy, Clone, PartialEq, Eq)]
pub enum LedgerError {
    /// The first line that is no entry, counted from 0.
    Line { line: usize, error: LineError },
    /// Each line is read, and the sum of the amounts leaves `i64`.
    OutOfRange,
}

impl<'a> Entry<'a> {
    /// The entry in a line.
    ///
    /// `rent -85000` has the name `rent` and -85000 cents. `rent -85x00` gives
    /// `Amount { start: 5, error: InvalidDigit(3) }`.
    pub fn of(line: &'a [u8]) -> Result<Entry<'a>, LineError>
        ensures { view_of view_of_entry result ≡ entry_in line.now }
    {
        let end = blank_in(line).ok_or(LineError::NoAmount)?;
        let start = end + 1;
        match i64::from_lexical(&line[start..]) {
            Ok(cents) => Ok(Entry {
                name: &line[..end],
                cents,
            }),
            Err(error) => Err(LineError::Amount { start, error }),
        }
    }
}

// The place of the first space or tab.
fn blank_in(line: &[u8]) -> Option<usize>
    ensures place { result ≡ position is_blank line.now }
    ensures within { IfSome result (λ end. end < length line.now) }
{
    line.iter().position(|byte| matches!(byte, b' ' | b'\t'))
}

// What a line adds to the total: nothing where it is empty.
fn cents(line: &[u8]) -> Result<i64, LineError>
    ensures { result ≡ cents_in line.now }
{
    if line.is_empty() {
        return Ok(0);
    }
    Ok(Entry::of(line)?.cents)
}

// The number as an `i64`, and `None` where it leaves `i64`.
fn as_i64(number: i128) -> Option<i64>
    ensures { result ≡ number_if_fits (integer_type 64 true) number }
{
    i64::try_from(number).ok()
}

/// The sum of the amounts in a ledger's lines, which are those of `str::lines`; an empty line has
/// none.
///
/// The first line that is no entry is reported before a sum that leaves `i64`. Only the sum of all lines has to fit
/// `i64`, so their order doesn't matter: a partial sum may exceed `i64`.
pub fn total(text: &str) -> Result<i64, LedgerError>
    ensures { result ≡ total_in text.now }
{
    let mut sum: i128 = 0;
    for (line, text) in text.lines().enumerate() {
        match cents(text.as_bytes()) {
            Ok(cents) => sum += i128::from(cents),
            Err(error) => return Err(LedgerError::Line { line, error }),
        }
    }
    as_i64(sum).ok_or(LedgerError::OutOfRange)
}
