//! A case: a call, its arguments, and its text.

use crate::format::format_of;
use lexical_fields::{field_length, read_column};
use lexical_parse_integer::format::STANDARD;
use lexical_parse_integer::{FromLexical, NumberFormat, options};
use lexical_tables::{Dialect, Layout};

/// How many bytes describe a format; below it, how many numbers describe how a text is read.
const FORMAT_SIZE: usize = 18;

const HOW_SIZE: usize = 12;

/// Which of three columns aren't read: none; the middle one, where numbers of the last may be missing; or all.
#[derive(Debug, Clone, Copy, PartialEq, Eq)]
pub enum Lacks {
    Nothing,
    Some,
    All,
}

impl Lacks {
    // What isn't read, by its number.
    fn of(number: usize) -> Lacks {
        match number {
            0 => Lacks::Nothing,
            1 | 2 => Lacks::Some,
            _ => Lacks::All,
        }
    }
}

/// How a text of many numbers is read.
#[derive(Clone, Copy)]
pub struct How {
    /// The byte between two cells or fields.
    pub separator: u8,
    /// How many rows there is room for, or numbers.
    pub rows: usize,
    /// How many cells a row has.
    pub columns: usize,
    /// Whether lines have returns, cells quotes, and numbers blanks around them; whether empty rows are skipped.
    pub has_returns: bool,
    pub has_quotes: bool,
    pub allows_blanks: bool,
    pub skips_empty_rows: bool,
    /// The widths of a row's cells, or 0, and whether rows are records.
    pub widths: [usize; 3],
    pub is_records: bool,
    /// What isn't read of three columns, and whether more follows the text.
    pub lacks: Lacks,
    pub is_part: bool,
    /// How many bytes of the text a call on one cell reads.
    pub cell: usize,
}

/// A case.
#[derive(Clone, Copy)]
pub struct Case<'a> {
    pub call: &'a [u8],
    pub type_name: &'a [u8],
    pub format: NumberFormat,
    pub how: How,
    pub text: &'a [u8],
}

impl How {
    // How a text is read, by the numbers that say so.
    fn of(numbers: &[usize; HOW_SIZE]) -> How {
        How {
            separator: u8::try_from(numbers[0]).unwrap_or(0),
            rows: numbers[1],
            columns: numbers[2],
            has_returns: numbers[3] != 0,
            has_quotes: numbers[4] != 0,
            allows_blanks: numbers[5] != 0,
            skips_empty_rows: numbers[6] != 0,
            widths: [numbers[7]; 3],
            is_records: numbers[8] != 0,
            lacks: Lacks::of(numbers[9]),
            is_part: numbers[10] != 0,
            cell: numbers[11],
        }
    }

    /// How a table is written.
    pub fn dialect(&self) -> Dialect<'_> {
        let columns = self.columns;
        let widths = self.widths.get(..columns).unwrap_or(&[]);
        let layout = if self.is_records {
            Layout::Records { widths }
        } else if self.widths[0] > 0 {
            Layout::Widths { widths }
        } else {
            Layout::Separated {
                separator: self.separator,
                columns,
            }
        };
        Dialect {
            layout,
            has_returns: self.has_returns,
            allows_returns: false,
            has_quotes: self.has_quotes,
            allows_blanks: self.allows_blanks,
            skips_empty_rows: self.skips_empty_rows,
            missing: b"",
        }
    }
}

// The text up to a space, and what is behind that.
fn word(text: &[u8]) -> Option<(&[u8], &[u8])> {
    let size = field_length(text, b' ');
    Some((text.get(..size)?, text.get(size.checked_add(1)?..)?))
}

// The format that a word lists as bytes, with commas between them.
fn format_in(word: &[u8]) -> Option<NumberFormat> {
    let mut bytes = [0_u8; FORMAT_SIZE];
    let column = read_column(word, b',', &STANDARD, &options::STANDARD, &mut bytes).ok()?;
    (column.count == FORMAT_SIZE).then_some(format_of(&bytes))
}

// How a text is read, which a word lists as numbers, with commas between them.
fn how_in(word: &[u8]) -> Option<How> {
    let mut numbers = [0_usize; HOW_SIZE];
    let column = read_column(word, b',', &STANDARD, &options::STANDARD, &mut numbers).ok()?;
    (column.count == HOW_SIZE).then_some(How::of(&numbers))
}

/// The case that an input begins with, and what is behind it: `CALL TYPE FORMAT HOW SIZE TEXT`,
/// where the text has `SIZE` bytes, and a line feed follows.
pub fn next_case(input: &[u8]) -> Option<(Case<'_>, &[u8])> {
    let (call, rest) = word(input)?;
    let (type_name, rest) = word(rest)?;
    let (format, rest) = word(rest)?;
    let (how, rest) = word(rest)?;
    let (size, rest) = word(rest)?;
    let size = usize::from_lexical(size).ok()?;
    let case = Case {
        call,
        type_name,
        format: format_in(format)?,
        how: how_in(how)?,
        text: rest.get(..size)?,
    };
    Some((case, rest.get(size.checked_add(1)?..)?))
}
