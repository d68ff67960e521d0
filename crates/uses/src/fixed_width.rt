//! Rows of columns of fixed width, whose numbers begin with zeros that fill them up.

ghost use Rattle.std.specs.Prelude.{◌≡◌, ◌^◌, ◌<◌, sum};
ghost use Rattle.uses.specs.FixedWidth.{values_in};

use lexical_parse_integer::{Error, FromLexical};

/// Why a row isn't read. Columns and places count from 0.
#[derive(Debug, Copy, Clone, PartialEq, Eq)]
pub enum RowError {
    /// The row has another length than its columns have together.
    Length {
        expected: usize,
        found: usize,
    },
    /// The first column that isn't read, and where it starts in the row; the fault's place
    /// counts from there.
    Column {
        column: usize,
        start: usize,
        error: Error,
    },
}

/// The numbers in the columns of a row, whose widths are in bytes and add up to a `usize`.
///
/// A number may begin with zeros, after its sign if it has one; spaces aren't read. A row of
/// another length than its columns' is reported first.
///
/// With the widths 4, 3 and 5 the row `0007042-0013` has the numbers 7, 42 and -13.
pub fn values<const N: usize>(row: &[u8], widths: &[usize; N]) -> Result<[i64; N], RowError>
    requires { sum widths.now < 2 ^ 64 }
    ensures { result ≡ values_in widths.now row.now }
{
    let expected = widths.iter().sum();
    if row.len() != expected {
        return Err(RowError::Length {
            expected,
            found: row.len(),
        });
    }
    let mut values = [0; N];
    let mut start = 0;
    for column in 0..N {
        let end = start + widths[column];
        match i64::from_lexical(&row[start..end]) {
            Ok(value) => values[column] = value,
            Err(error) => return Err(RowError::Column {
                column,
                start,
                error,
            }),
        }
        start = end;
    }
    Ok(values)
}
