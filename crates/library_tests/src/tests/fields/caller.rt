// Callers of fields and columns, proved and run.

ghost use Rattle.std.specs.Prelude.{◌≡◌, ◌-◌, ◌<◌, ◌≤◌, ◌^◌, count_by, drop, is_err, length, sum, IfSome};
ghost use Rattle.lexical_fields.specs.Callers.{plain_fields, total};
ghost use Rattle.lexical_fields.specs.Fields.{fields, fields_from};

use crate::tests::answers;
use lexical_fields::{ColumnError, Fields, read_column};
use lexical_parse_integer::{format, options};

/// How many fields of a text are no numbers.
fn fault_count(text: &[u8], separator: u8) -> usize
    ensures { result ≡ count_by (λ field. is_err field.answer) (plain_fields separator text.now) }
{
    Fields::<u64>::new(text, separator, &format::STANDARD, &options::STANDARD)
        .filter(|field| field.answer.is_err())
        .count()
}

// The sum of some numbers.
fn sum_of(values: &[u64]) -> u128
    requires { length values.now < 2 ^ 64 }
    ensures { result ≡ sum values.now }
{
    let mut sum = 0;
    for value in values {
        sum += u128::from(*value);
    }
    sum
}

/// The sum of a column's numbers, as far as there is room for them.
fn total(text: &[u8], separator: u8, values: &mut [u64]) -> Result<u128, ColumnError>
    ensures { result ≡ total (length values.old) separator text.now }
{
    let format = &format::STANDARD;
    match read_column::<u64>(text, separator, format, &options::LARGE_NUMBERS, values) {
        Ok(column) => Ok(sum_of(&values[..column.count])),
        Err(error) => Err(error),
    }
}

// How many numbers a column had room for, and what it leaves of the text: the fields behind them.
fn left_behind<'a>(text: &'a [u8], separator: u8, values: &mut [u64]) -> Option<(usize, &'a [u8])>
    ensures room { IfSome result (λ left. left.0 ≤ length values.old) }
    ensures fields { IfSome result (λ left.
        fields_from separator (length text.now - length left.1.now) left.1.now
        ≡ drop left.0 (fields separator text.now)) }
{
    let format = &format::STANDARD;
    match read_column::<u64>(text, separator, format, &options::LARGE_NUMBERS, values) {
        Ok(column) => Some((column.count, &text[column.stop..])),
        Err(_) => None,
    }
}

#[test]
fn callers(rt: HostRuntime) {
    answers(&rt, fault_count(b"12,,7,", b','), 1);
    let mut values = [0; 4];
    answers(&rt, total(b"12,7,", b',', &mut values), Ok(19));
    let left = left_behind(b"12,7,x", b',', &mut values[..2]);
    answers(&rt, left, Some((2, b"x".as_slice())));
}
