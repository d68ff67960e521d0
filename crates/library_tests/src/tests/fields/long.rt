// A long text: 16 MiB of one field.

use super::{column, column_of, fault_in};
use crate::tests::answers;
use lexical_parse_integer::Error;
use lexical_parse_integer::format::STANDARD;
use std::test::Fail;

// 16 MiB.
const SIZE: usize = 16_777_216;

#[test]
fn one_field_of_16_mebibytes(rt: HostRuntime) -> Result<(), Fail> {
    let mut text = vec![in rt.alloc(); b'0'; SIZE]?;
    text[SIZE - 1] = b'7';
    answers(
        &rt,
        column_of(&text, b'\n', &STANDARD),
        (column(1, SIZE), [7, 9]),
    );
    text[0] = b'9';
    let overflow = fault_in(0, 0, Error::Overflow(19));
    answers(&rt, column_of(&text, b'\n', &STANDARD), (overflow, [9, 9]));
    Ok(())
}
