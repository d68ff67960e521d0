// Digits of a radix. proofs/Digits.antt has more bytes.

use crate::tests::answers;
use lexical_util::digit::{char_is_digit, char_to_digit};

#[test]
fn digits_of_a_radix(rt: HostRuntime) {
    let digits = [
        char_to_digit(b'9', 10),
        char_to_digit(b'F', 16),
        char_to_digit(b'z', 35),
    ];
    answers(&rt, digits, [Some(9), Some(15), None]);
    let are_digits = [char_is_digit(b'Z', 36), char_is_digit(b'/', 36)];
    answers(&rt, are_digits, [true, false]);
}
