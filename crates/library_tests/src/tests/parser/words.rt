// Words of four and eight digits: whether they are digits, what they are worth, and cursors that take them.
// In a word the lowest byte comes first in the text: 0x31323334 is the text `4321`.
ghost use Rattle.std.specs.Prelude.{◌≤◌};

use crate::tests::answers;
use lexical_parse_integer::NumberFormatBuilder;
use lexical_parse_integer::algorithm::{
    is_4digits, is_8digits, parse_4digits, parse_8digits, try_parse_4digits, try_parse_8digits,
};
use lexical_parse_integer::cursor::Cursor;
use lexical_parse_integer::format::STANDARD;

// The value of a word, and `None` where its bytes are not all digits.
fn value_of_4(v: u32, radix: u32) -> Option<u32>
    requires least { 2 ≤ radix }
    requires greatest { radix ≤ 10 }
{
    if is_4digits(v, radix) {
        Some(parse_4digits(v, radix))
    } else {
        None
    }
}

fn value_of_8(v: u64, radix: u32) -> Option<u64>
    requires least { 2 ≤ radix }
    requires greatest { radix ≤ 10 }
{
    if is_8digits(v, radix) {
        Some(parse_8digits(v, radix))
    } else {
        None
    }
}

// What a cursor at a text's front gives of a word, and where it then stands.
fn taken_4(text: &[u8]) -> (Option<u32>, usize) {
    let mut c = Cursor::new(text, &STANDARD);
    let word = try_parse_4digits::<u32>(&mut c);
    (word, c.cursor())
}

fn taken_8(text: &[u8]) -> (Option<u64>, usize) {
    let mut c = Cursor::new(text, &STANDARD);
    let word = try_parse_8digits::<u64>(&mut c);
    (word, c.cursor())
}

// Words that are digits of a radix, next to it, and beyond what a sum of bytes shows.
#[test]
fn words_that_are_digits_and_others(rt: HostRuntime) {
    let four = [
        value_of_4(0x3132_3334, 10),
        value_of_4(0x3132_3334, 5),
        value_of_4(0x3132_3334, 4),
        value_of_4(0x2930_3938, 10),
        value_of_4(0x3132_33ff, 10),
    ];
    answers(&rt, four, [Some(4321), Some(586), None, None, None]);
    let eight = [
        value_of_8(0x3132_3334_3433_3231, 10),
        value_of_8(0x3132_3334_3433_3231, 7),
        value_of_8(0x3132_3334_3536_3739, 9),
        value_of_8(0x8030_3030_3030_3030, 10),
    ];
    answers(&rt, eight, [Some(12_344_321), Some(1_120_400), None, None]);
}

#[test]
fn cursors_take_words(rt: HostRuntime) {
    let four = [taken_4(b"1234_"), taken_4(b"123_")];
    answers(&rt, four, [(Some(1234), 4), (None, 0)]);
    let eight = [taken_8(b"12345678"), taken_8(b"1234567.")];
    answers(&rt, eight, [(Some(12_345_678), 8), (None, 0)]);
}
