// Callers that pin what the words of contracts mean: each states what follows from a word, so that its proof would fail
// if the word meant less.
ghost use Rattle.std.specs.Prelude.{◌≡◌, ◌+◌, ◌≤◌, false, IfSome, IsNone, length, None, Some, take, ℕ};
ghost use Rattle.lexical_parse_integer.specs.Runs.{digit_at};
ghost use Rattle.lexical_util.specs.Validity.{fault};

use crate::tests::answers;
use lexical_parse_integer::NumberFormat;
use lexical_parse_integer::algorithm::algorithm_complete_on;
use lexical_parse_integer::cursor::Cursor;
use lexical_parse_integer::format::{JSON, STANDARD};
use lexical_parse_integer::options::LARGE_NUMBERS;

// What a reader passed before its fault: the cursor is still over the text that it was given.
fn passed_before_fault(text: &[u8]) -> Option<&[u8]>
    ensures { IfSome result
        (λ front. (count : ℕ) × (count ≤ length text.now) × (front.now ≡ take count text.now)) }
{
    let mut c = Cursor::new(text, &STANDARD);
    match algorithm_complete_on::<u16>(&mut c, &LARGE_NUMBERS) {
        Ok(_) => None,
        Err(_) => Some(&text[..c.cursor()]),
    }
}

// A reader's format: the cursor is still under the one that it was given, whatever the answer was.
fn format_behind_answer(text: &[u8], format: &NumberFormat) -> NumberFormat
    requires valid { IsNone (fault format.now) }
    ensures { result ≡ format.now }
{
    let mut c = Cursor::new(text, format);
    let _answer = algorithm_complete_on::<u16>(&mut c, &LARGE_NUMBERS);
    c.format()
}

// At position 0 nothing was read: it answers how many digits were. The radix is the format's, where no octal zero can
// have chosen another.
fn digits_at_front(c: &Cursor<'_>) -> usize
    requires front { c.now.position ≡ 0 }
    ensures none { result ≡ 0 }
    ensures start { c.now.start ≡ 0 }
    ensures turns { c.now.turns ≡ 0 }
    ensures closed { c.now.closed ≡ false }
    ensures radix { c.now.format.literal_octal_zero ≡ false
        → c.now.radix ≡ c.now.format.mantissa_radix }
{
    c.cursor();
    c.digits()
}

// Where a format has neither literal prefixes nor octal zeros, its radix is the effective one wherever the cursor is.
fn radix_anywhere(c: &Cursor<'_>) -> u32
    requires no_prefixes { c.now.format.literal_prefixes ≡ false }
    requires no_octal_zeros { c.now.format.literal_octal_zero ≡ false }
    ensures { result ≡ c.now.format.mantissa_radix }
{
    c.cursor();
    c.radix()
}

// The first digit of a text, and the byte that holds it: no byte before it is a digit.
fn first_digit(text: &[u8]) -> Option<(u32, usize)>
    ensures digit { IfSome result (λ found. digit_at 10 text.now found.1 ≡ Some found.0) }
    ensures least { IfSome result
        (λ found. (place : ℕ) → place + 1 ≤ found.1 → digit_at 10 text.now place ≡ None) }
{
    let mut c = Cursor::new(text, &STANDARD);
    let digit = c.next_digit()?;
    Some((digit, c.cursor() - 1))
}

// The callers run. What is pinned is in their clauses.

#[test]
fn a_fault_leaves_the_text(rt: HostRuntime) {
    let front = passed_before_fault(b"655361");
    answers(&rt, front, Some(b"65536".as_slice()));
}

#[test]
fn an_answer_leaves_the_format(rt: HostRuntime) {
    answers(&rt, format_behind_answer(b"+7", &JSON), JSON);
}

#[test]
fn a_new_cursor_has_read_nothing(rt: HostRuntime) {
    let c = Cursor::new(b"7", &STANDARD);
    answers(&rt, (digits_at_front(&c), radix_anywhere(&c)), (0, 10));
}

#[test]
fn no_digit_is_before_the_first(rt: HostRuntime) {
    answers(&rt, first_digit(b"7"), Some((7, 0)));
}
