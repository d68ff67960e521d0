//! Where the zeros in front of a number end.
ghost use Rattle.std.specs.Prelude.{◌≡◌, ◌≢◌, ◌<◌, ◌≤◌, ℕ, get_or, length};
ghost use Rattle.lexical_util.specs.Ascii.{digit_zero};

use crate::digits::{ZEROS, word_at};

// The place behind the words of zeros from a place on.
#[inline(always)]
fn behind_words(text: &[u8], start: usize) -> usize
    requires { start ≤ length text.now }
    ensures from { start ≤ result }
    ensures within { result ≤ length text.now }
    ensures zeros { (k : ℕ) → start ≤ k → k < result → get_or text.now k 0 ≡ digit_zero }
{
    let mut at = start;
    while text.len() - at >= 8 && word_at(text, at) == ZEROS {
        at += 8;
    }
    at
}

/// The place behind the zeros from a place on: by words of eight bytes, since a long number may begin with many.
#[inline(never)]
pub fn behind_zeros(text: &[u8], start: usize) -> usize
    requires { start ≤ length text.now }
    ensures from { start ≤ result }
    ensures within { result ≤ length text.now }
    ensures zeros { (k : ℕ) → start ≤ k → k < result → get_or text.now k 0 ≡ digit_zero }
    ensures stops { result < length text.now → get_or text.now result 0 ≢ digit_zero }
{
    let mut at = behind_words(text, start);
    while at < text.len() && text[at] == b'0' {
        at += 1;
    }
    at
}
