// Which bytes are skipped, which are those of a word, and how many of them a text begins with.
ghost use Rattle.std.specs.Prelude.{◌≡◌, ◌≤◌, length};
ghost use Rattle.std.specs.List.{prefix_len};
ghost use Rattle.lexical_literals.specs.Tokens.{is_skipped, is_word_byte, word_length};

use crate::lanes::{skipped_length_of_16, word_length_of_16};

// 1 for each byte of a word, 2 for each that is skipped between tokens, and 0 for any other: one table for the two
// tests.
#[rattlefmt::skip]
static KINDS: [u8; 256] = [
    0, 0, 0, 0, 0, 0, 0, 0, 0, 2, 2, 0, 0, 2, 0, 0, // tab, line feed, carriage return
    0, 0, 0, 0, 0, 0, 0, 0, 0, 0, 0, 0, 0, 0, 0, 0,
    2, 0, 0, 0, 0, 0, 0, 0, 0, 0, 0, 0, 0, 0, 0, 0, // space
    1, 1, 1, 1, 1, 1, 1, 1, 1, 1, 0, 0, 0, 0, 0, 0, // 0 to 9
    0, 1, 1, 1, 1, 1, 1, 1, 1, 1, 1, 1, 1, 1, 1, 1, // A to O
    1, 1, 1, 1, 1, 1, 1, 1, 1, 1, 1, 0, 0, 0, 0, 1, // P to Z, _
    0, 1, 1, 1, 1, 1, 1, 1, 1, 1, 1, 1, 1, 1, 1, 1, // a to o
    1, 1, 1, 1, 1, 1, 1, 1, 1, 1, 1, 0, 0, 0, 0, 0, // p to z
    0, 0, 0, 0, 0, 0, 0, 0, 0, 0, 0, 0, 0, 0, 0, 0,
    0, 0, 0, 0, 0, 0, 0, 0, 0, 0, 0, 0, 0, 0, 0, 0,
    0, 0, 0, 0, 0, 0, 0, 0, 0, 0, 0, 0, 0, 0, 0, 0,
    0, 0, 0, 0, 0, 0, 0, 0, 0, 0, 0, 0, 0, 0, 0, 0,
    0, 0, 0, 0, 0, 0, 0, 0, 0, 0, 0, 0, 0, 0, 0, 0,
    0, 0, 0, 0, 0, 0, 0, 0, 0, 0, 0, 0, 0, 0, 0, 0,
    0, 0, 0, 0, 0, 0, 0, 0, 0, 0, 0, 0, 0, 0, 0, 0,
    0, 0, 0, 0, 0, 0, 0, 0, 0, 0, 0, 0, 0, 0, 0, 0,
];

// Whether a byte is skipped between tokens.
#[inline(always)]
#[tactic(auto, using(crate::proofs::ByteKinds::skipped_by_table))]
fn is_skipped(byte: u8) -> bool
    ensures { result ≡ is_skipped byte }
{
    KINDS[byte as usize] == 2
}

// Whether a byte is one of a word.
#[inline(always)]
#[tactic(auto, using(crate::proofs::ByteKinds::word_by_table))]
pub(crate) fn is_word_byte(byte: u8) -> bool
    ensures { result ≡ is_word_byte byte }
{
    KINDS[byte as usize] == 1
}

// How many bytes are skipped in front of a token, one by one.
#[inline(always)]
fn short_skipped_length(text: &[u8]) -> usize
    ensures value { result ≡ prefix_len is_skipped text.now }
    ensures within { result ≤ length text.now }
{
    text.iter().take_while(|byte| is_skipped(**byte)).count()
}

// How many bytes are skipped in front of a token, sixteen by sixteen while at least sixteen are
// left.
#[inline(never)]
fn long_skipped_length(text: &[u8]) -> usize
    ensures value { result ≡ prefix_len is_skipped text.now }
    ensures within { result ≤ length text.now }
{
    let mut place = 0;
    while text.len() - place >= 16 {
        let count = skipped_length_of_16(&text[place..place + 16]);
        if count < 16 {
            return place + count;
        }
        place += 16;
    }
    place + short_skipped_length(&text[place..])
}

// How many bytes are skipped in front of a token. The first five are looked at one by one: most often there are none or
// one, or four that indent.
#[inline(always)]
pub(crate) fn skipped_length(text: &[u8]) -> usize
    ensures value { result ≡ prefix_len is_skipped text.now }
    ensures within { result ≤ length text.now }
{
    if text.len() < 16 {
        return short_skipped_length(text);
    }
    let few = short_skipped_length(&text[..5]);
    if few < 5 {
        return few;
    }
    let count = skipped_length_of_16(&text[..16]);
    if count < 16 {
        return count;
    }
    16 + long_skipped_length(&text[16..])
}

// How many bytes of a word a text begins with, one by one.
#[inline(always)]
fn short_word_length(text: &[u8]) -> usize
    ensures value { result ≡ word_length text.now }
    ensures within { result ≤ length text.now }
{
    text.iter().take_while(|byte| is_word_byte(**byte)).count()
}

// How many bytes of a word a text begins with, sixteen by sixteen while at least sixteen are left.
#[inline(never)]
fn long_word_length(text: &[u8]) -> usize
    ensures value { result ≡ word_length text.now }
    ensures within { result ≤ length text.now }
{
    let mut place = 0;
    while text.len() - place >= 16 {
        let count = word_length_of_16(&text[place..place + 16]);
        if count < 16 {
            return place + count;
        }
        place += 16;
    }
    place + short_word_length(&text[place..])
}

// How many bytes of a word a text begins with. The first four are looked at one by one, so that a
// word of up to three ends soon.
#[inline(always)]
pub(crate) fn word_length(text: &[u8]) -> usize
    ensures value { result ≡ word_length text.now }
    ensures within { result ≤ length text.now }
{
    if text.len() < 16 {
        return short_word_length(text);
    }
    let few = short_word_length(&text[..4]);
    if few < 4 {
        return few;
    }
    let count = word_length_of_16(&text[..16]);
    if count < 16 {
        return count;
    }
    16 + long_word_length(&text[16..])
}
