//! Doubled quotes of a text as single ones.

ghost use Rattle.std.specs.Prelude.{◌≡◌, ◌++◌, ◌≤◌, ◌&&◌, ◌==◌, drop, length, not};
ghost use Rattle.lexical_tables.specs.Folded.{folded, put_if_room};
ghost use Rattle.lexical_tables.specs.Quotes.{quote};

// Whether a byte is the second one of a doubled quote, by whether an odd number of quotes stands directly in front of it.
#[inline(always)]
fn is_second(byte: u8, is_odd: bool) -> bool
    ensures { result ≡ ((byte == quote) && is_odd) }
{
    byte == b'"' && is_odd
}

// Whether an odd number of quotes stands directly in front of what follows a byte.
#[inline(always)]
fn is_odd_behind(byte: u8, is_odd: bool) -> bool
    ensures { result ≡ ((byte == quote) && not is_odd) }
{
    byte == b'"' && !is_odd
}

// How many bytes a text has with each doubled quote as one.
#[inline(always)]
fn folded_size(text: &[u8]) -> usize
    ensures { result ≡ length (folded text.now) }
{
    let mut size = 0;
    let mut is_odd = false;
    let mut place = 0;
    while place < text.len() {
        if !is_second(text[place], is_odd) {
            size += 1;
        }
        is_odd = is_odd_behind(text[place], is_odd);
        place += 1;
    }
    size
}

// Writes a text with each doubled quote as one, where there is room for it: how many bytes that has.
#[inline(always)]
fn put_folded(text: &[u8], to: &mut [u8]) -> usize
    requires room { length (folded text.now) ≤ length to.old }
    ensures size { result ≡ length (folded text.now) }
    ensures written { to.new ≡ folded text.now ++ drop (length (folded text.now)) to.old }
{
    let mut size = 0;
    let mut is_odd = false;
    let mut place = 0;
    while place < text.len() {
        if !is_second(text[place], is_odd) {
            to[size] = text[place];
            size += 1;
        }
        is_odd = is_odd_behind(text[place], is_odd);
        place += 1;
    }
    size
}

/// Writes a text with each doubled quote as one, and answers how many bytes that has: no more than the text.
///
/// It is for what a cell holds within its quotes. If the slice has too little room, nothing is written, and the answer
/// is the room that is needed. What lies behind the written bytes stays as it was. A quote that isn't doubled stays, so
/// three in a row become two.
///
/// Of `5"" nails` it writes `5" nails`, and answers 8.
#[tactic(auto, using(crate::proofs::FoldSteps::folded_short))]
pub fn fold_quotes(text: &[u8], to: &mut [u8]) -> usize
    ensures size { result ≡ length (folded text.now) }
    ensures written { to.new ≡ put_if_room (folded text.now) to.old }
{
    if to.len() < text.len() {
        let size = folded_size(text);
        if to.len() < size {
            return size;
        }
    }
    put_folded(text, to)
}
