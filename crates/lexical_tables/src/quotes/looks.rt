// What one look at some bytes of a text finds: which of them are separators outside quotes.
ghost use Rattle.std.specs.Prelude.{◌≡◌, ◌==◌, ◌+◌, ◌-◌, ◌%◌, ◌<◌, ◌≤◌, ℕ, false, true, if◌then◌else◌, length, slice_index, take};
ghost use Rattle.std.specs.Int.{bit_at};
ghost use Rattle.lexical_tables.specs.Quotes.{has_odd_quotes, quote, seen_at};

use super::parities::odd_to_16;
use lexical_fields::marks_among_16;

// What a look at sixteen bytes finds: the separators outside quotes and all quotes, a bit for each, and whether what is behind
// stands within quotes.
#[derive(Copy, Clone)]
pub(crate) struct Look {
    pub found: u64,
    pub quotes: u64,
    pub is_within: bool,
}

// Which bytes stand outside quotes, a bit for each. `quotes` marks the quotes among them, and `odd` the places up to
// which the number of quotes is odd.
#[inline(always)]
pub(crate) fn outside_marks(quotes: u64, odd: u64, is_within: bool) -> u64
    ensures within { is_within ≡ true → (k : ℕ) → k < 64
        → bit_at result k ≡ (bit_at odd k + bit_at quotes k) % 2 }
    ensures outside { is_within ≡ false → (k : ℕ) → k < 64
        → bit_at result k ≡ 1 - (bit_at odd k + bit_at quotes k) % 2 }
{
    let odd_before = odd ^ quotes;
    if is_within { odd_before } else { !odd_before }
}

// The separators outside quotes where no quote is among the bytes: all, or none.
#[inline(always)]
pub(crate) fn all_or_none(separators: u64, is_within: bool) -> u64
    ensures within { is_within ≡ true → result ≡ 0 }
    ensures outside { is_within ≡ false → result ≡ separators }
{
    if is_within { 0 } else { separators }
}

// One look at the sixteen bytes from a place on.
#[inline(always)]
pub(crate) fn look_at_16(text: &[u8], place: usize, separator: u8, is_within: bool) -> Look
    requires room { place + 16 ≤ length text.now }
    requires within { is_within ≡ has_odd_quotes (take place text.now) }
    ensures here { (k : ℕ) → k < 16 → bit_at result.found k
        ≡ (if seen_at separator text.now (place + k) == separator then 1 else 0) }
    ensures beyond { (k : ℕ) → 16 ≤ k → bit_at result.found k ≡ 0 }
    ensures quotes { (k : ℕ) → k < 16 → bit_at result.quotes k
        ≡ (if slice_index text.now (place + k) == quote then 1 else 0) }
    ensures within { result.is_within ≡ has_odd_quotes (take (place + 16) text.now) }
{
    let near = &text[place..place + 16];
    let quotes = marks_among_16(near, b'"');
    let separators = marks_among_16(near, separator);
    if quotes == 0 {
        return Look {
            found: all_or_none(separators, is_within),
            quotes,
            is_within,
        };
    }
    let odd = odd_to_16(quotes);
    let is_odd = (odd >> 15) & 1 == 1;
    Look {
        found: separators & outside_marks(quotes, odd, is_within),
        quotes,
        is_within: is_within != is_odd,
    }
}
