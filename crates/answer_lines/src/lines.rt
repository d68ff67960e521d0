//! The lines of an input.

ghost use Rattle.std.specs.Prelude.{◌≡◌, ◌≢◌, ℕ, ◌^◌, ◌<◌, ◌≤◌, length, slice_index};
ghost use Rattle.lexical_util.specs.Ascii.{line_feed};

use lexical_fields::field_length;

/// The length of the first line: the place of the first line feed, or the end.
pub fn line_end(bytes: &[u8]) -> usize
    ensures within { result ≤ length bytes.now }
    ensures before { (k : ℕ) → k < result → slice_index bytes.now k ≢ line_feed }
    ensures found { result < length bytes.now → slice_index bytes.now result ≡ line_feed }
    ensures room { length bytes.now < 2 ^ 64 }
{
    field_length(bytes, b'\n')
}
