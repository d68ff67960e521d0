//! Doubled quotes of a text as single ones, for C.

ghost use Rattle.std.specs.Prelude.{◌≡◌, length};
ghost use Rattle.lexical_tables.specs.Folded.{folded, put_if_room};

use lexical_tables::fold_quotes;

/// Writes a text with each doubled quote as one, and answers how many bytes that has. Where there is too little room,
/// nothing is written.
#[unsafe(no_mangle)]
pub extern "C" fn jadvolni_fold_quotes(text: &[u8], to: &mut [u8]) -> usize
    ensures size { result ≡ length (folded text.now) }
    ensures written { to.new ≡ put_if_room (folded text.now) to.old }
{
    fold_quotes(text, to)
}
