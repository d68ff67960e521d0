// Tables of suffixes: which suffix names which kind of integers.
ghost use Rattle.std.specs.Prelude.{◌≡◌, map};
ghost use Rattle.lexical_literals.specs.TypedLiterals.{SuffixView, entry_of};

/// A kind of integers: one of the twelve types of Rust.
#[derive(Debug, Copy, Clone, PartialEq, Eq)]
pub enum IntegerKind {
    U8,
    U16,
    U32,
    U64,
    U128,
    Usize,
    I8,
    I16,
    I32,
    I64,
    I128,
    Isize,
}

/// An entry of a table of suffixes. [`Suffix`] is one. Another type may be one too, if it has a suffix and a kind.
pub trait SuffixEntry {
    // Its suffix and its kind.
    ghost suffix: { Self → SuffixView };

    /// The suffix, byte for byte, and empty for a literal without one.
    fn text(&self) -> &[u8]
        ensures { result.now ≡ (suffix self.now).text };

    /// The kind of integers that it names.
    fn kind(&self) -> IntegerKind
        ensures { result ≡ (suffix self.now).kind };
}

/// A suffix, and the kind of integers that it names.
///
/// It is matched byte for byte: where a language takes `u` and `U`, its table has both. The empty one names the kind of
/// a literal without a suffix.
#[derive(Debug, Copy, Clone, PartialEq, Eq)]
pub struct Suffix<'a> {
    /// The bytes of the suffix: ASCII letters, `0` to `9` and `_`, of which the first is no digit. Another text is no
    /// literal's suffix.
    pub text: &'a [u8],
    /// The kind of integers that it names.
    pub kind: IntegerKind,
}

impl SuffixEntry for Suffix<'_> {
    ghost suffix = { λ entry. record { text = entry.text.now; kind = entry.kind } };

    #[inline(always)]
    fn text(&self) -> &[u8] {
        self.text
    }

    #[inline(always)]
    fn kind(&self) -> IntegerKind {
        self.kind
    }
}

// The first entry of a table with a suffix: its number, counted from 0, and its kind.
#[inline(always)]
pub(crate) fn entry_of<S: SuffixEntry>(suffix: &[u8], table: &[S]) -> Option<(usize, IntegerKind)>
    ensures { result ≡ entry_of suffix.now (map S.suffix table.now) }
{
    let mut index = 0;
    while index < table.len() {
        let entry = &table[index];
        if entry.text() == suffix {
            return Some((index, entry.kind()));
        }
        index += 1;
    }
    None
}
