// Line and column of a place in a text.
ghost use Rattle.std.specs.Prelude.{◌≡◌, ◌==◌};
ghost use Rattle.std.specs.List.{count_by};
ghost use Rattle.lexical_fields.specs.Lines.{column_of, line_feed, line_of};

use crate::parts::whole_fields;

/// A line and a column of a text, both counted from 0.
#[derive(Debug, Copy, Clone, PartialEq, Eq)]
pub struct LineColumn {
    /// How many line feeds stand before the place.
    pub line: usize,
    /// How many bytes stand between the last of them, or the text's start, and the place.
    pub column: usize,
}

// How many line feeds a text has.
fn count_line_feeds(text: &[u8]) -> usize
    ensures { result ≡ count_by (λ byte. byte == line_feed) text.now }
{
    text.iter().filter(|byte| **byte == b'\n').count()
}

/// Line and column of a place in a text, as an editor counts them, but from 0.
///
/// Of the place 7 in `12\n34\n5x` the line is 2 and the column 1. A line feed belongs to the line that it ends, and a
/// carriage return is a byte as any other. Columns count bytes, not letters. A place behind the text is taken for its
/// end.
pub fn line_column(text: &[u8], place: usize) -> LineColumn
    ensures line { result.line ≡ line_of text.now place }
    ensures column { result.column ≡ column_of text.now place }
{
    let front = &text[..place.min(text.len())];
    LineColumn {
        line: count_line_feeds(front),
        column: front.len() - whole_fields(front, b'\n'),
    }
}
