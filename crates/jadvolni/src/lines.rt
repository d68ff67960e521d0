//! Line and column of a place, as C asks for them.

ghost use Rattle.std.specs.Prelude.{◌≡◌};
ghost use Rattle.lexical_fields.specs.Lines.{column_of, line_of};

use lexical_fields::line_column;

/// A line and a column, both counted from 0: `jadvolni_position` in C.
#[repr(C)]
#[derive(Copy, Clone)]
pub struct LineAndColumn {
    pub line: usize,
    pub column: usize,
}

/// Line and column of a place in a text: line feeds before it, and bytes behind the last of them.
#[unsafe(no_mangle)]
pub extern "C" fn jadvolni_line_column(text: &[u8], place: usize) -> LineAndColumn
    ensures line { result.line ≡ line_of text.now place }
    ensures column { result.column ≡ column_of text.now place }
{
    let found = line_column(text, place);
    LineAndColumn {
        line: found.line,
        column: found.column,
    }
}
