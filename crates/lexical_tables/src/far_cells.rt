//! A cell of a row that isn't read at once.

ghost use Rattle.std.specs.Prelude.{◌≡◌, ◌+◌, ◌-◌, ◌<◌, ◌≤◌, ◌^◌, ℕ, List, None, Option, false, length, map, true};
ghost use Rattle.lexical_tables.specs.ByColumn.{AreUsable, column_count};
ghost use Rattle.lexical_tables.specs.Cells.{Kind};
ghost use Rattle.lexical_tables.specs.Codes.{AreCodes};
ghost use Rattle.lexical_tables.specs.Ends.{AreEnds};
ghost use Rattle.lexical_tables.specs.RowSoFar.{IsMarked, IsOnRow, IsRowDone, IsRowPut, cells_behind};
ghost use Rattle.lexical_tables.specs.Rows.{behind_piece, first_row};
ghost use Rattle.lexical_tables.specs.Targets.{TargetView};

use crate::answers::{CellFault, TableError};
use crate::by_column::read_rest;
use crate::coded_cells::read_left_cell;
use crate::codes::CODED;
use crate::dialect::Dialect;
use crate::next_part::{Left, found_part};
use crate::row_end::{ReadOn, done, end_row, not_done};
use crate::targets::TableColumn;
use lexical_parse_integer::Options;

// Reads the next cell of a row, the first of `left`, wherever it ends. `column` columns have been
// read. If no look shows the cell's end, it ends near the text's end, and all that is left of the
// row is read. If all columns have been read, the cell is one too many.
#[inline(always)]
pub(crate) fn read_next_cell<'a, C: TableColumn>(
    start: usize,
    text: &'a [u8],
    left: Left<'a>,
    column: usize,
    index: usize,
    columns: usize,
    separator: u8,
    codes: &[u8; CODED],
    dialect: &Dialect<'_>,
    options: &Options,
    targets: &mut [C],
    wrong: &mut Option<TableError>,
) -> ReadOn<'a>
    requires fine { wrong.old ≡ None }
    requires some { 0 < length text.now }
    requires columns { columns ≡ column_count dialect.now.layout }
    requires few { column ≤ columns }
    requires here { IsOnRow dialect.now separator text.now left.text.now }
    requires marks { AreEnds dialect.now.has_quotes separator left.text.now left.marks }
    requires marked { IsMarked dialect.now separator }
    requires codes { AreCodes dialect.now codes.now (map C.target targets.old) }
    requires usable { AreUsable (index + 1) (map C.target targets.old) }
    requires fits { start + length text.now < 2 ^ 64 }
    ensures goes_on { result.is_done ≡ false → (kinds : List (Option Kind))
        (old : List (Option TargetView))
        → IsRowPut kinds dialect.now index (first_row dialect.now start text.now) old
        (map C.target targets.old) column (cells_behind dialect.now
        (first_row dialect.now start text.now) column
        (length text.now - length left.entry.text.now))
        → IsRowPut kinds dialect.now index (first_row dialect.now start text.now) old
        (map C.target targets.new) result.column (cells_behind dialect.now
        (first_row dialect.now start text.now) result.column
        (length text.now - length result.left.text.now)) }
    ensures left { result.is_done ≡ false
        → length result.left.text.now < length left.entry.text.now }
    ensures few { result.column ≤ columns }
    ensures here { result.is_done ≡ false
        → IsOnRow dialect.now separator text.now result.left.text.now }
    ensures codes { result.is_done ≡ false
        → AreCodes dialect.now codes.now (map C.target targets.new) }
    ensures usable { result.is_done ≡ false → (room : ℕ)
        → AreUsable room (map C.target targets.old) → AreUsable room (map C.target targets.new) }
    ensures fine { result.is_done ≡ false → wrong.new ≡ None }
    ensures done { result.is_done ≡ true → (kinds : List (Option Kind))
        (old : List (Option TargetView))
        → IsRowPut kinds dialect.now index (first_row dialect.now start text.now) old
        (map C.target targets.old) column (cells_behind dialect.now
        (first_row dialect.now start text.now) column
        (length text.now - length left.entry.text.now))
        → IsRowDone kinds dialect.now index (first_row dialect.now start text.now) old
        (map C.target targets.new) wrong.new }
    ensures behind { result.is_done ≡ true → wrong.new ≡ None → result.left.text.now
        ≡ behind_piece dialect.now.layout dialect.now.has_quotes text.now }
    ensures shorter { result.is_done ≡ true → wrong.new ≡ None
        → length result.left.text.now < length text.now }
    ensures marks { AreEnds dialect.now.has_quotes separator result.left.text.now
        result.left.marks }
{
    let passed = text.len() - left.text.len();
    if column == columns {
        *wrong = Some(TableError {
            row: index,
            column,
            fault: CellFault::TooManyCells(start + passed),
        });
        return done(left, column);
    }
    let Some(found) = found_part(text, left, separator, dialect) else {
        let text = read_rest(
            start, text, passed, column, index, dialect, options, targets, wrong,
        );
        return done(Left { text, marks: 0 }, column);
    };
    if !read_left_cell(
        targets,
        codes,
        column,
        index,
        start + passed,
        left.text,
        found.part.size,
        dialect,
        options,
        wrong,
    ) {
        return done(found.behind, column);
    }
    let count = column + 1;
    if !found.part.is_last {
        return not_done(found.behind, count);
    }
    end_row(
        start, text, left.text, found.part, column, index, columns, separator, dialect, wrong,
    );
    done(found.behind, count)
}
