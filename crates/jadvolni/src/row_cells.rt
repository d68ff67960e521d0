//! Where the cells of a row are, as C reads them.

ghost use Rattle.std.specs.Prelude.{◌≡◌};
ghost use Rattle.jadvolni.specs.RowCells.{cells_call, cells_effect};

use crate::table_columns::INVALID_TABLE;
use crate::tables::{TableFields, dialect_of};
use lexical_tables::{CellPlace, put_cells};

/// How many cells a row has: `jadvolni_cells_result` in C.
#[repr(C)]
#[derive(Copy, Clone)]
pub struct CellsOutcome {
    pub status: u32,
    pub count: usize,
}

/// Puts where the cells of a text's first row are, from a column on, as far as there is room.
#[unsafe(no_mangle)]
pub extern "C" fn jadvolni_row_cells(
    text: &[u8],
    table: &TableFields<'_>,
    first: usize,
    cells: &mut [CellPlace],
) -> CellsOutcome
    ensures { cells_effect result cells.new ≡ cells_call table.now first text.now cells.old }
{
    let Some(dialect) = dialect_of(table, table.widths.len()) else {
        return CellsOutcome {
            status: INVALID_TABLE,
            count: 0,
        };
    };
    CellsOutcome {
        status: 0,
        count: put_cells(text, &dialect, first, cells),
    }
}
