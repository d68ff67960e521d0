// Where the cells of a row are, as callers have them. proofs/worked/PlaceRows.antt of the crate has more rows.

use crate::tests::answers;
use lexical_tables::{CellPlace, Dialect, Layout, put_cells};

// A dialect with quotes.
fn with_layout(layout: Layout<'_>) -> Dialect<'_> {
    Dialect {
        layout,
        has_returns: false,
        allows_returns: true,
        has_quotes: true,
        allows_blanks: false,
        skips_empty_rows: false,
        missing: b"",
    }
}

const UNTOUCHED: CellPlace = CellPlace { start: 9, size: 9 };

#[test]
fn the_cells_of_a_header_have_places(rt: HostRuntime) {
    let commas = with_layout(Layout::Separated {
        separator: b',',
        columns: 0,
    });
    let mut cells = [UNTOUCHED; 4];
    let text = b"ab,,\"c,d\"\r\n1,2,3\r\n";
    answers(&rt, put_cells(text, &commas, 0, &mut cells), 3);
    answers(&rt, cells[0], CellPlace { start: 0, size: 2 });
    answers(&rt, cells[1], CellPlace { start: 3, size: 0 });
    answers(&rt, cells[2], CellPlace { start: 4, size: 5 });
    answers(&rt, cells[3], UNTOUCHED);
}

#[test]
fn the_cell_of_a_fault_has_a_place(rt: HostRuntime) {
    let wide = with_layout(Layout::Widths { widths: &[3, 2] });
    let mut cells = [UNTOUCHED];
    answers(&rt, put_cells(b"007abxyz\n", &wide, 2, &mut cells), 3);
    answers(&rt, cells[0], CellPlace { start: 5, size: 3 });
    answers(&rt, put_cells(b"007abxyz\n", &wide, 1, &mut cells), 3);
    answers(&rt, cells[0], CellPlace { start: 3, size: 2 });
}

#[test]
fn single_bytes_have_their_cell(rt: HostRuntime) {
    let commas = with_layout(Layout::Separated {
        separator: b',',
        columns: 0,
    });
    let mut cells = [UNTOUCHED; 2];
    answers(&rt, put_cells(b"7", &commas, 0, &mut cells), 1);
    answers(&rt, cells, [CellPlace { start: 0, size: 1 }, UNTOUCHED]);
    let second = CellPlace { start: 2, size: 2 };
    answers(&rt, put_cells(b"a,b\r", &commas, 1, &mut cells), 2);
    answers(&rt, cells, [second, UNTOUCHED]);
    answers(&rt, put_cells(b"c,d\t\n", &commas, 1, &mut cells), 2);
    answers(&rt, cells, [second, UNTOUCHED]);
    let plain = Dialect {
        has_quotes: false,
        ..commas
    };
    answers(&rt, put_cells(b"\"a\nb\"", &plain, 0, &mut cells), 1);
    answers(&rt, cells, [CellPlace { start: 0, size: 2 }, UNTOUCHED]);
}
