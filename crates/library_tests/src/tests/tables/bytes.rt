// Single bytes that decide: blanks, quotes, returns and line feeds, where a flag gives them a
// meaning or none.

use super::{fault_in, pairs, read_under, read_wide, table};
use crate::tests::answers;
use lexical_parse_integer::Error;
use lexical_tables::{CellFault, Dialect, Layout, after_lines, fold_quotes};

// Two columns between commas, with quotes.
fn quoted() -> Dialect<'static> {
    Dialect {
        has_quotes: true,
        ..pairs(false)
    }
}

#[test]
fn no_byte_but_space_and_tab_is_a_blank(rt: HostRuntime) {
    let dialect = Dialect {
        allows_blanks: true,
        ..pairs(false)
    };
    answers(
        &rt,
        read_under(b"\t 5 \t,x", &dialect),
        (table(1, 7), [5, 9, 9]),
    );
    let letter = |place| fault_in(0, 0, CellFault::NotNumber(Error::InvalidDigit(place)));
    let others: &[u8] = &[0, 8, 11, 12, 13, 14, 31, 160];
    for byte in others {
        answers(
            &rt,
            read_under(&[*byte, b'5', b',', b'x'], &dialect),
            (letter(0), [9; 3]),
        );
        answers(
            &rt,
            read_under(&[b'5', *byte, b',', b'x'], &dialect),
            (letter(1), [9; 3]),
        );
    }
}

// The second cell isn't read: of its quotes the one in front of the byte outside them is out of
// place.
#[test]
fn no_byte_stands_behind_quotes(rt: HostRuntime) {
    let blanks = Dialect {
        allows_blanks: true,
        ..quoted()
    };
    let closing = fault_in(0, 1, CellFault::MisplacedQuote(4));
    answers(
        &rt,
        read_under(b"1,\"a\" \n", &quoted()),
        (closing, [1, 9, 9]),
    );
    answers(
        &rt,
        read_under(b"1,\"a\"\t\n", &blanks),
        (closing, [1, 9, 9]),
    );
    answers(
        &rt,
        read_under(b"1,\"a\"!\n", &quoted()),
        (closing, [1, 9, 9]),
    );
}

#[test]
fn a_stray_quote_behind_a_blank_stays(rt: HostRuntime) {
    let mut to = *b"..........";
    answers(&rt, fold_quotes(b"5 \" nails", &mut to), 9);
    answers(&rt, to, *b"5 \" nails.");
}

// A line feed ends a row of a part, whatever quotes stand before it.
#[test]
fn quotes_without_a_meaning_hide_no_line_feed(rt: HostRuntime) {
    let commas = Layout::Separated {
        separator: b',',
        columns: 2,
    };
    answers(
        &rt,
        read_wide(b"1,\"\n2,x", false, commas),
        (table(1, 4), [1, 9, 9]),
    );
}

#[test]
fn each_line_of_a_header_is_read_alike(rt: HostRuntime) {
    let last_quote = after_lines(b"a,\"b\nc\"\n1,2\n", 1, &quoted());
    answers(&rt, last_quote, 8);
    let two = b"a\n\"b\nc\"\n1,2\n";
    answers(
        &rt,
        [
            after_lines(two, 2, &quoted()),
            after_lines(two, 2, &pairs(false)),
        ],
        [8, 5],
    );
}

// The first of two records ends with a return, which is a byte of its second cell.
#[test]
fn a_record_keeps_its_last_return(rt: HostRuntime) {
    let may = Dialect {
        layout: Layout::Records { widths: &[1, 2] },
        allows_returns: true,
        ..pairs(false)
    };
    answers(&rt, read_under(b"12\r345", &may), (table(2, 6), [1, 3, 9]));
    let has = Dialect {
        has_returns: true,
        ..may
    };
    answers(&rt, read_under(b"12\r345", &has), (table(2, 6), [1, 3, 9]));
}
