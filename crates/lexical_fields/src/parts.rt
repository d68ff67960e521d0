//! Columns of a text that comes in parts, as a file that is read in blocks.

ghost use Rattle.std.specs.Prelude.{◌≡◌, ◌≤◌, length, take, drop, map, IfOk};
ghost use Rattle.lexical_fields.specs.Columns.{GoesOn, answer_of, numbers_of};
ghost use Rattle.lexical_fields.specs.Parts.{ReadsInParts, readable, whole_fields};

use crate::columns::{Column, ColumnError, read_column};
use lexical_parse_integer::parse::ParseInteger;
use lexical_parse_integer::{NumberFormat, Options};

/// How many bytes of a part are whole fields: those up to its last separator, that one counted.
///
/// It is 0 where the part has no separator. What stands behind is the beginning of a field that the next part continues.
pub fn whole_fields(text: &[u8], separator: u8) -> usize
    ensures value { result ≡ whole_fields separator text.now }
    ensures within { result ≤ length text.now }
{
    let mut size = text.len();
    while size > 0 && text[size - 1] != separator {
        size -= 1;
    }
    size
}

/// Reads the numbers in the whole fields of a part of a text, as [`read_column`](crate::read_column) does in a whole
/// text.
///
/// A part may end within a field. That field isn't read, unless the part is the last one: put the bytes from `stop` on
/// in front of the next part. Where the slice is full, `stop` is the start of the next field, as in a whole text.
/// Places count from the part's start. Read in this way, all parts give the numbers and the first fault of the whole
/// text ([`reads_in_parts`]).
///
/// With a comma, `12,7` gives one number and stops at 3 where more follows, and two numbers where it is the last part.
pub fn read_column_part<T: ParseInteger>(
    text: &[u8],
    is_last: bool,
    separator: u8,
    format: &NumberFormat,
    options: &Options,
    values: &mut [T],
) -> Result<Column, ColumnError>
    ensures answer { result ≡ answer_of format.now T.TYPE
        (length values.old) separator (readable is_last separator text.now) }
    ensures numbers { let numbers = numbers_of format.now T.TYPE
        (length values.old) separator (readable is_last separator text.now) in
        map T.number (take (length numbers) values.new) ≡ numbers }
    ensures rest { let numbers = numbers_of format.now T.TYPE
        (length values.old) separator (readable is_last separator text.now) in
        drop (length numbers) values.new ≡ drop (length numbers) values.old }
    ensures size { length values.new ≡ length values.old }
    ensures goes_on { IfOk result (GoesOn separator (readable is_last separator text.now)
        (length values.old) (numbers_of format.now T.TYPE
        (length values.old) separator (readable is_last separator text.now))) }
{
    if is_last {
        return read_column::<T>(text, separator, format, options, values);
    }
    let whole = &text[..whole_fields(text, separator)];
    read_column::<T>(whole, separator, format, options, values)
}

/// The law of parts: wherever a text is cut, its parts give the answers of the whole text, if what is left of each is
/// put in front of the next. Places are counted over all parts.
///
/// The call does nothing. A proof that needs the law makes it, and has its clause.
pub fn reads_in_parts()
    ensures { ReadsInParts }
{}
