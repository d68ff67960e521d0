//! Which call a case is.

use crate::case::{Case, Lacks};
use crate::cells::{PutCell, ReadCell};
use crate::columns::{EachField, ReadColumn};
use crate::number::Number;
use crate::seen::Seen;
use crate::single::{Complete, Front, FrontUnder, NumberInFront, Whole, WholeUnder};
use crate::sources::{EachLine, EachToken, EachTokenUnder, LiteralInFront};
use crate::tables::{NoneOfThree, OneColumn, OwnColumn, Place, ThreeColumns, TwoOfThree};
use crate::turns::{MANY, Nothing, counted};
use crate::valid::ValidFormat;
use answer_lines::TypeName;
use lexical_parse_integer::parse::ParseInteger;
use lexical_parse_integer::{FromLexicalWithOptions, Options};
use std::alloc::{AllocError, Global};

// Copies of a text, one for each time that it is read.
fn copies(alloc: Global, text: &[u8]) -> Result<Vec<u8>, AllocError> {
    let mut copies = Vec::new(alloc);
    for _ in 0..MANY {
        for i in 0..text.len() {
            copies.push(text[i])?;
        }
    }
    Ok(copies)
}

// What a call on one number returns.
fn of_one<T: FromLexicalWithOptions<Options = Options> + ParseInteger + Number + Drop>(
    case: &Case<'_>,
    texts: &[u8],
) -> Option<Seen> {
    let (format, size) = (case.format, case.text.len());
    match case.call {
        b"from_lexical" => counted::<T, Whole>(&mut Whole, texts, size),
        b"from_lexical_partial" => counted::<T, Front>(&mut Front, texts, size),
        b"from_lexical_with_options" => {
            counted::<T, WholeUnder>(&mut WholeUnder { format }, texts, size)
        }
        b"from_lexical_partial_with_options" => {
            counted::<T, FrontUnder>(&mut FrontUnder { format }, texts, size)
        }
        b"number_in_front" => {
            counted::<T, NumberInFront>(&mut NumberInFront { format }, texts, size)
        }
        b"parse_complete" => {
            let format = ValidFormat::new(format)?;
            counted::<T, Complete>(&mut Complete { format }, texts, size)
        }
        b"Fields" => counted::<T, EachField>(
            &mut EachField {
                format,
                how: case.how,
            },
            texts,
            size,
        ),
        _ => None,
    }
}

// What a call returns that puts numbers of a type into a slice.
fn of_column<T: ParseInteger + Number + Drop>(
    alloc: Global,
    case: &Case<'_>,
    texts: &[u8],
) -> Result<Option<Seen>, AllocError> {
    let (format, how, size) = (case.format, case.how, case.text.len());
    let values = vec![in alloc; T::ZERO; how.rows]?;
    if case.call == b"put_cell".as_slice() {
        let Some(format) = ValidFormat::new(format) else {
            return Ok(None);
        };
        let mut call = PutCell {
            format,
            how,
            values,
        };
        return Ok(counted::<T, PutCell<T>>(&mut call, texts, size));
    }
    let mut call = ReadColumn {
        format,
        how,
        values,
    };
    Ok(counted::<T, ReadColumn<T>>(&mut call, texts, size))
}

// What a call on a table returns.
fn of_table(alloc: Global, case: &Case<'_>, texts: &[u8]) -> Result<Option<Seen>, AllocError> {
    let how = case.how;
    let place = Place {
        alloc,
        format: case.format,
        how,
        first: vec![in alloc; 0; how.rows]?,
        second: vec![in alloc; 0; how.rows]?,
        third: vec![in alloc; 0; how.rows]?,
        present: vec![in alloc; 0; how.rows]?,
    };
    let size = case.text.len();
    if case.call == b"own_column".as_slice() {
        return Ok(counted::<i64, OwnColumn>(&mut OwnColumn { place }, texts, size));
    }
    if how.lacks == Lacks::All {
        return Ok(counted::<i64, NoneOfThree>(&mut NoneOfThree { alloc, how }, texts, size));
    }
    if how.lacks == Lacks::Some {
        return Ok(counted::<i64, TwoOfThree>(&mut TwoOfThree { place }, texts, size));
    }
    if how.columns == 1 {
        return Ok(counted::<i64, OneColumn>(&mut OneColumn { place }, texts, size));
    }
    Ok(counted::<i64, ThreeColumns>(&mut ThreeColumns { place }, texts, size))
}

// What `TableColumn::read` returns.
fn of_cell(alloc: Global, case: &Case<'_>, texts: &[u8]) -> Result<Option<Seen>, AllocError> {
    let Some(format) = ValidFormat::new(case.format) else {
        return Ok(None);
    };
    let mut call = ReadCell {
        format,
        how: case.how,
        values: vec![in alloc; 0; case.how.rows]?,
    };
    Ok(counted::<i64, ReadCell>(&mut call, texts, case.text.len()))
}

// What a call on a source returns.
fn of_source(case: &Case<'_>, texts: &[u8]) -> Option<Seen> {
    let (format, size) = (case.format, case.text.len());
    match case.call {
        b"nothing" => counted::<u64, Nothing>(&mut Nothing, texts, size),
        b"Tokens::new" => counted::<u128, EachToken>(&mut EachToken, texts, size),
        b"Tokens::with_format" => {
            counted::<u128, EachTokenUnder>(&mut EachTokenUnder { format }, texts, size)
        }
        b"literal_in_front" => {
            counted::<u128, LiteralInFront>(&mut LiteralInFront { format }, texts, size)
        }
        b"lines" => counted::<u64, EachLine>(&mut EachLine, texts, size),
        _ => None,
    }
}

// What a case whose numbers are of a type returns.
fn of_type<T: FromLexicalWithOptions<Options = Options> + ParseInteger + Number + Drop>(
    alloc: Global,
    case: &Case<'_>,
    texts: &[u8],
) -> Result<Option<Seen>, AllocError> {
    match case.call {
        b"read_column" | b"put_cell" => of_column::<T>(alloc, case, texts),
        b"read_columns" | b"own_column" => of_table(alloc, case, texts),
        b"read" => of_cell(alloc, case, texts),
        _ => Ok(of_one::<T>(case, texts)),
    }
}

/// What a case returns. `None` if there is no such call, or the call needs a valid format and has none. A source's
/// cases have the type `-`.
pub fn answered(alloc: Global, case: &Case<'_>) -> Result<Option<Seen>, AllocError> {
    let copies = copies(alloc, case.text)?;
    let texts = copies.as_slice();
    let Some(name) = TypeName::of_name(case.type_name) else {
        return Ok(of_source(case, texts));
    };
    match name {
        TypeName::U8 => of_type::<u8>(alloc, case, texts),
        TypeName::U16 => of_type::<u16>(alloc, case, texts),
        TypeName::U32 => of_type::<u32>(alloc, case, texts),
        TypeName::U64 => of_type::<u64>(alloc, case, texts),
        TypeName::U128 => of_type::<u128>(alloc, case, texts),
        TypeName::Usize => of_type::<usize>(alloc, case, texts),
        TypeName::I8 => of_type::<i8>(alloc, case, texts),
        TypeName::I16 => of_type::<i16>(alloc, case, texts),
        TypeName::I32 => of_type::<i32>(alloc, case, texts),
        TypeName::I64 => of_type::<i64>(alloc, case, texts),
        TypeName::I128 => of_type::<i128>(alloc, case, texts),
        TypeName::Isize => of_type::<isize>(alloc, case, texts),
    }
}
