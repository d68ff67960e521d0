//! The fields of a text with what each stands for, one after the other.

ghost use Rattle.std.specs.Prelude.{◌≡◌, ◌+◌, ◌<◌, ◌≤◌, ◌^◌, List, Option, length};
ghost use Rattle.std.specs.Iterator.{YieldsFirstBy, item_count};
ghost use Rattle.lexical_util.specs.Validity.{fault};
ghost use Rattle.lexical_fields.specs.Fields.{fields_from, pieces, without_empty_last};
ghost use Rattle.lexical_fields.specs.ReadFields.{ReadField, read_fields, read_from, view_of_field, texts};

use crate::places::field_answer;
use crate::split::split_field;
use lexical_parse_integer::parse::ParseInteger;
use lexical_parse_integer::{Error, NumberFormat, Options, Result};
use std::marker::{Model, PhantomData};

/// A field of a text, with what it stands for. Places count the text's bytes from 0.
#[derive(Debug, Copy, Clone, PartialEq, Eq)]
pub struct Field<'a, T> {
    /// The place of its first byte; where it is empty, that of the separator after it.
    pub start: usize,
    /// Its bytes without a separator, borrowed from the text.
    pub text: &'a [u8],
    /// The number that all of it stands for, or the fault, whose place counts from the text's start.
    /// It is the format's own fault where that is invalid.
    pub answer: Result<T>,
}

/// The fields of a text between a separator, in order, each with what it stands for. It is an iterator,
/// and contracts see it as the list of the fields that are still to come.
///
/// It goes on after a fault, allocates nothing, and validates the format once. How long it takes is in no
/// contract.
///
/// With a comma `12,x,7` has the fields `12` at 0, with 12; `x` at 3, with `InvalidDigit(3)`; and `7`
/// at 5, with 7.
#[derive(Drop)]
pub struct Fields<'a, T: ParseInteger> {
    separator: u8,
    format: &'a NumberFormat,
    options: &'a Options,
    // The fault of the format.
    invalid: Option<Error>,
    // The text behind the last field and its separator, and the place at which it begins.
    rest: &'a [u8],
    place: usize,
    number: PhantomData<T>,
}

impl<'a, T: ParseInteger> Model for Fields<'a, T> {
    ghost Value = { List ReadField };

    ghost view = { λ f. read_from f.format.now T.TYPE f.separator f.place f.rest.now };

    ghost invariant = { λ f. (f.place + length f.rest.now < 2 ^ 64)
        × (f.invalid ≡ fault f.format.now) };
}

impl<'a, T: ParseInteger> Fields<'a, T> {
    /// The fields of a text between a separator, which may be any byte.
    ///
    /// Their texts are the pieces between the separators, without the last where that is empty
    /// (`pieces`); there are no more fields than the text has bytes (`count`).
    pub fn new(
        text: &'a [u8],
        separator: u8,
        format: &'a NumberFormat,
        options: &'a Options,
    ) -> Fields<'a, T>
        ensures fields { result ≡ read_fields format.now T.TYPE separator text.now }
        ensures pieces { texts (read_fields format.now T.TYPE separator text.now)
            ≡ without_empty_last (pieces separator text.now) }
        ensures count { length (read_fields format.now T.TYPE separator text.now)
            ≤ length text.now }
    {
        Fields {
            separator,
            format,
            options,
            invalid: format.error(),
            rest: text,
            place: 0,
            number: PhantomData,
        }
    }
}

impl<'a, T: ParseInteger> Iterator for Fields<'a, T> {
    type Item = Field<'a, T>;

    ghost next_gives = { YieldsFirstBy (view_of_field T.number) (λ left. left) };

    ghost remaining = { item_count (λ left. left) };

    /// The next field, and `None` where all were given, now and at each later call.
    fn next(&mut self) -> Option<Field<'a, T>> {
        if self.rest.is_empty() {
            return None;
        }
        let (text, behind) = split_field(self.rest, self.separator);
        let start = self.place;
        let answer = match self.invalid {
            Some(error) => Err(error),
            None => field_answer::<T>(start, text, self.format, self.options),
        };
        self.place = start + (self.rest.len() - behind.len());
        self.rest = behind;
        Some(Field {
            start,
            text,
            answer,
        })
    }
}
