//! What can be wrong with a fixed-point number, or with its description.

use lexical_util::error::Error;

/// What is wrong with a description: the first rule that it breaks.
#[derive(Debug, Copy, Clone, PartialEq, Eq)]
pub enum FixedFormatError {
    /// The format of the integer part is invalid, by this fault of a format.
    Integer(Error),

    /// The radix of the integer part isn't 10.
    Radix,

    /// The format of the integer part has a prefix, a suffix, literal prefixes or octal zeros.
    Affix,

    /// The point is a decimal digit, `+`, `-`, or the separator of the integer part.
    Point,

    /// There are more than 38 places.
    Places,
}

/// What is wrong with a text, or with the description that it is read under.
#[derive(Debug, Copy, Clone, PartialEq, Eq)]
pub enum FixedError {
    /// The description is invalid. No text was looked at.
    Format(FixedFormatError),

    /// The text is no number of the type; the fault has its place, in bytes from 0.
    Text(Error),
}
