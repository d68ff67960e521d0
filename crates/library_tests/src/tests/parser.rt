// The calls of `lexical_parse_integer`, and callers that are proved from their contracts alone.

mod caller;
mod cursor;
mod fields;
mod laws;
mod options;
mod parsers;
mod pins;
mod readme;
mod turns;
mod words;
