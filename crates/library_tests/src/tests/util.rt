// The calls of `lexical_util` on values that are known from outside, which no clause says.

mod caller;
mod derives;
mod digits;
mod faults;
mod formats;
mod integers;
mod options;
