// Each beginning of worked and of hostile texts, as each of the twelve types.
use super::compare::{KINDS, agrees};
use super::formats::{
    DIGITS_OPTIONAL, INTEGER_DIGITS, LEADING, NO_LEADING_ZEROS, PREFIX, PREFIX_CASE, SEPARATOR,
    SUFFIX, SUFFIX_CASE, format_of, setting,
};
use super::presets::TEXTS;
use super::reference::LONGEST;
use lexical_parse_integer::NumberFormat;
use lexical_parse_integer::format::{JSON, STANDARD};
use std::process::Abort;

// Numerals of every radix.
const NUMERALS: &str = "\
12345
100101
1101
211
122
101
52
45
41
37
34
31
2B
29
27
25
23
21
1I
1H
1G
1F
1E
1D
1C
1B
1A
19
18
17
16
15
14
13
12
11
-11
10011010010
100000000
86A";

// Texts with separators.
const SEPARATED: &str = "\
_
+_
_1_23
+_1_23
1__1_23
1_1
1_1_
_11_
_+1_23
+123_
+123__
1_1_23
1_1__23
1_1_23_
1_1_23.
_-1234
__1__234__
^-1234
_1234
X1234
3__1
31_
3_1
_31
_1_";

// Texts with prefixes and suffixes, and with zeros in front.
const AFFIXED: &str = "\
0x
-0x
-0x1
0x12
0X12
0x-12
00x1
012
-0x012
-0x012h
-0x012h 
h
-h
-1h
12
12h
12H
12 x
12hx
0h
00h
_h
0x_
+3h
+0x3h 
+0xh
+h
0
01
10
1.1.0
10.1
0.1
01.1
00.1";

// Each beginning of the text of each line, as long as the reference reads.
fn beginnings(rt: &impl Abort, format: &NumberFormat, texts: &str) {
    for text in texts.lines() {
        let text = text.as_bytes();
        for length in 0..=text.len().min(LONGEST) {
            for kind in KINDS {
                agrees(rt, kind, format, &text[..length]);
            }
        }
    }
}

fn with_fields(rt: &impl Abort, fields: u32, texts: &str) {
    beginnings(rt, &format_of(10, fields), texts);
}

#[test]
fn beginnings_of_rows(rt: HostRuntime) {
    beginnings(&rt, &STANDARD, TEXTS);
    beginnings(&rt, &JSON, TEXTS);
}

#[test]
fn beginnings_in_radixes(rt: HostRuntime) {
    for radix in 2..=36 {
        beginnings(&rt, &format_of(radix, 0), NUMERALS);
    }
}

// Every set of flags, with a separator and without one, where a digit is asked for and where none is.
#[test]
fn beginnings_with_separators(rt: HostRuntime) {
    for number in 0..16 {
        let flags = setting(number);
        with_fields(&rt, SEPARATOR | flags, SEPARATED);
        with_fields(&rt, SEPARATOR | DIGITS_OPTIONAL | flags, SEPARATED);
        with_fields(&rt, flags, SEPARATED);
    }
}

#[test]
fn beginnings_with_affixes(rt: HostRuntime) {
    with_fields(&rt, PREFIX, AFFIXED);
    with_fields(&rt, PREFIX | PREFIX_CASE, AFFIXED);
    with_fields(&rt, PREFIX | NO_LEADING_ZEROS, AFFIXED);
    with_fields(&rt, PREFIX | DIGITS_OPTIONAL, AFFIXED);
    with_fields(&rt, SUFFIX, AFFIXED);
    with_fields(&rt, SUFFIX | SUFFIX_CASE, AFFIXED);
    with_fields(&rt, SUFFIX | NO_LEADING_ZEROS, AFFIXED);
    with_fields(&rt, PREFIX | SUFFIX, AFFIXED);
    with_fields(&rt, SEPARATOR | LEADING | SUFFIX, AFFIXED);
    with_fields(&rt, SEPARATOR | LEADING | PREFIX, AFFIXED);
    with_fields(&rt, NO_LEADING_ZEROS, AFFIXED);
    with_fields(&rt, NO_LEADING_ZEROS | INTEGER_DIGITS, AFFIXED);
}
