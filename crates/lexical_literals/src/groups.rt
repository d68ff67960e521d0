// Numbers with separators between their digits, or behind `0x`, `0o` or `0b`. They are read in one pass, or in two
// where two digits have several separators between them.
//
// A number without a digit behind its prefix, or with a run of separators at its end, goes to another reader.
ghost use Rattle.std.specs.Prelude.{◌≡◌, ◌≢◌, ◌+◌, ◌-◌, ◌*◌, ◌<◌, ◌≤◌, ℕ, Bool, IfSome, IsNone, IsTrue, None, Ok, Some, false, is_some, length, nat_lt, pos, slice_get, slice_index, true};
ghost use Rattle.lexical_util.specs.Ascii.{digit_zero};
ghost use Rattle.lexical_util.specs.Digit.{digit};
ghost use Rattle.lexical_util.specs.Number.{integer_type};
ghost use Rattle.lexical_util.specs.Validity.{fault};
ghost use Rattle.lexical_parse_integer.specs.Affixes.{literal_radix, named_radix, prefix_radix};
ghost use Rattle.lexical_parse_integer.specs.Grammar.{partial};
ghost use Rattle.lexical_parse_integer.specs.Runs.{separator_at};
ghost use Rattle.lexical_literals.specs.Decimal.{ReadsDecimals, zero_leads};
ghost use Rattle.lexical_literals.specs.Groups.{AreDigitsBetween, AreSeparatorsBetween, StartsAt, WritesGroups, WritesOn, WritesRow, has_digit};

use crate::decimal::front_of_decimal;
use crate::punctuated_number;
use lexical_parse_integer::NumberFormat;
use lexical_util::digit::{char_is_digit, char_to_digit};

// Whether a digit of the radix stands at a place.
#[inline(always)]
#[tactic(auto, unfolding(lexical_parse_integer::specs::Runs::digit_at))]
pub(crate) fn has_digit(text: &[u8], radix: u32, place: usize) -> bool
    requires least { 2 ≤ radix }
    requires greatest { radix ≤ 16 }
    ensures { result ≡ has_digit radix text.now place }
{
    place < text.len() && char_is_digit(text[place], radix)
}

// The format's separator, where it stands at a place.
#[inline(always)]
pub(crate) fn separator_at(text: &[u8], place: usize, format: &NumberFormat) -> Option<u8>
    ensures here { IfSome result (λ separator. slice_get text.now place ≡ Some separator) }
    ensures own { IfSome result (λ separator. format.now.digit_separator ≡ Some separator) }
    ensures found { is_some result ≡ separator_at format.now text.now place }
{
    match format.digit_separator() {
        Some(separator) => {
            if place >= text.len() {
                return None;
            }
            if text[place] != separator {
                return None;
            }
            Some(separator)
        }
        None => None,
    }
}

// The number with one more digit, where it fits in 64 bits. Most numbers are far from the greatest.
#[inline(always)]
fn with_digit(number: u64, radix: u32, digit: u32) -> Option<u64>
    requires least { 2 ≤ radix }
    requires below { digit < radix }
    ensures { IfSome result (λ next. next ≡ number * radix + digit) }
{
    if number < u64::MAX / radix as u64 {
        return Some(number * radix as u64 + digit as u64);
    }
    number.checked_mul(radix as u64)?.checked_add(digit as u64)
}

// The number `before` with the digits in a row from a place on appended, and where the row ends, or where the number
// has no room for the next digit.
#[inline(always)]
fn read_row(text: &[u8], radix: u32, before: u64, from: usize) -> (u64, usize)
    requires least { 2 ≤ radix }
    requires greatest { radix ≤ 16 }
    requires within { from ≤ length text.now }
    ensures forward { from ≤ result.1 }
    ensures within { result.1 ≤ length text.now }
    ensures digits { AreDigitsBetween radix text.now from result.1 }
    ensures number { WritesOn radix text.now before from result.0 result.1 }
{
    let mut number = before;
    let mut place = from;
    while place < text.len() {
        let Some(digit) = char_to_digit(text[place], radix) else {
            return (number, place);
        };
        let Some(next) = with_digit(number, radix, digit) else {
            return (number, place);
        };
        number = next;
        place += 1;
    }
    (number, place)
}

// Whether the separator stands at a place, with a digit behind it.
#[inline(always)]
fn parts_digits(text: &[u8], separator: u8, radix: u32, place: usize) -> bool
    requires least { 2 ≤ radix }
    requires greatest { radix ≤ 16 }
    ensures here { IsTrue result → slice_get text.now place ≡ Some separator }
    ensures after { IsTrue result → has_digit radix text.now (place + 1) ≡ true }
    ensures none { result ≡ false → slice_get text.now place ≡ Some separator
        → has_digit radix text.now (place + 1) ≡ false }
{
    place < text.len() && text[place] == separator && has_digit(text, radix, place + 1)
}

// The number of the digits from a start on, with at most one separator between two of them, and where they end. The
// first row of them has been read.
#[inline(always)]
fn read_groups(
    text: &[u8],
    separator: u8,
    radix: u32,
    start: usize,
    first: u64,
    behind: usize,
) -> (u64, usize)
    requires least { 2 ≤ radix }
    requires greatest { radix ≤ 16 }
    requires other { digit radix separator ≡ None }
    requires row { WritesRow radix text.now start first behind }
    ensures groups { WritesGroups false separator radix text.now start result.0 result.1 }
    ensures last { slice_get text.now result.1 ≡ Some separator
        → has_digit radix text.now (result.1 + 1) ≡ false }
{
    let (mut number, mut place) = (first, behind);
    while parts_digits(text, separator, radix, place) {
        (number, place) = read_row(text, radix, number, place + 1);
    }
    (number, place)
}

// The place behind the separators in a row from a place on.
#[inline(always)]
fn behind_separators(text: &[u8], separator: u8, from: usize) -> usize
    requires { from ≤ length text.now }
    ensures forward { from ≤ result }
    ensures within { result ≤ length text.now }
    ensures separators { AreSeparatorsBetween separator text.now from result }
    ensures ends { slice_get text.now result ≢ Some separator }
{
    let mut place = from;
    while place < text.len() && text[place] == separator {
        place += 1;
    }
    place
}

// The place of the digit behind the run of separators at a place, or that place itself, where no digit stands behind a run.
#[inline(always)]
fn behind_run(text: &[u8], separator: u8, radix: u32, place: usize) -> usize
    requires least { 2 ≤ radix }
    requires greatest { radix ≤ 16 }
    requires other { digit radix separator ≡ None }
    requires within { place ≤ length text.now }
    ensures forward { place ≤ result }
    ensures separators { AreSeparatorsBetween separator text.now place result }
    ensures digit { place < result → has_digit radix text.now result ≡ true }
    ensures none { place ≡ result → slice_get text.now place ≡ Some separator
        → has_digit radix text.now (place + 1) ≡ false }
{
    let stop = behind_separators(text, separator, place);
    if has_digit(text, radix, stop) {
        stop
    } else {
        place
    }
}

// The number of the digits from a start on, with at most one run of separators between two of them, and where they end.
// The first row of them has been read.
#[inline(always)]
fn read_runs(
    text: &[u8],
    separator: u8,
    radix: u32,
    start: usize,
    first: u64,
    behind: usize,
) -> (u64, usize)
    requires least { 2 ≤ radix }
    requires greatest { radix ≤ 16 }
    requires other { digit radix separator ≡ None }
    requires row { WritesRow radix text.now start first behind }
    ensures groups { WritesGroups true separator radix text.now start result.0 result.1 }
    ensures last { slice_get text.now result.1 ≡ Some separator
        → has_digit radix text.now (result.1 + 1) ≡ false }
{
    let mut number = first;
    let mut place = behind;
    loop {
        let next = behind_run(text, separator, radix, place);
        if next == place {
            return (number, place);
        }
        (number, place) = read_row(text, radix, number, next);
    }
}

// Whether a separator stands at a place, and another behind it.
#[inline(always)]
fn has_run(text: &[u8], separator: u8, place: usize) -> bool
    ensures { result ≡ false → slice_get text.now place ≡ Some separator
        → slice_get text.now (place + 1) ≢ Some separator }
{
    if place >= text.len() || text[place] != separator {
        return false;
    }
    place + 1 < text.len() && text[place + 1] == separator
}

// The number of groups, and where they end, a trailing separator included where the format allows one; or 0 bytes where
// the number doesn't fit in 64 bits.
#[inline(always)]
fn number_before(
    text: &[u8],
    format: &NumberFormat,
    separator: u8,
    radix: u32,
    start: usize,
    number: u64,
    stop: usize,
) -> (u64, usize)
    requires least { 2 ≤ radix }
    requires greatest { radix ≤ 16 }
    requires starts { StartsAt format.now (nat_lt 0 start) radix text.now start }
    requires own { format.now.digit_separator ≡ Some separator }
    requires internal { format.now.integer_internal_digit_separator ≡ true }
    requires groups { WritesGroups format.now.integer_consecutive_digit_separator separator radix
        text.now start number stop }
    requires last { slice_get text.now stop ≡ Some separator
        → has_digit radix text.now (stop + 1) ≡ false }
    requires alone { slice_get text.now stop ≡ Some separator
        → slice_get text.now (stop + 1) ≢ Some separator }
    ensures { 0 < result.1
        → partial format.now (integer_type 128 false) text.now ≡ Ok (pos result.0, result.1) }
{
    if stop >= text.len() {
        return (number, stop);
    }
    if text[stop] != separator {
        if has_digit(text, radix, stop) {
            return (0, 0);
        }
        return (number, stop);
    }
    if format.integer_trailing_digit_separator() {
        return (number, stop + 1);
    }
    (number, stop)
}

// The number of the digits from a start on, read from there again, and where they end, with runs of separators between
// them where the format allows these. Out of line: few numbers have a run.
#[inline(never)]
fn number_of_runs(text: &[u8], format: &NumberFormat, radix: u32, start: usize) -> (u64, usize)
    requires least { 2 ≤ radix }
    requires greatest { radix ≤ 16 }
    requires valid { IsNone (fault format.now) }
    requires starts { StartsAt format.now (nat_lt 0 start) radix text.now start }
    requires internal { format.now.integer_internal_digit_separator ≡ true }
    requires first { has_digit radix text.now start ≡ true }
    ensures { 0 < result.1
        → partial format.now (integer_type 128 false) text.now ≡ Ok (pos result.0, result.1) }
{
    let Some(separator) = format.digit_separator() else {
        return (0, 0);
    };
    if !format.integer_consecutive_digit_separator() {
        return punctuated_number(text, format);
    }
    let (first, behind) = read_row(text, radix, 0, start);
    if has_digit(text, radix, behind) {
        return (0, 0);
    }
    let (number, stop) = read_runs(text, separator, radix, start, first, behind);
    if has_run(text, separator, stop) {
        return punctuated_number(text, format);
    }
    number_before(text, format, separator, radix, start, number, stop)
}

// The number of groups whose first row has been read, and where they end, a trailing separator included where the
// format allows one; or 0 bytes where the number doesn't fit in 64 bits. A run of separators goes to another reader.
#[inline(always)]
fn number_of_groups(
    text: &[u8],
    format: &NumberFormat,
    separator: u8,
    radix: u32,
    start: usize,
    first: u64,
    behind: usize,
) -> (u64, usize)
    requires least { 2 ≤ radix }
    requires greatest { radix ≤ 16 }
    requires valid { IsNone (fault format.now) }
    requires starts { StartsAt format.now (nat_lt 0 start) radix text.now start }
    requires own { format.now.digit_separator ≡ Some separator }
    requires row { WritesRow radix text.now start first behind }
    ensures { 0 < result.1
        → partial format.now (integer_type 128 false) text.now ≡ Ok (pos result.0, result.1) }
{
    if !format.integer_internal_digit_separator() {
        return punctuated_number(text, format);
    }
    let (number, stop) = read_groups(text, separator, radix, start, first, behind);
    if has_run(text, separator, stop) {
        return number_of_runs(text, format, radix, start);
    }
    number_before(text, format, separator, radix, start, number, stop)
}

// The number of the decimal digits in front, if a separator follows their first row. Out of line: groups are rare.
#[inline(never)]
pub(crate) fn decimal_groups(
    text: &[u8],
    format: &NumberFormat,
    separator: u8,
    first: u64,
    behind: usize,
) -> (u64, usize)
    requires valid { IsNone (fault format.now) }
    requires decimal { ReadsDecimals format.now }
    requires bare { prefix_radix format.now text.now 0 ≡ None }
    requires zeros { zero_leads format.now text.now ≡ false }
    requires own { format.now.digit_separator ≡ Some separator }
    requires row { WritesRow 10 text.now 0 first behind }
    requires here { slice_get text.now behind ≡ Some separator }
    ensures { 0 < result.1
        → partial format.now (integer_type 128 false) text.now ≡ Ok (pos result.0, result.1) }
{
    number_of_groups(text, format, separator, 10, 0, first, behind)
}

// The number behind a prefix that chooses the radix, and where it ends; or 0 bytes where it doesn't fit in 64 bits, or
// has no digit and no separator under a format with a separator: most such formats have a fault there.
#[inline(always)]
fn number_behind_prefix(text: &[u8], format: &NumberFormat, radix: u32) -> (u64, usize)
    requires least { 2 ≤ radix }
    requires greatest { radix ≤ 16 }
    requires valid { IsNone (fault format.now) }
    requires decimal { ReadsDecimals format.now }
    requires zero { slice_index text.now 0 ≡ digit_zero }
    requires prefix { named_radix format.now (slice_get text.now 1) ≡ Some radix }
    ensures { 0 < result.1
        → partial format.now (integer_type 128 false) text.now ≡ Ok (pos result.0, result.1) }
{
    if !has_digit(text, radix, 2) {
        if format.digit_separator().is_some() && separator_at(text, 2, format).is_none() {
            return (0, 0);
        }
        return punctuated_number(text, format);
    }
    let (number, stop) = read_row(text, radix, 0, 2);
    if has_digit(text, radix, stop) {
        return (0, 0);
    }
    match separator_at(text, stop, format) {
        Some(separator) => number_of_groups(text, format, separator, radix, 2, number, stop),
        None => (number, stop),
    }
}

// The small letter of the prefix that a byte stands for, where case matters if `exact`.
#[inline(always)]
#[tactic(auto, using(crate::proofs::GroupedFronts::same_letter, crate::proofs::GroupedFronts::same_byte, crate::proofs::GroupedFronts::same_small))]
fn letter_of_prefix(byte: u8, exact: bool) -> u8
    ensures { literal_radix exact (Some byte) ≡ literal_radix true (Some result) }
{
    if !exact && byte >= b'A' && byte <= b'Z' {
        byte + 32
    } else {
        byte
    }
}

// The number in front of a text that begins with a zero and a letter. Out of line: most numbers have no prefix.
#[inline(never)]
pub(crate) fn front_behind_zero(text: &[u8], format: &NumberFormat) -> (u64, usize)
    requires valid { IsNone (fault format.now) }
    requires decimal { ReadsDecimals format.now }
    requires zero { slice_index text.now 0 ≡ digit_zero }
    requires more { 1 < length text.now }
    requires zeros { zero_leads format.now text.now ≡ false }
    ensures { 0 < result.1
        → partial format.now (integer_type 128 false) text.now ≡ Ok (pos result.0, result.1) }
{
    if !format.literal_prefixes() {
        return front_of_decimal(text, format);
    }
    let letter = letter_of_prefix(text[1], format.case_sensitive_base_prefix());
    if letter == b'x' {
        return number_behind_prefix(text, format, 16);
    }
    if letter == b'o' {
        return number_behind_prefix(text, format, 8);
    }
    if letter == b'b' {
        return number_behind_prefix(text, format, 2);
    }
    front_of_decimal(text, format)
}
