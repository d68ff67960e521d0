// Where the next digit stands. These functions take plain values, so that the compiler can keep a cursor in
// registers.
ghost use Rattle.std.specs.Prelude.{◌≡◌, ◌-◌, ◌≤◌, ◌<◌, IfSome, IsNone, None, false, is_some, length, true};
ghost use Rattle.lexical_util.specs.Digit.{IsRadix};
ghost use Rattle.lexical_parse_integer.specs.Runs.{admits_leading, digit_at, end_of, flag_for, run_passes, run_stop, separator_at};
ghost use Rattle.lexical_parse_integer.specs.Seeking.{Finds, IsAtRunStart, IsSeparatorNoDigit, starts_behind_prefix};

use lexical_util::digit::char_to_digit;
use lexical_util::format::NumberFormat;

// What stands ahead in a numeral: its next digit, with its place and value, or its end.
#[derive(Clone, Copy)]
pub(crate) enum Found {
    Digit(usize, u32),
    End(usize),
}

#[inline(always)]
#[tactic(auto, unfolding(crate::specs::Runs::digit_at))]
pub(crate) fn digit_at(bytes: &[u8], radix: u32, place: usize) -> Option<u32>
    requires { IsRadix radix }
    ensures { result ≡ digit_at radix bytes.now place }
{
    if place < bytes.len() {
        char_to_digit(bytes[place], radix)
    } else {
        None
    }
}

#[inline(always)]
#[tactic(auto, unfolding(crate::specs::Runs::separator_at, crate::specs::Runs::are_same))]
fn separator_at(bytes: &[u8], format: &NumberFormat, place: usize) -> bool
    ensures { result ≡ separator_at format.now bytes.now place }
{
    match format.digit_separator() {
        Some(separator) => place < bytes.len() && bytes[place] == separator,
        None => false,
    }
}

// The place behind the separators that stand from `place` on.
#[inline(always)]
fn run_stop(bytes: &[u8], format: &NumberFormat, place: usize) -> usize
    requires { place ≤ length bytes.now }
    ensures { result ≡ run_stop format.now bytes.now place }
{
    let mut stop = place;
    while stop < bytes.len() && separator_at(bytes, format, stop) {
        stop += 1;
    }
    stop
}

// Whether runs may stand before the first digit. Digits that start at 2 or later start behind a prefix, since a sign has one
// byte at most.
#[inline(always)]
fn admits_leading(format: &NumberFormat, start: usize) -> bool
    ensures { result ≡ admits_leading format.now (starts_behind_prefix start) }
{
    format.integer_leading_digit_separator()
        || (format.integer_prefix_digit_separator() && start >= 2)
}

#[inline(always)]
#[tactic(auto, unfolding(crate::specs::Runs::flag_for))]
fn flag_for(format: &NumberFormat, start: usize, before: bool, after: bool) -> bool
    ensures { result ≡ flag_for format.now (starts_behind_prefix start) before after }
{
    match (before, after) {
        (true, true) => format.integer_internal_digit_separator(),
        (false, true) => admits_leading(format, start),
        (true, false) => format.integer_trailing_digit_separator(),
        (false, false) => {
            admits_leading(format, start) || format.integer_trailing_digit_separator()
        }
    }
}

// Whether the run from `from`, which is its first byte, to before `to` passes. It needn't look for a digit before the
// run: one stands there, unless the numeral begins with the run.
#[inline(always)]
#[tactic(auto, unfolding(crate::specs::Runs::run_passes))]
fn run_passes(
    bytes: &[u8],
    format: &NumberFormat,
    radix: u32,
    start: usize,
    from: usize,
    to: usize,
) -> bool
    requires order { from < to }
    requires digit { start < from → is_some (digit_at radix bytes.now (from - 1)) ≡ true }
    requires radix { IsRadix radix }
    ensures { result
        ≡ run_passes format.now (starts_behind_prefix start) radix bytes.now start from to }
{
    let before = start < from;
    let after = digit_at(bytes, radix, to).is_some();
    (format.integer_consecutive_digit_separator() || to - from == 1)
        && flag_for(format, start, before, after)
}

// The place behind the run of separators that starts at `position`, if the run passes. If not, the numeral ends before
// it.
//
// Out of line, since runs are rare. It takes the format by value, so that a caller keeps its own in registers, and
// returns only a place, since a `Found` would go through memory.
#[inline(never)]
fn behind_run(
    bytes: &[u8],
    format: NumberFormat,
    radix: u32,
    start: usize,
    position: usize,
) -> Option<usize>
    requires radix { IsRadix radix }
    requires within { position ≤ length bytes.now }
    requires digit { start < position
        → is_some (digit_at radix bytes.now (position - 1)) ≡ true }
    requires run { separator_at format bytes.now position ≡ true }
    ensures passes { IfSome result (λ stop. (stop ≡ run_stop format bytes.now position)
        × (run_passes format (starts_behind_prefix start) radix bytes.now start position stop
        ≡ true)) }
    ensures ends { IsNone result
        → run_passes format (starts_behind_prefix start) radix bytes.now start position
        (run_stop format bytes.now position) ≡ false }
{
    let stop = run_stop(bytes, &format, position + 1);
    if run_passes(bytes, &format, radix, start, position, stop) {
        Some(stop)
    } else {
        None
    }
}

// What stands ahead if no digit stands at `position`: without a separator there, the numeral's end. Another call, which
// few texts need, scans a run once: if the run passes, the next digit or the end stands behind it.
#[inline(always)]
fn seek_behind_separator(
    bytes: &[u8],
    format: &NumberFormat,
    radix: u32,
    start: usize,
    position: usize,
) -> Found
    requires radix { IsRadix radix }
    requires separator { IsSeparatorNoDigit format.now radix bytes.now }
    requires within { position ≤ length bytes.now }
    requires after_start { start ≤ position }
    requires before_end { position
        ≤ end_of format.now (starts_behind_prefix start) radix bytes.now start }
    requires at_run_start { IsAtRunStart format.now bytes.now start position }
    requires no_digit { digit_at radix bytes.now position ≡ None }
    ensures { Finds format.now (starts_behind_prefix start) radix bytes.now start position result }
{
    if !separator_at(bytes, format, position) {
        return Found::End(position);
    }
    let Some(stop) = behind_run(bytes, *format, radix, start, position) else {
        return Found::End(position);
    };
    match digit_at(bytes, radix, stop) {
        Some(value) => Found::Digit(stop, value),
        None => Found::End(stop),
    }
}

// The next digit of the numeral at or after `position`, or the numeral's end.
#[inline(always)]
pub(crate) fn seek(
    bytes: &[u8],
    format: &NumberFormat,
    radix: u32,
    start: usize,
    position: usize,
) -> Found
    requires radix { IsRadix radix }
    requires separator { IsSeparatorNoDigit format.now radix bytes.now }
    requires within { position ≤ length bytes.now }
    requires after_start { start ≤ position }
    requires before_end { position
        ≤ end_of format.now (starts_behind_prefix start) radix bytes.now start }
    requires at_run_start { IsAtRunStart format.now bytes.now start position }
    ensures { Finds format.now (starts_behind_prefix start) radix bytes.now start position result }
{
    if let Some(value) = digit_at(bytes, radix, position) {
        return Found::Digit(position, value);
    }
    seek_behind_separator(bytes, format, radix, start, position)
}
