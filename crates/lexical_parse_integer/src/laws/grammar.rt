//! What follows from the definitions of the grammar, for every format, type and text.
//!
//! These calls do nothing. A proof that needs one of these laws calls it and has its clauses.
ghost use Rattle.std.specs.Prelude.{◌≡◌, ◌≢◌, ◌<◌, ◌≤◌, ◌⊎◌, true, Bool, List, length, slice_get, IfErr, IsNone, Ok, Some, ℕ, ℤ};
ghost use Rattle.std.specs.Fmt.{signed_decimal};
ghost use Rattle.lexical_parse_integer.specs.Grammar.{complete, partial};
ghost use Rattle.lexical_parse_integer.specs.Laws.{Completes, IsGreatestEnd, IsLocal, IsLongestRun, IsNumeralOf, LeavesWithin, ReadsNumerals, ReadsPadded, StandsWithin, TellsDigits, Writes, WritesShortest, completion_of};
ghost use Rattle.lexical_parse_integer.specs.Runs.{digit_at, separator_at};
ghost use Rattle.lexical_util.specs.Digit.{IsRadix};
ghost use Rattle.lexical_util.specs.Format.{Format};
ghost use Rattle.lexical_util.specs.Number.{IntegerType, IsNumber};
ghost use Rattle.lexical_util.specs.Validity.{fault};

use lexical_util::format::NumberFormat;

/// A numeral's end is the greatest place such that each place from its start to before it holds a
/// digit or a separator that passes.
///
/// Under the standard format the numeral in `12,3` that starts at 0 ends at 2.
pub fn greatest_end(bytes: &[u8], format: &NumberFormat, radix: u32, start: usize)
    requires { start ≤ length bytes.now }
    ensures { (is_prefixed : Bool)
        → IsGreatestEnd format.now is_prefixed radix bytes.now start }
{}

/// The run of a separator is the longest stretch of separators, within the region that begins at
/// `start`, that holds it.
///
/// With the separator `_`, the run of place 2 in `1__2` begins at 1, and 3 is the place after it.
pub fn longest_run(bytes: &[u8], format: &NumberFormat, start: usize, place: usize)
    requires within { start ≤ place }
    requires separator { separator_at format.now bytes.now place ≡ true }
    ensures { IsLongestRun format.now bytes.now start place }
{}

/// Where a value leaves its type, it does so at a place within the text.
///
/// As `u8`, `256x` gives `Overflow(2)`, and the text has four bytes. A fault where digits are missing
/// may be at the text's end.
pub fn range_faults()
    ensures front { (format : Format) (type : IntegerType) (text : List ℕ)
        → LeavesWithin (length text) (partial format type text) }
    ensures whole { (format : Format) (type : IntegerType) (text : List ℕ)
        → LeavesWithin (length text) (complete format type text) }
{}

/// Each fault of a text is within the text or at its end.
///
/// So a place may be added to the place of a text within a longer one: the sum is within that.
/// `12x` gives `InvalidDigit(2)`, and `+` gives `Empty(1)`, at its end.
pub fn fault_places()
    ensures front { (format : Format) (type : IntegerType) (text : List ℕ)
        → IfErr (partial format type text) (StandsWithin (length text)) }
    ensures whole { (format : Format) (type : IntegerType) (text : List ℕ)
        → IfErr (complete format type text) (StandsWithin (length text)) }
{}

/// The complete answer follows from the partial one, by one equation and by the sentences of
/// `complete_and_partial`.
pub fn complete_by_partial()
    ensures answer { (format : Format) (type : IntegerType) (text : List ℕ)
        → complete format type text ≡ completion_of (length text) (partial format type text) }
    ensures sentences { (format : Format) (type : IntegerType) (text : List ℕ)
        → Completes (length text) (complete format type text) (partial format type text) }
{}

/// The front that is read of a text ends within the text, and it isn't empty where the text begins
/// with a digit of the format's radix.
///
/// So a reader that takes one number after the other off its input comes to the input's end.
pub fn front_end()
    ensures within { (format : Format) (type : IntegerType) (text : List ℕ) (value : ℤ) (place : ℕ)
        → partial format type text ≡ Ok (value, place) → place ≤ length text }
    ensures some { (format : Format) (type : IntegerType) (text : List ℕ) (value : ℤ)
        (place digit : ℕ)
        → digit_at format.mantissa_radix text 0 ≡ Some digit
        → partial format type text ≡ Ok (value, place) → 0 < place }
{}

/// A front that is read as one type is read in the same way as a wider one, where both have numbers below 0 or neither
/// has.
///
/// So a reader may try 64 bits first. `12x` is 12 up to place 2 as `u8`, and so it is as `u128`.
pub fn wider_types()
    ensures { (format : Format) (type other : IntegerType) (text : List ℕ) (found : ℤ × ℕ)
        → other.is_signed ≡ type.is_signed → type.bits ≤ other.bits
        → partial format type text ≡ Ok found → partial format other text ≡ Ok found }
{}

/// The front that is read of a text with neither a prefix nor an octal zero has a digit exactly where one is directly
/// before its place, under a format without separator byte and suffix: what `stops_after_digit` answers is whether a
/// digit was read.
///
/// Under the standard format the front of `+a` stops at 1, after no digit, and has none.
pub fn front_digits()
    ensures { (format : Format) (type : IntegerType) (text : List ℕ)
        → IsNone format.digit_separator → IsNone format.base_suffix → TellsDigits format type text }
{}

/// Under a valid format without a separator byte, a partial answer that is settled at a place is that of each text with
/// the same bytes up to and including that place.
pub fn locality()
    ensures { (format : Format) (type : IntegerType)
        → IsNone (fault format) → IsNone format.digit_separator → IsLocal format type }
{}

/// Numerals in a radix from 2 to 36: the shortest one of a number of a type is read back, and each
/// number has one.
///
/// For a writer: digits are the shortest numeral of their number where there is only one or the
/// first byte isn't `0` (48); and what std writes of a number of up to 128 bits is its numeral in
/// radix 10.
pub fn numerals()
    ensures read { (radix : ℕ) (type : IntegerType) → IsRadix radix → ReadsNumerals radix type }
    ensures some { (radix : ℕ) (value : ℤ)
        → IsRadix radix → (text : List ℕ) × IsNumeralOf radix value text }
    ensures shortest { (radix number : ℕ) (text : List ℕ)
        → IsRadix radix → Writes radix number text
        → (length text ≡ 1) ⊎ (slice_get text 0 ≢ Some 48) → WritesShortest radix number text }
    ensures printed { (type : IntegerType) (value : ℤ)
        → type.bits ≤ 128 → IsNumber type value → IsNumeralOf 10 value (signed_decimal value) }
{}

/// Under the standard format, zeros put before the first digit of a text that is read leave its
/// value.
pub fn zeros()
    ensures { (type : IntegerType) → ReadsPadded type }
{}
