//! Laws that follow from the definitions of the grammar: what an integer is, and what keeps a value.
//!
//! A law is a call whose contract says what always holds. A proof that needs one calls it and has its clauses.
#![tactic(auto)]

ghost use Rattle.std.specs.Prelude.{◌≡◌, ◌≢◌, ◌↔◌, ◌+◌, ◌<◌, ◌≤◌, ◌⊎◌, ◌++◌, ◌∷◌, codes, Err, false, IsNone, IsSome, length, List, map, Ok, Some, take, true, ℕ, ℤ};
ghost use Rattle.std.specs.Fmt.{signed_decimal};
ghost use Rattle.lexical_laws.specs.Integer.{IsInteger};
ghost use Rattle.lexical_laws.specs.Keeping.{AdmitsMore, AreAlike, IgnoresCase, Implies, IsDead, IsForeign, IsLongestFront, IsRangeFault, PartsTokens, moved, without_separators};
ghost use Rattle.lexical_literals.specs.Tokens.{tokens, tokens_under};
ghost use Rattle.lexical_util.specs.Ascii.{line_feed};
ghost use Rattle.lexical_util.specs.Faults.{place_of};
ghost use Rattle.lexical_util.specs.declared.error.Error.{Error};
ghost use Rattle.lexical_util.specs.declared.error.Error.TheVariants.{Empty};
ghost use Rattle.lexical_parse_integer.specs.Fronts.{number_in_front};
ghost use Rattle.lexical_parse_integer.specs.Grammar.{complete, digits_required, partial};
ghost use Rattle.lexical_parse_integer.specs.Runs.{digit_at};
ghost use Rattle.lexical_util.specs.Format.{Format, json};
ghost use Rattle.lexical_util.specs.Number.{IntegerType, is_number};
ghost use Rattle.lexical_util.specs.Validity.{fault};

use lexical_parse_integer::laws::grammar::{complete_by_partial, front_end, locality, numerals};

/// What an integer is: the complete parser reads a text as a value exactly where the text is made of a sign, a prefix,
/// a body and a suffix that may stand there, and the body's digits are worth the value.
pub fn integers()
    ensures { (format : Format) (type : IntegerType) (text : List ℕ) (value : ℤ)
        → IsNone (fault format)
        → (complete format type text ≡ Ok value) ↔ IsInteger format type text value }
{}

/// Types agree on a text: a value that is read as one type is read as each type that has it, and is a range fault in a
/// type that doesn't. Only a signed type reads a minus, so where the first type is signed, the other has to be too.
///
/// `-128` is -128 as `i8` and as `i64`. `300` is 300 as `u16` and `Overflow(2)` as `u8`, and `-0` is 0 as `i8` alone.
pub fn types()
    ensures agree { (format : Format) (type other : IntegerType) (text : List ℕ) (value : ℤ)
        → IsNone (fault format) → Implies type.is_signed other.is_signed
        → complete format type text ≡ Ok value → is_number other value ≡ true
        → complete format other text ≡ Ok value }
    ensures leave { (format : Format) (type other : IntegerType) (text : List ℕ) (value : ℤ)
        → IsNone (fault format) → Implies type.is_signed other.is_signed
        → complete format type text ≡ Ok value → is_number other value ≡ false
        → IsRangeFault (complete format other text) }
{}

/// The number in front of a text is an integer by itself (`whole`). Where the format has no
/// separator and no fault comes first, it is the longest front that is one: no text that begins
/// with it and the byte behind it is an integer. No other front is like that (`longest`).
///
/// The longest front of `12x` is `12`. In `256` as `u8` a fault comes first, though `25` is an
/// integer: the answer is `Overflow(2)`. With separators a longer front may be an integer: where
/// they may only trail, `1` is read of `1_2`, and `1_` is an integer too.
pub fn fronts()
    ensures whole { (format : Format) (type : IntegerType) (text : List ℕ) (value : ℤ) (place : ℕ)
        → IsNone (fault format) → number_in_front format type text ≡ Ok (value, place)
        → IsInteger format type (take place text) value }
    ensures longest { (format : Format) (type : IntegerType) (text : List ℕ) (found : ℤ × ℕ)
        (value : ℤ) (place : ℕ)
        → IsNone (fault format) → IsNone format.digit_separator
        → number_in_front format type text ≡ Ok found
        → (number_in_front format type text ≡ Ok (value, place))
        ↔ IsLongestFront format type text value place }
{
    locality();
    complete_by_partial();
    front_end();
}

/// A text keeps its value under a format that admits more: punctuation where there was none, separators in more places, or
/// less that is asked for.
///
/// So a program may relax its format, and what it read before keeps its value. Octal zeros and
/// literal prefixes have to stay as they are: they change what digits are worth.
pub fn relaxing()
    ensures { (strict loose : Format) (type : IntegerType) (text : List ℕ) (value : ℤ)
        → IsNone (fault strict) → IsNone (fault loose) → AdmitsMore strict loose
        → complete strict type text ≡ Ok value → complete loose type text ≡ Ok value }
{}

/// Nothing repairs a fault: no text with the same bytes up to and including its place has a value, under a valid format
/// without a separator byte and without the rule on leading zeros.
///
/// So whoever reads byte after byte may stop there. A fault at the text's end is about no byte: `+`
/// is `Empty(1)`, and `+1` is 1. With a separator, more bytes may repair a text: `0_` may be
/// `InvalidDigit(1)`, and `0_0` a value. The rule on leading zeros blames the zero in `01`, and `0`
/// alone has a value.
pub fn dead_places()
    ensures { (format : Format) (type : IntegerType) (text : List ℕ) (error : Error) (place : ℕ)
        → IsNone (fault format) → IsNone format.digit_separator
        → format.no_integer_leading_zeros ≡ false → complete format type text ≡ Err error
        → place_of error ≡ Some place → place < length text → IsDead format type text place }
{
    locality();
    complete_by_partial();
}

/// What stands behind a byte that is no part of a number has no effect: the front is read as if the text ended before
/// the byte.
///
/// `12;3` is read as `12` is. A text that lacks its end may be read otherwise: with the prefix `x` and no separator,
/// `0x` is `Empty(2)`, but of `0x;` the front `0x` is 0. So one of three has to hold: the text doesn't lack its end
/// (`read`, and `number` for the number in front), the format asks for a digit and has a separator (`asked`), or it has
/// no prefix and the text begins with a digit (`digit`).
pub fn foreign_bytes()
    ensures read { (format : Format) (type : IntegerType) (text rest : List ℕ) (byte : ℕ)
        → IsNone (fault format) → IsForeign format byte
        → partial format type text ≢ Err (Empty (length text))
        → partial format type (text ++ byte ∷ rest) ≡ partial format type text }
    ensures number { (format : Format) (type : IntegerType) (text rest : List ℕ) (byte : ℕ)
        → IsNone (fault format) → IsForeign format byte
        → partial format type text ≢ Err (Empty (length text))
        → number_in_front format type (text ++ byte ∷ rest) ≡ number_in_front format type text }
    ensures asked { (format : Format) (type : IntegerType) (text rest : List ℕ) (byte : ℕ)
        → IsNone (fault format) → IsForeign format byte
        → digits_required format ≡ true → IsSome format.digit_separator
        → partial format type (text ++ byte ∷ rest) ≡ partial format type text }
    ensures digit { (format : Format) (type : IntegerType) (text rest : List ℕ) (byte : ℕ)
        → IsNone (fault format) → IsForeign format byte
        → IsNone format.base_prefix → format.literal_prefixes ≡ false
        → IsSome (digit_at format.mantissa_radix text 0)
        → partial format type (text ++ byte ∷ rest) ≡ partial format type text }
{}

/// If a line feed joins two sources, the tokens of the whole are those of the first and then those
/// of the second, moved by the length of the first plus 1. So a source may be read line by line.
///
/// Under a format of your own, the byte between the sources has to be one that separates tokens (`PartsTokens`). With
/// the prefix `x` and no separator, none does: `0x` is the fault `Empty(2)`, but a line feed behind it makes it the
/// number 0.
pub fn joined_sources()
    ensures lines { (first second : List ℕ)
        → tokens (first ++ line_feed ∷ second)
        ≡ tokens first ++ map (moved (length first + 1)) (tokens second) }
    ensures parts { (format : Format) (byte : ℕ) (first second : List ℕ)
        → IsNone (fault format) → PartsTokens format byte
        → tokens_under format (first ++ byte ∷ second)
        ≡ tokens_under format first ++ map (moved (length first + 1)) (tokens_under format second) }
{
    front_end();
}

/// Separators don't change a value: a text has the same value without them, under a valid format that asks for a digit
/// and has no octal zeros.
///
/// Otherwise a separator may keep apart what would be read together: under octal zeros `-_09` is -9, and `-09` is a
/// fault. And where no digit is asked for, `0x_` may be 0, but `0x` is `Empty(2)`.
pub fn separators()
    ensures { (format : Format) (type : IntegerType) (text : List ℕ) (value : ℤ)
        → IsNone (fault format) → format.literal_octal_zero ≡ false
        → digits_required format ≡ true → complete format type text ≡ Ok value
        → complete format type (without_separators format text) ≡ Ok value }
{}

/// JSON's texts are canonical: a text that is read under `format::JSON` is what std prints of its value, or `-0`.
///
/// So signatures and cache keys may be made of texts: except for `-0`, each value has one text,
/// since what is printed is read back (`laws::numeral`).
pub fn json_texts()
    ensures { (type : IntegerType) (text : List ℕ) (value : ℤ) → type.bits ≤ 128
        → complete json type text ≡ Ok value
        → (text ≡ signed_decimal value) ⊎ (text ≡ codes "-0") }
{
    numerals();
}

/// Letter case doesn't change a value: two texts that differ only in letter case have the same value, under a valid
/// format whose prefix and suffix ignore letter case, and whose separator is no letter.
///
/// In radix 16 with the prefix `x`, `0xFf` and `0XfF` are both 255. With the separator `x`, `1x0` may be 10, but `1X0`
/// is no integer.
pub fn letter_case()
    ensures { (format : Format) (type : IntegerType) (text other : List ℕ) (value : ℤ)
        → IsNone (fault format) → IgnoresCase format → AreAlike other text
        → complete format type text ≡ Ok value → complete format type other ≡ Ok value }
{}
