//! What always holds of the answers to fixed-point numbers: of whole texts, of fronts, and of integers, which have no places.
//!
//! These calls do nothing. A proof that needs one of these laws calls it and has its clauses.
ghost use Rattle.std.specs.Prelude.{◌≡◌, ◌≤◌, IfErr, List, Ok, length, ℕ, ℤ};
ghost use Rattle.lexical_fixed.specs.Fixed.{Fixed};
ghost use Rattle.lexical_fixed.specs.Grammar.{complete_fixed, partial_fixed};
ghost use Rattle.lexical_parse_integer.specs.Grammar.{complete};
ghost use Rattle.lexical_parse_integer.specs.Laws.{StandsWithin};
ghost use Rattle.lexical_util.specs.Number.{IntegerType};

use lexical_parse_integer::laws::grammar::complete_by_partial;

/// A number in front that is all of the text is the number of the whole text.
///
/// The front of `12.50` with two places is 1250 up to its end, and the whole is 1250.
pub fn whole_by_front()
    ensures { (fixed : Fixed) (type : IntegerType) (text : List ℕ) (value : ℤ)
        → partial_fixed fixed type text ≡ Ok (value, length text)
        → complete_fixed fixed type text ≡ Ok value }
{}

/// The number of a whole text is the number in front of it, up to its end. So, by `whole_by_front`, a whole text is a
/// number exactly where its front is that number and all of the text.
///
/// With two places `12.50` as a whole is 1250, and so is its front, up to 5.
pub fn front_by_whole()
    ensures { (fixed : Fixed) (type : IntegerType) (text : List ℕ) (value : ℤ)
        → complete_fixed fixed type text ≡ Ok value
        → partial_fixed fixed type text ≡ Ok (value, length text) }
{}

/// The number in front of a text ends within it: what stands behind may be read next.
///
/// With two places `12.50 EUR` is 1250 up to 5, and the text has nine bytes.
pub fn front_end()
    ensures { (fixed : Fixed) (type : IntegerType) (text : List ℕ) (value : ℤ) (place : ℕ)
        → partial_fixed fixed type text ≡ Ok (value, place) → place ≤ length text }
{}

/// Without places the number of a whole text is the integer that it stands for, and each fault is that of the integer.
///
/// With no places `12` is 12, and `12.` is `InvalidDigit(2)`.
pub fn without_places()
    ensures { (fixed : Fixed) (type : IntegerType) (text : List ℕ) → fixed.places ≡ 0
        → complete_fixed fixed type text ≡ complete fixed.integer type text }
{
    // The law by which the complete answer of integers follows from the partial one.
    complete_by_partial();
}

/// Each fault of a text is within the text or at its end.
///
/// So a place may be added to the place of a text within a longer one: the sum is within that.
/// With two places the whole text `12.3x` gives `InvalidDigit(4)`, and `12.` gives `Empty(3)`, at its end.
pub fn fault_places()
    ensures whole { (fixed : Fixed) (type : IntegerType) (text : List ℕ)
        → IfErr (complete_fixed fixed type text) (StandsWithin (length text)) }
    ensures front { (fixed : Fixed) (type : IntegerType) (text : List ℕ)
        → IfErr (partial_fixed fixed type text) (StandsWithin (length text)) }
{
    // The law by which each fault of an integer is within its text or at its end.
    lexical_parse_integer::laws::grammar::fault_places();
}
