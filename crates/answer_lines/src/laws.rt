//! What the definitions of the program's output come to.

ghost use Rattle.std.specs.Prelude.{◌≡◌, ℕ, ℤ, List};
ghost use Rattle.std.specs.List.{flat_map, scan};
ghost use Rattle.lexical_parse_integer.specs.Laws.{IsNumeralOf};
ghost use Rattle.answer_lines.specs.Given.{IsAnsweredInTurn, LeavesLastGiven};
ghost use Rattle.lexical_util.specs.Ascii.{line_feed};
ghost use Rattle.lexical_fields.specs.Fields.{pieces, without_empty_last};
ghost use Rattle.answer_lines.specs.Lines.{lines};
ghost use Rattle.answer_lines.specs.Decimal.{signed_text};
ghost use Rattle.answer_lines.specs.Output.{answer_lines, output, settings_after};
ghost use Rattle.answer_lines.specs.Settings.{standard_settings};

/// The lines are the pieces between the line feeds, without the last where that is empty.
#[tactic(auto, using(crate::proofs::Pieces::lines_are_pieces))]
pub fn lines_are_pieces()
    ensures { (bytes : List ℕ) → lines bytes ≡ without_empty_last (pieces line_feed bytes) }
{}

/// The lines of the output are those of the answers to the lines of the input, in order. An answer
/// is a single line, or, where tokens are asked for, a line for each token and `end`.
#[tactic(auto, using(crate::proofs::AnswerLines::output_in_lines))]
pub fn output_lines_are_those_of_the_answers()
    ensures { (input : List ℕ) → lines (output input)
        ≡ flat_map (λ answer. answer)
        (scan settings_after answer_lines standard_settings (lines input)) }
{}

/// What is printed of a number is its shortest numeral in radix 10, after a minus where it is
/// below 0. So the parsers read it back.
#[tactic(auto, using(crate::proofs::DecimalSteps::is_decimal))]
pub fn decimal_is_shortest()
    ensures { (number : ℤ) → IsNumeralOf 10 number (signed_text number) }
{}

/// Each line is answered under the settings that the lines before it leave, and of those each
/// field has the value that the last accepted `f` line after the last `r` line gave it, or the
/// standard one where there is none.
#[tactic(auto, using(crate::proofs::LastGiven::in_turn, crate::proofs::LastGiven::leaves_last_given))]
pub fn fields_hold_what_was_last_given()
    ensures answered { (before : List (List ℕ)) → (line : List ℕ) → (after : List (List ℕ))
        → IsAnsweredInTurn before line after }
    ensures left { (lines : List (List ℕ)) → LeavesLastGiven lines }
{}
