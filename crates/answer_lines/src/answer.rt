//! One line's answer.

ghost use Rattle.std.specs.Prelude.{◌≡◌, ◌+◌, ◌≤◌, ◌∷◌, [], ◌++◌, length, OnOk, OnErr, IsOkUnless, option_map};
ghost use Rattle.lexical_util.specs.Ascii.{line_feed};
ghost use Rattle.answer_lines.specs.Command.{change, change_named};
ghost use Rattle.answer_lines.specs.Gather.{GainsFront, Gathers};
ghost use Rattle.answer_lines.specs.Output.{answer_to, command_answer, command_effect, settings_after};

mod tokens;
mod values;

use crate::answer::tokens::answer_tokens;
use crate::answer::values::{answer_complete, answer_partial};
use crate::batch::{Batch, make_room};
use crate::command::change_in;
use crate::fault::RunError;
use crate::settings::Settings;
use std::io::Write;

/// Writes a line's answer and a line feed, and sets what the line sets. A line that asks for
/// nothing is answered by `bad line`, and changes nothing. A refused write changes no setting.
pub fn answer<W: Write>(
    line: &[u8],
    settings: &mut Settings,
    batch: &mut Batch,
    out: &mut W,
) -> Result<(), RunError>
    ensures ok { OnOk result (Gathers (W.contents out.old) batch.old (W.contents out.new) batch.new
        (answer_to settings.old line.now ++ line_feed ∷ [])) }
    ensures front { OnErr result (GainsFront (W.contents out.old) (W.contents out.new)
        (batch.old ++ (answer_to settings.old line.now ++ line_feed ∷ []))) }
    ensures settings { OnOk result (settings.new ≡ settings_after settings.old line.now) }
    ensures kept { OnErr result (settings.new ≡ settings.old) }
    ensures fault { IsOkUnless result RunError.Write }
{
    make_room(batch, out)?;
    match line {
        [b'c', b' ', text @ ..] => {
            answer_complete(text, settings, batch);
            Ok(())
        }
        [b'p', b' ', text @ ..] => {
            answer_partial(text, settings, batch);
            Ok(())
        }
        [b't', b' ', source @ ..] => answer_tokens(source, batch, out),
        [b'f', b' ', text @ ..] => {
            answer_change(text, settings, batch);
            Ok(())
        }
        b"r" => {
            batch.add_text_line(b"ok");
            *settings = Settings::standard();
            Ok(())
        }
        _ => {
            batch.add_text_line(b"bad line");
            Ok(())
        }
    }
}

// Adds the answer to `f`, a space and the text, and a line feed. Then the field has its new value.
fn answer_change(text: &[u8], settings: &mut Settings, batch: &mut Batch)
    requires { length batch.old + 128 ≤ 65536 }
    ensures answer { batch.new ≡ batch.old
        ++ (command_answer settings.old (option_map change (change_named text.now))
        ++ line_feed ∷ []) }
    ensures settings { settings.new
        ≡ command_effect settings.old (option_map change (change_named text.now)) }
{
    match change_in(text) {
        None => batch.add_text_line(b"bad line"),
        Some(change) => {
            batch.add_text_line(b"ok");
            settings.apply(change);
        }
    }
}
