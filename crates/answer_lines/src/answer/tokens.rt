//! The answer to a line that asks for tokens.

ghost use Rattle.std.specs.Prelude.{◌∷◌, [], ◌++◌, OnOk, OnErr, IsOkUnless};
ghost use Rattle.lexical_util.specs.Ascii.{line_feed};
ghost use Rattle.answer_lines.specs.Gather.{GainsFront, Gathers};
ghost use Rattle.answer_lines.specs.Output.{tokens_text};
ghost use Rattle.lexical_literals.specs.Tokens.{tokens};

use crate::batch::{Batch, make_room};
use crate::fault::RunError;
use crate::literals::Tokens;
use std::io::Write;

/// Writes a line for each token of the source, and then `end` and a line feed.
pub fn answer_tokens<W: Write>(
    source: &[u8],
    batch: &mut Batch,
    out: &mut W,
) -> Result<(), RunError>
    ensures ok { OnOk result (Gathers (W.contents out.old) batch.old (W.contents out.new) batch.new
        (tokens_text (tokens source.now) ++ line_feed ∷ [])) }
    ensures front { OnErr result (GainsFront (W.contents out.old) (W.contents out.new)
        (batch.old ++ (tokens_text (tokens source.now) ++ line_feed ∷ []))) }
    ensures fault { IsOkUnless result RunError.Write }
{
    for token in Tokens::new(source) {
        make_room(batch, out)?;
        batch.add_token_line(&token);
    }
    make_room(batch, out)?;
    batch.add_text_line(b"end");
    Ok(())
}
