//! Lines that are gathered before they go out.

ghost use Rattle.std.specs.Prelude.{◌≡◌, ◌↔◌, ◌+◌, ◌≤◌, ℕ, List, [], ◌∷◌, ◌++◌, codes, take, length, IsTrue, OnOk, OnErr, IsOkUnless};
ghost use Rattle.std.specs.Io.KnownBytes.{Appends};
ghost use Rattle.lexical_util.specs.Ascii.{line_feed};
ghost use Rattle.lexical_literals.specs.Tokens.{view_of_token};
ghost use Rattle.answer_lines.specs.Decimal.{signed_text};
ghost use Rattle.answer_lines.specs.Gather.{GainsFront, Sends};
ghost use Rattle.answer_lines.specs.Output.{fault_answer, place_text, token_text};

use crate::append::{add_fault_line, add_text, add_token_line, add_value_line};
use crate::decimal::add_byte;
use crate::fault::RunError;
use crate::literals::Token;
use crate::number::Number;
use lexical_parse_integer::Error;
use std::io::Write;
use std::marker::Model;

/// How many bytes go out at once, at most.
const SIZE: usize = 65536;

/// If fewer bytes are left, the batch is sent before another line is added. The longest line has at most 92 bytes.
const LINE_ROOM: usize = 128;

/// Bytes that wait to go out. A clause sees them as their list.
#[derive(Drop)]
pub struct Batch {
    held: [u8; SIZE],
    count: usize,
}

impl Model for Batch {
    ghost Value = { List ℕ };

    ghost view = { λ b. take b.count b.held };

    ghost invariant = { λ b. b.count ≤ 65536 };
}

impl Batch {
    /// One that holds nothing.
    pub fn new() -> Batch
        ensures { result ≡ [] }
    {
        Batch {
            held: [0; SIZE],
            count: 0,
        }
    }

    // Whether any line fits.
    #[inline(always)]
    fn has_room(&self) -> bool
        ensures { IsTrue result ↔ (length self.now + 128 ≤ 65536) }
    {
        self.count <= SIZE - LINE_ROOM
    }

    /// Adds a text and a line feed.
    #[inline(always)]
    pub fn add_text_line(&mut self, text: &[u8])
        requires { length self.old + length text.now + 1 ≤ 65536 }
        ensures { self.new ≡ self.old ++ (text.now ++ line_feed ∷ []) }
    {
        let end = add_text(text, &mut self.held, self.count);
        self.count = add_byte(b'\n', &mut self.held, end);
    }

    /// Adds `ok V`, a space and the place where there is one, and a line feed.
    #[inline(always)]
    pub fn add_value_line(&mut self, value: &Number, at: Option<usize>)
        requires { length self.old + 128 ≤ 65536 }
        ensures { self.new ≡ self.old
            ++ (codes "ok " ++ signed_text value.now ++ place_text at ++ line_feed ∷ []) }
    {
        self.count = add_value_line(value, at, &mut self.held, self.count);
    }

    /// Adds `err NAME PLACE` and a line feed. A fault without a place has its name alone. It stays out of line, since
    /// the parser of each type calls it.
    #[inline(never)]
    pub fn add_fault_line(&mut self, fault: Error)
        requires { length self.old + 128 ≤ 65536 }
        ensures { self.new ≡ self.old ++ (fault_answer fault ++ line_feed ∷ []) }
    {
        self.count = add_fault_line(fault, &mut self.held, self.count);
    }

    /// Adds what a token is, where it starts and stops, and a line feed.
    #[inline(always)]
    pub fn add_token_line(&mut self, token: &Token<'_>)
        requires { length self.old + 128 ≤ 65536 }
        ensures { self.new
            ≡ self.old ++ (token_text (view_of_token token.now) ++ line_feed ∷ []) }
    {
        self.count = add_token_line(token, &mut self.held, self.count);
    }

    // Its bytes.
    fn bytes(&self) -> &[u8]
        ensures { result.now ≡ self.now }
    {
        &self.held[..self.count]
    }

    // Discards its bytes.
    fn clear(&mut self)
        ensures { self.new ≡ [] }
    {
        self.count = 0;
    }
}

// Writes all the bytes, by as many writes as it takes. A write that takes no byte, or is interrupted, is refused.
fn write_out<W: Write>(bytes: &[u8], out: &mut W) -> Result<(), RunError>
    ensures ok { OnOk result (Appends (W.contents out.old) (W.contents out.new) bytes.now) }
    ensures front { GainsFront (W.contents out.old) (W.contents out.new) bytes.now }
    ensures fault { IsOkUnless result RunError.Write }
{
    let mut rest = bytes;
    while !rest.is_empty() {
        match out.write(rest) {
            Ok(0) => return Err(RunError::Write),
            Ok(taken) => rest = &rest[taken..],
            Err(_) => return Err(RunError::Write),
        }
    }
    Ok(())
}

// Writes what the batch holds.
#[inline(always)]
fn write_batch<W: Write>(batch: &Batch, out: &mut W) -> Result<(), RunError>
    ensures ok { OnOk result (Appends (W.contents out.old) (W.contents out.new) batch.now) }
    ensures front { GainsFront (W.contents out.old) (W.contents out.new) batch.now }
    ensures fault { IsOkUnless result RunError.Write }
{
    write_out(batch.bytes(), out)
}

/// Writes what the batch holds, and empties it. After a refused write it still holds all of its bytes, of which only
/// some first ones, or none, were written.
#[inline(never)]
pub fn send<W: Write>(batch: &mut Batch, out: &mut W) -> Result<(), RunError>
    ensures ok { OnOk result (Appends (W.contents out.old) (W.contents out.new) batch.old) }
    ensures front { GainsFront (W.contents out.old) (W.contents out.new) batch.old }
    ensures empty { OnOk result (batch.new ≡ []) }
    ensures kept { OnErr result (batch.new ≡ batch.old) }
    ensures fault { IsOkUnless result RunError.Write }
{
    write_batch(batch, out)?;
    batch.clear();
    Ok(())
}

/// Sends the batch unless it has room for any line.
#[inline(always)]
pub fn make_room<W: Write>(batch: &mut Batch, out: &mut W) -> Result<(), RunError>
    ensures ok { OnOk result
        (Sends (W.contents out.old) (W.contents out.new) batch.old batch.new) }
    ensures room { OnOk result (length batch.new + 128 ≤ 65536) }
    ensures front { OnErr result
        (GainsFront (W.contents out.old) (W.contents out.new) batch.old) }
    ensures fault { IsOkUnless result RunError.Write }
{
    if batch.has_room() {
        return Ok(());
    }
    send(batch, out)?;
    Ok(())
}
