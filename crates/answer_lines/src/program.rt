//! Reading all of the input, and writing an answer line for each line of it.

ghost use Rattle.std.specs.Prelude.{◌≡◌, ◌++◌, [], OnOk, IfSome, IsOkUnless, IsErrOf};
ghost use Rattle.std.specs.Io.KnownBytes.{Appends, Keeps, IsAtEnd};
ghost use Rattle.answer_lines.specs.Gather.{GainsFront, Grows, LosesFront};
ghost use Rattle.answer_lines.specs.Output.{output};

use crate::answer::answer;
use crate::batch::{Batch, send};
use crate::buffer::Buffer;
use crate::fault::RunError;
use crate::lines::line_end;
use crate::settings::Settings;
use std::alloc::Global;
use std::io::{ErrorKind, Read, Write};

/// If this many reads don't reach the end of the input, the input counts as refused.
const MOST_READS: u64 = 4_294_967_296;

/// How many bytes one read asks for.
const CHUNK: usize = 65536;

/// Writes the answer lines of the input. Its one fault is `Write`: then only some of the first
/// bytes of these lines, or none, were written. It allocates nothing.
pub fn run<W: Write>(input: &[u8], out: &mut W) -> Result<(), RunError>
    ensures ok { OnOk result (Appends (W.contents out.old) (W.contents out.new)
        (output input.now)) }
    ensures front { GainsFront (W.contents out.old) (W.contents out.new) (output input.now) }
    ensures fault { IsOkUnless result RunError.Write }
{
    let mut batch = Batch::new();
    let mut settings = Settings::standard();
    let mut rest = input;
    while !rest.is_empty() {
        let end = line_end(rest);
        answer(&rest[..end], &mut settings, &mut batch, out)?;
        if end == rest.len() {
            return send(&mut batch, out);
        }
        rest = &rest[end + 1..];
    }
    send(&mut batch, out)
}

// Reads to the end, and adds what was read to the bytes. An interrupted read is tried again.
fn read_all<R: Read, B: Buffer>(input: &mut R, bytes: &mut B) -> Result<(), RunError>
    ensures all { OnOk result (IfSome (R.remaining input.old) (λ all.
        B.contents bytes.new ≡ B.contents bytes.old ++ all)) }
    ensures end { OnOk result (IsAtEnd (R.remaining input.new)) }
    ensures front { LosesFront (R.remaining input.old) (R.remaining input.new) }
    ensures fault { IsErrOf result RunError.Write → ⊥ }
{
    let mut chunk = [0u8; CHUNK];
    for _ in 0..MOST_READS {
        match input.read(&mut chunk) {
            Ok(0) => return Ok(()),
            Ok(count) => {
                if bytes.append(&chunk[..count]).is_err() {
                    return Err(RunError::Memory);
                }
            }
            Err(e) => {
                if e.kind() != ErrorKind::Interrupted {
                    return Err(RunError::Read);
                }
            }
        }
    }
    Err(RunError::Read)
}

// Writes the answer lines of the input, and flushes. A refused flush is `Write` too.
fn run_and_flush<W: Write>(input: &[u8], out: &mut W) -> Result<(), RunError>
    ensures ok { OnOk result (Appends (W.contents out.old) (W.contents out.new)
        (output input.now)) }
    ensures front { GainsFront (W.contents out.old) (W.contents out.new) (output input.now) }
    ensures fault { IsOkUnless result RunError.Write }
{
    run(input, out)?;
    match out.flush() {
        Ok(()) => Ok(()),
        Err(_) => Err(RunError::Write),
    }
}

/// `run_from` with an empty buffer of the caller's.
pub fn run_with<R: Read, W: Write, B: Buffer>(
    buffer: B,
    input: &mut R,
    out: &mut W,
) -> Result<(), RunError>
    requires { B.contents buffer ≡ [] }
    ensures ok { OnOk result (IfSome (R.remaining input.old) (λ all.
        Appends (W.contents out.old) (W.contents out.new) (output all))) }
    ensures written { IfSome (R.remaining input.old) (λ all.
        GainsFront (W.contents out.old) (W.contents out.new) (output all)) }
    ensures grown { Grows (W.contents out.old) (W.contents out.new) }
    ensures end { OnOk result (IsAtEnd (R.remaining input.new)) }
    ensures all_read { IsErrOf result RunError.Write → IsAtEnd (R.remaining input.new) }
    ensures front { LosesFront (R.remaining input.old) (R.remaining input.new) }
    ensures read { IsErrOf result RunError.Read
        → Keeps (W.contents out.old) (W.contents out.new) }
    ensures memory { IsErrOf result RunError.Memory
        → Keeps (W.contents out.old) (W.contents out.new) }
{
    let mut buffer = buffer;
    read_all(input, &mut buffer)?;
    run_and_flush(buffer.bytes(), out)
}

/// Reads to the end, writes the answer lines of all that was read, and flushes.
///
/// `Read` is a refused read, or 4,294,967,296 reads that don't reach the end of the input; an
/// interrupted read counts, and is tried again. `Memory` is a refused growth of the input buffer.
/// After either of these nothing was written, and what was read is lost. `Write` is a refused write
/// or flush; one that is interrupted, and a write that takes no byte, count as refused. After it
/// the reader is at its end, and an unknown number of the answer lines' first bytes were written.
pub fn run_from<R: Read, W: Write>(
    alloc: Global,
    input: &mut R,
    out: &mut W,
) -> Result<(), RunError>
    ensures ok { OnOk result (IfSome (R.remaining input.old) (λ all.
        Appends (W.contents out.old) (W.contents out.new) (output all))) }
    ensures written { IfSome (R.remaining input.old) (λ all.
        GainsFront (W.contents out.old) (W.contents out.new) (output all)) }
    ensures grown { Grows (W.contents out.old) (W.contents out.new) }
    ensures end { OnOk result (IsAtEnd (R.remaining input.new)) }
    ensures all_read { IsErrOf result RunError.Write → IsAtEnd (R.remaining input.new) }
    ensures front { LosesFront (R.remaining input.old) (R.remaining input.new) }
    ensures read { IsErrOf result RunError.Read
        → Keeps (W.contents out.old) (W.contents out.new) }
    ensures memory { IsErrOf result RunError.Memory
        → Keeps (W.contents out.old) (W.contents out.new) }
{
    run_with(Vec::new(alloc), input, out)
}
