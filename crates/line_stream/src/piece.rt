//! Processing the bytes of one read.

ghost use Rattle.std.specs.Prelude.{◌≡◌, ◌+◌, ◌≤◌, ◌<◌, ◌^◌, ◌++◌, ◌∷◌, length, take, drop, [], OnOk, IfErr};
ghost use Rattle.mj_model.specs.Counts.{CanRise};
ghost use Rattle.mj_model.specs.declared.limits.TheConstants.{SENTENCE_MAX};
ghost use Rattle.mj_model.specs.TextLines.{complete_lines, unfinished_line};
ghost use Rattle.line_stream.specs.StreamState.{HasNoFeed, IsCause};
ghost use Rattle.line_stream.specs.Steps.{Advanced, Stepped, StepStopped, IsLineCause, step_of};

use crate::line_fault::StreamFault;
use crate::line_printer::LinePrinter;
use crate::steps::{stop, write_out};
use crate::stream_state::{StreamState, append_pending};
use memchr::memchr;
use mj_model::TextOut;

/// Limit on the output that waits, in bytes. If more waits after a line, it is written before the
/// next line is printed. A larger buffer would push the search's data out of the second-level
/// cache. (This project's own choice)
pub const OUTPUT_MAX: usize = 1 << 16;

/// Splits `bytes` at the LF at index `at`: returns the bytes before it and the bytes after it.
pub fn split_at_feed(bytes: &[u8], at: usize) -> (&[u8], &[u8])
    requires { at < length bytes.now }
    ensures line { result.0.now ≡ take at bytes.now }
    ensures after { result.1.now ≡ drop (at + 1) bytes.now }
{
    (&bytes[..at], &bytes[at + 1..])
}

/// Prints the line that ends with `part`, and writes the output if more than `OUTPUT_MAX` bytes
/// wait.
///
/// `sent` counts the bytes written since the run started.
fn process_line<P: LinePrinter, W: TextOut>(
    printer: &P,
    part: &[u8],
    buffers: &mut P::Buffers,
    progress: &mut StreamState,
    writer: &mut W,
    sent: &mut u128,
) -> Result<(), StreamFault>
    requires count { progress.old.lines + 1 < 2 ^ 64 }
    requires room { sent.old + 2 ^ 64 ≤ 2 ^ 128 }
    requires failures { CanRise (W.state writer.old).failures }
    ensures processed { OnOk result (Advanced (P.line_result printer.now) progress.old.lines
        progress.old.out.items ((progress.old.pending.items ++ part.now) ∷ [])
        progress.new.lines progress.new.out.items
        (step_of (W.state writer.old) (W.state writer.new)) sent.old sent.new) }
    ensures ended { OnOk result (progress.new.pending.items ≡ []) }
    ensures few_bytes { OnOk result (sent.new ≤ sent.old + 2 ^ 64) }
    ensures few_lines { progress.new.lines ≤ progress.old.lines + 1 }
    ensures no_flush { (W.state writer.new).flushes ≡ (W.state writer.old).flushes }
    ensures stopped { IfErr result (StepStopped (P.line_result printer.now)
        (IsLineCause (P.line_result printer.now) (progress.old.pending.items ++ part.now))
        progress.old.lines progress.old.out.items
        ((progress.old.pending.items ++ part.now) ∷ [])
        (step_of (W.state writer.old) (W.state writer.new)) sent.old) }
{
    match progress.end_line(printer, buffers, part) {
        Ok(()) if progress.out.len() <= OUTPUT_MAX => Ok(()),
        Ok(()) => write_out(writer, &mut progress.out, sent),
        Err(error) => Err(stop(writer, progress, sent, error)),
    }
}

/// Prints the lines that end in `piece` and writes their output. The bytes after the last LF stay
/// in `progress.pending`.
pub fn process_piece<P: LinePrinter, W: TextOut>(
    printer: &P,
    buffers: &mut P::Buffers,
    piece: &[u8],
    progress: &mut StreamState,
    writer: &mut W,
    sent: &mut u128,
) -> Result<(), StreamFault>
    requires small { length piece.now ≤ 2 ^ 16 }
    requires count { progress.old.lines + length piece.now + 1 < 2 ^ 64 }
    requires open { HasNoFeed progress.old.pending.items }
    requires nothing_waits { progress.old.out.items ≡ [] }
    requires room { sent.old + 2 ^ 82 ≤ 2 ^ 128 }
    requires failures { CanRise (W.state writer.old).failures }
    ensures processed { OnOk result (Stepped (P.line_result printer.now) progress.old.lines
        (complete_lines (progress.old.pending.items ++ piece.now)) progress.new.lines
        (step_of (W.state writer.old) (W.state writer.new)) sent.old sent.new) }
    ensures open { OnOk result
        (progress.new.pending.items ≡ unfinished_line (progress.old.pending.items ++ piece.now)) }
    ensures short { OnOk result (length progress.new.pending.items ≤ SENTENCE_MAX) }
    ensures nothing_waits { OnOk result (progress.new.out.items ≡ []) }
    ensures few_bytes { OnOk result (sent.new ≤ sent.old + 2 ^ 82) }
    ensures few_lines { progress.new.lines ≤ progress.old.lines + length piece.now }
    ensures no_flush { (W.state writer.new).flushes ≡ (W.state writer.old).flushes }
    ensures stopped { IfErr result (StepStopped (P.line_result printer.now)
        (IsCause (P.line_result printer.now) (progress.old.pending.items ++ piece.now))
        progress.old.lines [] (complete_lines (progress.old.pending.items ++ piece.now))
        (step_of (W.state writer.old) (W.state writer.new)) sent.old) }
{
    let mut rest = piece;
    while let Some(at) = memchr(b'\n', rest) {
        let (line, following) = split_at_feed(rest, at);
        process_line(printer, line, buffers, progress, writer, sent)?;
        rest = following;
    }
    match append_pending(&mut progress.pending, rest) {
        Ok(()) => write_out(writer, &mut progress.out, sent),
        Err(error) => Err(stop(writer, progress, sent, error)),
    }
}
