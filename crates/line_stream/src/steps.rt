//! The steps of a run: write the output, stop at an error, finish at the end of the input.

ghost use Rattle.std.specs.Prelude.{◌≡◌, ℕ, ◌+◌, ◌≤◌, ◌<◌, ◌^◌, length, take, [], false, OnOk, OnErr, IfOk, IfErr};
ghost use Rattle.std.specs.Io.KnownBytes.{Appends};
ghost use Rattle.mj_model.specs.Counts.{CanRise};
ghost use Rattle.line_stream.specs.declared.line_fault.StreamFault.TheVariants.{Write};
ghost use Rattle.line_stream.specs.Steps.{Stepped, EndStopped, WaitingStopped, last_line, step_of, IsLastCause};

use crate::line_fault::{LineError, StreamFault};
use crate::line_printer::LinePrinter;
use crate::stream_state::StreamState;
use crate::writing::write_bytes;
use mj_model::TextOut;

/// Writes `out` and clears it. `sent` grows by the number of bytes written.
pub fn write_out<W: TextOut>(
    writer: &mut W,
    out: &mut Vec<u8>,
    sent: &mut u128,
) -> Result<(), StreamFault>
    requires room { sent.old + 2 ^ 64 ≤ 2 ^ 128 }
    requires failures { CanRise (W.state writer.old).failures }
    ensures written { OnOk result
        (Appends (W.state writer.old).held (W.state writer.new).held out.old.items) }
    ensures counted { OnOk result (sent.new ≡ sent.old + length out.old.items) }
    ensures cleared { OnOk result (out.new.items ≡ []) }
    ensures few_bytes { OnOk result (sent.new ≤ sent.old + 2 ^ 64) }
    ensures no_failure { OnOk result
        ((W.state writer.new).failures ≡ (W.state writer.old).failures) }
    ensures no_flush { (W.state writer.new).flushes ≡ (W.state writer.old).flushes }
    ensures truncated { IfErr result (λ fault. (n : ℕ) × (n ≤ length out.old.items)
        × Appends (W.state writer.old).held (W.state writer.new).held (take n out.old.items)
        × (fault ≡ Write (sent.old + n))) }
    ensures failure { OnErr result
        ((W.state writer.new).failures ≡ (W.state writer.old).failures + 1) }
{
    match write_bytes(writer, out) {
        Ok(()) => {
            *sent += out.len() as u128;
            out.clear();
            Ok(())
        }
        Err(taken) => Err(StreamFault::Write(*sent + taken as u128)),
    }
}

/// Writes the output that waits and returns the error of the run: `error` at the next line, or
/// `Write` if the write fails.
pub fn stop<W: TextOut>(
    writer: &mut W,
    progress: &mut StreamState,
    sent: &mut u128,
    error: LineError,
) -> StreamFault
    requires count { progress.old.lines + 1 < 2 ^ 64 }
    requires room { sent.old + 2 ^ 64 ≤ 2 ^ 128 }
    requires failures { CanRise (W.state writer.old).failures }
    ensures stopped { WaitingStopped progress.old.out.items error (progress.old.lines + 1)
        (step_of (W.state writer.old) (W.state writer.new)) sent.old result }
    ensures same_lines { progress.new.lines ≡ progress.old.lines }
    ensures no_flush { (W.state writer.new).flushes ≡ (W.state writer.old).flushes }
{
    match write_out(writer, &mut progress.out, sent) {
        Ok(()) => StreamFault::Line(progress.lines + 1, error),
        Err(fault) => fault,
    }
}

/// Handles the end of the input: prints the last line if it lacks its LF, writes the output and
/// flushes the writer. Returns the number of lines.
pub fn finish<P: LinePrinter, W: TextOut>(
    printer: &P,
    buffers: &mut P::Buffers,
    progress: &mut StreamState,
    writer: &mut W,
    sent: &mut u128,
) -> Result<u64, StreamFault>
    requires count { progress.old.lines + 1 < 2 ^ 64 }
    requires nothing_waits { progress.old.out.items ≡ [] }
    requires room { sent.old + 2 ^ 65 ≤ 2 ^ 128 }
    requires failures { CanRise (W.state writer.old).failures }
    requires flushes { CanRise (W.state writer.old).flushes }
    ensures finished { IfOk result (λ lines. Stepped (P.line_result printer.now) progress.old.lines
        (last_line progress.old.pending.items) lines
        (step_of (W.state writer.old) (W.state writer.new))
        sent.old sent.new) }
    ensures one_flush { OnOk result
        ((W.state writer.new).flushes ≡ (W.state writer.old).flushes + 1) }
    ensures flushed { OnOk result ((W.state writer.new).unflushed ≡ false) }
    ensures stopped { IfErr result (EndStopped (P.line_result printer.now)
        (IsLastCause (P.line_result printer.now) progress.old.pending.items) progress.old.lines
        (last_line progress.old.pending.items)
        (step_of (W.state writer.old) (W.state writer.new))
        sent.old) }
{
    if let Err(error) = progress.end_input(printer, buffers) {
        return Err(StreamFault::Line(progress.lines + 1, error));
    }
    write_out(writer, &mut progress.out, sent)?;
    match writer.flush_counted() {
        Ok(()) => Ok(progress.lines),
        Err(_) => Err(StreamFault::Write(*sent)),
    }
}
