//! The state of a run between two reads.

ghost use Rattle.std.specs.Prelude.{◌≡◌, ◌+◌, ◌<◌, ◌≤◌, ◌^◌, ◌++◌, length, Err, OnOk, IfErr, OnErr, []};
ghost use Rattle.mj_model.specs.declared.limits.TheConstants.{SENTENCE_MAX};
ghost use Rattle.line_stream.specs.GoodLines.{IsGood};
ghost use Rattle.line_stream.specs.LineErrors.{ReportsFault, ReportsOr};
ghost use Rattle.line_stream.specs.declared.line_fault.LineError.TheVariants.{Memory};
ghost use Rattle.line_stream.specs.declared.line_fault.LineFault.TheVariants.{TooLong};
ghost use Rattle.line_stream.specs.StreamState.{IsPrinted, Processed};
ghost use Rattle.line_stream.specs.Steps.{last_line, IsLastCause};

use crate::line_fault::{LineError, LineFault};
use crate::line_printer::LinePrinter;
use crate::text::text_of;
use mj_model::SENTENCE_MAX;
use std::alloc::AllocError;

/// The state of a run between two reads.
#[derive(Debug, Drop)]
pub struct StreamState {
    /// The bytes after the last LF so far: the start of the next line.
    pub pending: Vec<u8>,
    /// Output that has not been written yet.
    pub out: Vec<u8>,
    /// The number of lines printed so far.
    pub lines: u64,
}

/// Appends the output of the line `text`. On an error `out` is unchanged.
fn print_text<P: LinePrinter>(
    printer: &P,
    buffers: &mut P::Buffers,
    text: &str,
    out: &mut Vec<u8>,
) -> Result<(), AllocError>
    requires { length text.now ≤ SENTENCE_MAX }
    ensures printed { OnOk result (IsPrinted (P.line_result printer.now) text.now
        out.old.items out.new.items) }
    ensures unchanged { OnErr result (out.new.items ≡ out.old.items) }
{
    let count = out.len();
    let shown = printer.append_line(buffers, text, out);
    if shown.is_err() {
        out.truncate(count);
    }
    shown
}

/// Appends the output of `line`, which may be any bytes: checks its length and UTF-8 first. On an
/// error `out` is unchanged.
pub fn print_line<P: LinePrinter>(
    printer: &P,
    buffers: &mut P::Buffers,
    line: &[u8],
    out: &mut Vec<u8>,
) -> Result<(), LineError>
    ensures printed { OnOk result (IsPrinted (P.line_result printer.now) line.now
        out.old.items out.new.items) }
    ensures bad { IfErr result
        (ReportsFault (λ fault. P.line_result printer.now line.now (Err fault))) }
    ensures good { IfErr result (λ error. error ≡ Memory → IsGood line.now) }
    ensures unchanged { OnErr result (out.new.items ≡ out.old.items) }
{
    match text_of(line) {
        Ok(text) => Ok(print_text(printer, buffers, text, out)?),
        Err(fault) => Err(LineError::Bad(fault)),
    }
}

/// Appends `part` to the bytes of an unfinished line. Fails if the line would be longer than
/// `SENTENCE_MAX`.
pub fn append_pending(pending: &mut Vec<u8>, part: &[u8]) -> Result<(), LineError>
    ensures pending { OnOk result (pending.new.items ≡ pending.old.items ++ part.now) }
    ensures short { OnOk result (length pending.new.items ≤ SENTENCE_MAX) }
    ensures long { IfErr result (ReportsOr
        ((0 < length part.now) × (length (pending.old.items ++ part.now) ≤ SENTENCE_MAX))
        (λ fault.
        (fault ≡ TooLong) × (SENTENCE_MAX < length (pending.old.items ++ part.now)))) }
{
    if part.len() > SENTENCE_MAX || pending.len() > SENTENCE_MAX - part.len() {
        return Err(LineError::Bad(LineFault::TooLong));
    }
    if !part.is_empty() {
        pending.extend_from_slice(part)?;
    }
    Ok(())
}

impl StreamState {
    /// Prints the line that consists of the pending bytes and `part`.
    pub fn end_line<P: LinePrinter>(
        &mut self,
        printer: &P,
        buffers: &mut P::Buffers,
        part: &[u8],
    ) -> Result<(), LineError>
        requires count { self.old.lines + 1 < 2 ^ 64 }
        ensures printed { OnOk result (IsPrinted (P.line_result printer.now)
            (self.old.pending.items ++ part.now)
            self.old.out.items self.new.out.items) }
        ensures counted { OnOk result (self.new.lines ≡ self.old.lines + 1) }
        ensures ended { OnOk result (self.new.pending.items ≡ []) }
        ensures bad { IfErr result
            (ReportsOr (length (self.old.pending.items ++ part.now) ≤ SENTENCE_MAX)
            (λ fault. P.line_result printer.now (self.old.pending.items ++ part.now) (Err fault))) }
        ensures unchanged { OnErr result
            ((self.new.out.items ≡ self.old.out.items) × (self.new.lines ≡ self.old.lines)) }
    {
        if self.pending.is_empty() {
            print_line(printer, buffers, part, &mut self.out)?;
        } else {
            append_pending(&mut self.pending, part)?;
            print_line(printer, buffers, &self.pending, &mut self.out)?;
            self.pending.clear();
        }
        self.lines += 1;
        Ok(())
    }

    /// Prints the last line if it lacks its LF.
    pub fn end_input<P: LinePrinter>(
        &mut self,
        printer: &P,
        buffers: &mut P::Buffers,
    ) -> Result<(), LineError>
        requires count { self.old.lines + 1 < 2 ^ 64 }
        ensures processed { OnOk result
            (Processed (P.line_result printer.now) self.old.lines self.old.out.items
            (last_line self.old.pending.items) self.new.lines self.new.out.items) }
        ensures stopped { IfErr result
            (IsLastCause (P.line_result printer.now) self.old.pending.items []) }
        ensures unchanged { OnErr result
            ((self.new.out.items ≡ self.old.out.items) × (self.new.lines ≡ self.old.lines)) }
    {
        if self.pending.is_empty() {
            return Ok(());
        }
        self.end_line(printer, buffers, b"")
    }
}
