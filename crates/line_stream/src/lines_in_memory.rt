//! Printing the lines of a text that is in memory as a whole.

ghost use Rattle.std.specs.Prelude.{◌≡◌, ◌+◌, ◌<◌, ◌^◌, Err, OnOk, OnErr, IfOk, IfErr};
ghost use Rattle.mj_model.specs.Lists.{GrowsBy};
ghost use Rattle.line_stream.specs.GoodLines.{IsGood};
ghost use Rattle.line_stream.specs.LineErrors.{ReportsFault};
ghost use Rattle.line_stream.specs.LinesInMemory.{PrintsLines, StopsAt};
ghost use Rattle.line_stream.specs.StreamState.{IsPrinted};
ghost use Rattle.line_stream.specs.declared.line_fault.LineError.TheVariants.{Memory};

use crate::line_fault::LineError;
use crate::line_printer::LinePrinter;
use crate::piece::split_at_feed;
use crate::stream_state::print_line;
use memchr::memchr;

/// The number of the line at which `print_lines` stopped, counted from 1, and the error.
#[derive(Clone, Copy, Debug, PartialEq, Eq, Drop)]
pub struct StoppedLine {
    pub line: u64,
    pub error: LineError,
}

/// Prints `line`, and adds 1 to `lines`, the number of lines so far.
fn print_next_line<P: LinePrinter>(
    printer: &P,
    buffers: &mut P::Buffers,
    line: &[u8],
    lines: &mut u64,
    out: &mut Vec<u8>,
) -> Result<(), StoppedLine>
    requires count { lines.old + 1 < 2 ^ 64 }
    ensures printed { OnOk result (IsPrinted (P.line_result printer.now) line.now
        out.old.items out.new.items) }
    ensures counted { OnOk result (lines.new ≡ lines.old + 1) }
    ensures number { IfErr result (λ stopped. stopped.line ≡ lines.old + 1) }
    ensures bad { IfErr result (λ stopped.
        ReportsFault (λ fault. P.line_result printer.now line.now (Err fault)) stopped.error) }
    ensures good { IfErr result (λ stopped. stopped.error ≡ Memory → IsGood line.now) }
    ensures unchanged { OnErr result (out.new.items ≡ out.old.items) }
{
    *lines += 1;
    match print_line(printer, buffers, line, out) {
        Ok(()) => Ok(()),
        Err(error) => Err(StoppedLine {
            line: *lines,
            error,
        }),
    }
}

/// Appends the output of each line of `text`, up to the first line with an error. Returns the
/// number of lines.
///
/// A line ends at an LF. The last line may lack it.
pub fn print_lines<P: LinePrinter>(
    printer: &P,
    buffers: &mut P::Buffers,
    text: &[u8],
    out: &mut Vec<u8>,
) -> Result<u64, StoppedLine>
    ensures printed { IfOk result (λ lines.
        GrowsBy (PrintsLines (P.line_result printer.now) text.now lines)
        out.old.items out.new.items) }
    ensures stopped { IfErr result (λ stopped.
        GrowsBy (StopsAt (P.line_result printer.now) text.now stopped.line stopped.error)
        out.old.items out.new.items) }
{
    let mut lines = 0;
    let mut rest = text;
    while let Some(at) = memchr(b'\n', rest) {
        let (line, following) = split_at_feed(rest, at);
        print_next_line(printer, buffers, line, &mut lines, out)?;
        rest = following;
    }
    if !rest.is_empty() {
        print_next_line(printer, buffers, rest, &mut lines, out)?;
    }
    Ok(lines)
}
