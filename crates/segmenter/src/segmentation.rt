//! Segments text with loaded dictionaries.

ghost use Rattle.std.specs.Prelude.{◌<◌, IfOk};
ghost use Rattle.word_lookup.specs.Overlays.{overlay_of};
ghost use Rattle.mj_model.specs.declared.limits.TheConstants.{READS_MAX as ReadsMax};
ghost use Rattle.mj_model.specs.PathLaws.{CoversTexts};
ghost use Rattle.line_stream.specs.GoodRuns.{IsOkOrMemory, NothingFails};
ghost use Rattle.out_format.specs.PrintedLines.{LineResult};
ghost use Rattle.line_stream.specs.Runs.{MayRun, RunOutcome};
ghost use Rattle.segmenter.specs.Segmentation.{WroteSegmentation};

use line_stream::run_over;
use mj_model::{READS_MAX, RunFault, TextIn, TextOut};
use out_format::Format;
use out_format::words_printer::{LineBuffers, WordsPrinter};
use std::alloc::Global;
use word_lookup::Dictionaries;

/// Segments the text of `reader` line by line and writes the words of each line to `writer` in
/// `format`. Returns the number of lines.
///
/// The lines of one read are processed before the next read. Output of more than 64 KiB is written
/// before the next line is printed. The writer is flushed once, at the end of the input. After an
/// error the caller flushes. The counts of `reader` and `writer` (see `TextIn` and `TextOut`) must
/// be below 2^63 at the start; in a new `Counted` they are 0.
///
/// Fails with `NotUtf8` or `TooLong` at the first invalid line, with `Read`, `Write` or `Memory` if
/// a read, a write or an allocation fails, and with `InputTooLong` if `READS_MAX` reads do not
/// reach the end. Unless it is `Write`, the output of the lines before the error is written.
pub fn segment<R: TextIn, W: TextOut>(
    alloc: Global,
    dictionaries: &Dictionaries<'_>,
    format: &Format,
    reader: &mut R,
    writer: &mut W,
) -> Result<u64, RunFault>
    requires counts { MayRun (R.state reader.old) (W.state writer.old) }
    // Each UTF-8 text has exactly one best path.
    ensures covered { CoversTexts (overlay_of dictionaries.now) }
    // If the result is Ok, the whole text was read, all its lines are valid, and its segmentation
    // was written and flushed once: for each line the formatted words of its best path. If the
    // bytes of the reader or writer are unknown in contracts, as those of a file are, some text has
    // these properties.
    ensures ok { IfOk result (WroteSegmentation (overlay_of dictionaries.now) format.now
        (R.state reader.old) (R.state reader.new) (W.state writer.old) (W.state writer.new)) }
    // For each result: what was read and written, how the run ended, and when the reader is at its
    // end.
    ensures run { RunOutcome (LineResult (overlay_of dictionaries.now) format.now) ReadsMax
        (R.state reader.old) (R.state reader.new) (W.state writer.old) (W.state writer.new) result }
    // If no line is invalid, no call fails and the input ends within the bound, the result is Ok or
    // `Memory`.
    ensures succeeds { NothingFails ReadsMax (R.state reader.old) (R.state reader.new)
        (W.state writer.old) (W.state writer.new) → IsOkOrMemory result }
{
    let printer = WordsPrinter {
        alloc,
        dictionaries: *dictionaries,
        format,
    };
    let mut buffers = LineBuffers::new(alloc);
    Ok(run_over(alloc, &printer, &mut buffers, reader, writer, READS_MAX)?)
}
