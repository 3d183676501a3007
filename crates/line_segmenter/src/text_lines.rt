//! Segments and prints the lines of a text.

ghost use Rattle.std.specs.Prelude.{◌≡◌, None, IfOk, IfErr};
ghost use Rattle.line_segmenter.specs.TextLines.{AppendsLines, AppendsSegmentation, AppendsUpTo};

use crate::fault::SegmentFault;
use crate::segmenter::Segmenter;
use out_format::words_printer::WordsPrinter;
use thiserror::Error;

/// The number of the line at which `parse_lines` stopped, counted from 1, and its error.
#[derive(Clone, Copy, Debug, PartialEq, Eq, Drop, Error)]
#[error("line {line}: {fault}")]
pub struct LinesFault {
    pub line: u64,
    pub fault: SegmentFault,
}

impl Segmenter {
    /// Segments each line of `text`, appends its output in the segmenter's format to `out`, and
    /// returns the number of lines.
    ///
    /// A line ends at an LF. The final LF may be missing. Stops at the first line that is too long
    /// or not UTF-8, or if an allocation fails; the output of the lines before it stays in `out`.
    /// Afterwards there is no last line, also on an error.
    pub fn parse_lines(&mut self, text: &[u8], out: &mut Vec<u8>) -> Result<u64, LinesFault>
        // If the result is Ok, it is the number of lines, all lines are valid, and the segmentation
        // of the text was appended: for each line the formatted words of its best path.
        ensures ok { IfOk result
            (AppendsSegmentation self.old text.now out.old.items out.new.items) }
        ensures printed { IfOk result (AppendsLines self.old text.now out.old.items out.new.items) }
        ensures stopped { IfErr result (AppendsUpTo self.old text.now out.old.items out.new.items) }
        ensures cleared { self.new ≡ record self.old { segmented = None } }
    {
        self.print_lines(text, out)
    }

    /// Appends the output of the lines of `text` up to the first error. Returns the number of
    /// lines, or the error with the number of its line.
    fn print_lines(&mut self, text: &[u8], out: &mut Vec<u8>) -> Result<u64, LinesFault>
        ensures printed { IfOk result (AppendsLines self.old text.now out.old.items out.new.items) }
        ensures stopped { IfErr result (AppendsUpTo self.old text.now out.old.items out.new.items) }
        ensures cleared { self.new ≡ record self.old { segmented = None } }
    {
        let printer = WordsPrinter {
            alloc: self.alloc,
            dictionaries: self.dictionaries.with_grouping(self.grouping),
            format: &self.format,
        };
        match self.last.print_lines(&printer, text, out) {
            Ok(lines) => Ok(lines),
            Err(stopped) => Err(LinesFault {
                line: stopped.line,
                fault: SegmentFault::from(stopped.error),
            }),
        }
    }
}
