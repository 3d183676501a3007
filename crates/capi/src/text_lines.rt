//! Segments the lines of a text for C, and returns a pointer to the output.

ghost use Rattle.std.specs.Prelude.{◌≡◌, None, OnOk, IfErr};
ghost use Rattle.line_segmenter.specs.TextLines.{ParsesLines, StopsFor};
ghost use Rattle.capi.specs.Handles.{segmenter_in};
ghost use Rattle.capi.specs.TextLines.{IsLinesError, BorrowsLines, clears, lines_report};

use crate::fault::CallFault;
use crate::handle::Handle;
use crate::queries::BytesForC;
use crate::session::Session;
use line_segmenter::SegmentFault;
use std::alloc::Global;

impl Session {
    /// Writes the output of the lines of `text` to the buffer. Stores in `lines` the number of
    /// lines, or the number of the line with an error.
    fn print_lines(&mut self, text: &[u8], lines: &mut u64) -> Result<(), SegmentFault>
        ensures printed { OnOk result
            (ParsesLines self.old.segmenter text.now lines.new self.new.output.items) }
        ensures stopped { IfErr result (λ fault.
            StopsFor self.old.segmenter text.now lines.new fault self.new.output.items) }
        ensures segmenter { self.new.segmenter ≡ record self.old.segmenter { segmented = None } }
    {
        self.output.clear();
        match self.segmenter.parse_lines(text, &mut self.output) {
            Ok(count) => {
                *lines = count;
                Ok(())
            }
            Err(stopped) => {
                *lines = stopped.line;
                Err(stopped.fault)
            }
        }
    }
}

impl Handle {
    /// Segments the lines of `text`, and returns pointer and length of the output in `out` and
    /// `count`. On an error they hold the output of the lines before it.
    pub fn parse_lines(
        &mut self,
        alloc: Global,
        text: &[u8],
        out: &mut *const u8,
        count: &mut usize,
        lines: &mut u64,
    ) -> Result<(), CallFault>
        ensures printed { OnOk result
            (BorrowsLines (segmenter_in self.old) self.new.slot.value text.now
            (lines_report out.new count.new lines.new)) }
        ensures stopped { IfErr result
            (IsLinesError (segmenter_in self.old) self.new.slot.value text.now
            (lines_report out.old count.old lines.old) (lines_report out.new count.new lines.new)) }
        ensures segmenter { segmenter_in self.new ≡ clears (segmenter_in self.old) }
    {
        let mut session = self.take(alloc).ok_or(CallFault::EmptySegmenter)?;
        let outcome = session.print_lines(text, lines);
        let BytesForC { at, count: length } = session.borrowed();
        *out = at;
        *count = length;
        self.put(session);
        outcome.map_err(CallFault::Segment)
    }
}
