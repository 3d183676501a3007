//! A reader that prints warnings and progress while a text is read.

ghost use Rattle.std.specs.Prelude.{◌≡◌, ◌≢◌, ◌++◌, ℕ, List, []};
ghost use Rattle.std.specs.Io.{ReadsAtMost};
ghost use Rattle.jseg_lib.specs.WatchedReader.{HasPrintedAll, HasPrintedDue, HasWatched, IsWatchedRead};

use crate::text_progress::TextProgress;
use crate::text_warnings::TextWarnings;
use mj_model::TextIn;
use programs::{Progress, Reporter};
use std::io::{self, Read};

/// A reader that hands on the reads of `reader` unchanged.
#[derive(Drop)]
pub(crate) struct WatchedReader<'a, R> {
    pub reader: R,
    /// None if no warnings are printed.
    pub warnings: Option<TextWarnings<'a>>,
    /// None if no progress is printed.
    progress: Option<TextProgress<'a>>,
}

impl<'a, R> WatchedReader<'a, R> {
    /// Wraps `reader`, which reads standard input, before its first read.
    pub(crate) fn new(
        rt: &'a HostRuntime,
        reader: R,
        reporter: Reporter<'a>,
        progress: &'a Progress<'a>,
    ) -> WatchedReader<'a, R>
        ensures reader { result.reader ≡ reader }
        ensures watched { HasWatched [] result.warnings }
    {
        let warnings = if reporter.is_interactive() {
            Some(TextWarnings::new(reporter, progress))
        } else {
            None
        };
        WatchedReader {
            reader,
            warnings,
            progress: TextProgress::of_stdin(rt, progress),
        }
    }

    /// Prints what a read with this result gives rise to. `buf` is its buffer.
    fn watch_read(&mut self, read: &io::Result<usize>, buf: &[u8])
        requires bound { ReadsAtMost read.now buf.now }
        ensures unchanged { self.new.reader ≡ self.old.reader }
        ensures watched { IsWatchedRead read.now buf.now self.old.warnings self.new.warnings }
    {
        if let (Ok(count), false) = (read, buf.is_empty()) {
            self.watch(&buf[..*count]);
        }
    }

    /// Prints what the bytes of a read give rise to. A read of no bytes is the end of the text.
    fn watch(&mut self, piece: &[u8])
        ensures unchanged { self.new.reader ≡ self.old.reader }
        ensures watched { (read : List ℕ) → HasWatched read self.old.warnings
            → HasWatched (read ++ piece.now) self.new.warnings }
        ensures due { piece.now ≢ [] → HasPrintedDue self.new.warnings }
        ensures all { piece.now ≡ [] → (text : List ℕ) → HasWatched text self.old.warnings
            → HasPrintedAll text self.new.warnings }
    {
        if let Some(warnings) = &mut self.warnings {
            if piece.is_empty() {
                warnings.end();
            } else {
                warnings.add(piece);
            }
        }
        if let Some(progress) = &mut self.progress {
            progress.add(piece.len());
        }
    }
}

impl<R: Read> Read for WatchedReader<'_, R> {
    ghost use Rattle.std.specs.Io.{ReadsAtMost};
    ghost use Rattle.std.specs.Io.KnownBytes.{ReadConsumes};
    ghost use Rattle.jseg_lib.specs.WatchedReader.{IsWatchedRead};

    // Warnings and progress change nothing of what is read.
    ghost remaining = { λ watched. R.remaining watched.reader };

    fn read(&mut self, buf: &mut [u8]) -> io::Result<usize>
        ensures bound { ReadsAtMost result buf.new }
        ensures bytes { ReadConsumes (R.remaining self.old.reader) (R.remaining self.new.reader)
            result buf.new }
        ensures watched { IsWatchedRead result buf.new self.old.warnings self.new.warnings }
    {
        let result = self.reader.read(buf);
        self.watch_read(&result, buf);
        result
    }
}

impl<R: TextIn> TextIn for WatchedReader<'_, R> {
    ghost use Rattle.std.specs.Prelude.{◌≡◌, ◌+◌, length};
    ghost use Rattle.std.specs.Io.{ReadsAtMost};
    ghost use Rattle.std.specs.Io.KnownBytes.{ReadConsumes};
    ghost use Rattle.mj_model.specs.Counts.{CanRise, end_in, failed_read};
    ghost use Rattle.jseg_lib.specs.WatchedReader.{IsWatchedRead};

    // Each call is one call of the reader.
    ghost state = { λ watched. R.state watched.reader };

    fn read_counted(&mut self, buf: &mut [u8]) -> io::Result<usize>
        requires reads { CanRise (R.state self.old.reader).reads }
        requires ends { CanRise (R.state self.old.reader).ends }
        requires failures { CanRise (R.state self.old.reader).failures }
        ensures bound { ReadsAtMost result buf.new }
        ensures bytes { ReadConsumes (R.state self.old.reader).left (R.state self.new.reader).left
            result buf.new }
        ensures reads { (R.state self.new.reader).reads ≡ (R.state self.old.reader).reads + 1 }
        ensures ends { (R.state self.new.reader).ends
            ≡ (R.state self.old.reader).ends + end_in result (length buf.old) }
        ensures failures { (R.state self.new.reader).failures
            ≡ (R.state self.old.reader).failures + failed_read result }
        ensures watched { IsWatchedRead result buf.new self.old.warnings self.new.warnings }
    {
        let result = self.reader.read_counted(buf);
        self.watch_read(&result, buf);
        result
    }

    fn reads(&self) -> u64 {
        self.reader.reads()
    }

    fn ends(&self) -> u64 {
        self.reader.ends()
    }

    fn failures(&self) -> u64 {
        self.reader.failures()
    }

    ghost left_is_remaining = { λ watched. R.left_is_remaining watched.reader };
}
