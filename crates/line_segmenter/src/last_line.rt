//! The text that was segmented last, with its best path.

ghost use Rattle.std.specs.Prelude.{◌≡◌, ◌≤◌, length, OnOk, OnErr, IfOk, IfErr, None};
ghost use Rattle.std.specs.Option.{IsSomeAnd};
ghost use Rattle.mj_model.specs.declared.limits.TheConstants.{SENTENCE_MAX};
ghost use Rattle.line_segmenter.specs.Segmenters.{IsSegmentedOver};
ghost use Rattle.line_segmenter.specs.LastLines.{borrowed_if};
ghost use Rattle.line_segmenter.specs.TextLines.{LineResultBy};
ghost use Rattle.line_stream.specs.LinesInMemory.{PrintsLines, StopsAt};
ghost use Rattle.mj_model.specs.Lists.{GrowsBy};
ghost use Rattle.word_lookup.specs.Overlays.{overlay_of};

use line_stream::{StoppedLine, print_lines};
use mj_model::paths::Path;
use out_format::words_printer::{LineBuffers, WordsPrinter};
use std::alloc::{AllocError, Global};
use std::marker::Model;
use std::mem;
use std::string::String;
use word_lookup::Dictionaries;

/// The text that was segmented last and its best path, if there is one, and the buffers of the
/// search, which are reused.
#[derive(Drop)]
pub struct LastLine {
    memory: LineBuffers,
    is_there: bool,
    text: String,
    /// The text that is being segmented.
    next: String,
}

impl Model for LastLine {
    ghost use Rattle.line_segmenter.specs.Segmenters.{SegmentedLine};
    ghost use Rattle.std.specs.Prelude.{Option, string_bytes};

    ghost Value = { Option SegmentedLine };

    ghost use Rattle.line_segmenter.specs.LastLines.{last_line_if};

    ghost view = { λ l. last_line_if l.is_there (string_bytes l.text) l.memory.path };
}

impl LastLine {
    /// Returns a value without a text. Does not allocate.
    pub fn none(alloc: Global) -> LastLine
        ensures { result ≡ None }
    {
        LastLine {
            memory: LineBuffers::new(alloc),
            is_there: false,
            text: String::new(alloc),
            next: String::new(alloc),
        }
    }

    /// Removes the text. The buffers stay for the next one.
    pub fn reset(&mut self)
        ensures { self.new ≡ None }
    {
        self.is_there = false;
    }

    /// Segments `text`, which has at most `SENTENCE_MAX` bytes. On an error the last text stays.
    pub fn segment(&mut self, dictionaries: &Dictionaries<'_>, text: &str) -> Result<(), AllocError>
        requires { length text.now ≤ SENTENCE_MAX }
        ensures segmented { OnOk result (IsSomeAnd self.new (λ c. (c.text ≡ text.now)
            × IsSegmentedOver (overlay_of dictionaries.now) c)) }
        ensures unchanged { OnErr result (self.new ≡ self.old) }
    {
        self.next.clear();
        self.next.push_str(text)?;
        self.memory
            .lattice
            .fill_best(dictionaries, text, &mut self.memory.path)?;
        mem::swap(&mut self.text, &mut self.next);
        self.is_there = true;
        Ok(())
    }

    /// Appends the output of each line of `text`, up to the first error. Uses the buffers, so the
    /// last text is removed.
    pub fn print_lines(
        &mut self,
        printer: &WordsPrinter<'_, '_>,
        text: &[u8],
        out: &mut Vec<u8>,
    ) -> Result<u64, StoppedLine>
        ensures printed { IfOk result (λ lines.
            GrowsBy (PrintsLines (LineResultBy printer.now) text.now lines)
            out.old.items out.new.items) }
        ensures stopped { IfErr result (λ stopped.
            GrowsBy (StopsAt (LineResultBy printer.now) text.now stopped.line stopped.error)
            out.old.items out.new.items) }
        ensures cleared { self.new ≡ None }
    {
        self.reset();
        print_lines(printer, &mut self.memory, text, out)
    }

    /// Returns the last text and its path, or `None`.
    pub fn get(&self) -> Option<(&str, &Path)>
        ensures { borrowed_if result ≡ self.now }
    {
        if self.is_there {
            Some((&self.text, &self.memory.path))
        } else {
            None
        }
    }
}
