//! Prints the best path of each line.

use crate::{Format, print_words};
use lattice::{DictionaryText, LineBuffers};
use line_stream::{Appended, LinePrinter};
use std::alloc::Global;
use word_lookup::Dictionaries;

/// A `LinePrinter` that prints the words of the best path of each line: the dictionaries that
/// segment it, and the format.
#[derive(Drop)]
pub struct WordsPrinter<'d, 'f> {
    pub alloc: Global,
    pub dictionaries: Dictionaries<'d>,
    pub format: &'f Format,
}

impl<'d, 'f> LinePrinter for WordsPrinter<'d, 'f> {
    ghost use Rattle.out_format.specs.PrintedLines.{LineResult};
    ghost use Rattle.word_lookup.specs.Overlays.{overlay_of};

    type Buffers = LineBuffers;

    ghost line_result = { λ p. LineResult (overlay_of p.dictionaries) p.format.now };

    fn append_line(&self, buffers: &mut LineBuffers, text: &str, out: &mut Vec<u8>) -> Appended {
        let line = DictionaryText {
            dictionaries: &self.dictionaries,
            text,
        };
        let found = buffers.lattice.find_best(&line)?;
        print_words(
            self.format,
            &self.dictionaries,
            text,
            found.words,
            found.total,
            out,
        )
    }

    ghost too_long = { λ p line h. h };

    ghost not_utf8 = { λ p line h. h };
}
