//! Prints why each line is segmented as it is.

use crate::why_printer::explained_line::ExplainedLine;
use crate::why_printer::line_explanation::LineExplanation;
use lattice::{LineBuffers, rivals_over};
use line_stream::{Appended, LinePrinter};
use std::alloc::Global;
use word_lookup::Dictionaries;

/// A `LinePrinter` that prints the best path of each line and the rivals of its words. The rivals
/// of a line allocate memory linear in its lattice.
#[derive(Drop)]
pub struct WhyPrinter<'d> {
    pub alloc: Global,
    pub dictionaries: Dictionaries<'d>,
}

impl<'d> LinePrinter for WhyPrinter<'d> {
    ghost use Rattle.lattice_view.specs.WhyPrinter.PrintedWhy.{WhyLineResult};
    ghost use Rattle.word_lookup.specs.Overlays.{overlay_of};

    type Buffers = LineBuffers;

    ghost line_result = { λ p. WhyLineResult (overlay_of p.dictionaries) };

    fn append_line(&self, buffers: &mut LineBuffers, text: &str, out: &mut Vec<u8>) -> Appended {
        let dictionaries = &self.dictionaries;
        buffers
            .lattice
            .fill_best(dictionaries, text, &mut buffers.path)?;
        let rivals = rivals_over(self.alloc, dictionaries, text, &buffers.path.words)?;
        let line = ExplainedLine {
            dictionaries,
            text,
            path: &buffers.path,
        };
        let sheet = LineExplanation {
            alloc: self.alloc,
            line: &line,
            rivals: &rivals,
        };
        sheet.append(out)
    }

    ghost too_long = { λ p line h. h };

    ghost not_utf8 = { λ p line h. h };
}
