//! Prints why one line is segmented as it is.

ghost use Rattle.std.specs.Prelude.{◌≡◌, ◌++◌, Some, slice_get, take, vec_len, OnOk};
ghost use Rattle.mj_model.specs.Lists.{GrowsBy};
ghost use Rattle.viterbi.specs.Rivals.RivalsState.{AreRivalsIn};
ghost use Rattle.lattice_view.specs.WhyPrinter.ExplainedLines.{IsExplained, best_of_line, overlay_of_line, steps_of_line, text_of_line};
ghost use Rattle.lattice_view.specs.WhyPrinter.Rows.{why_heading};
ghost use Rattle.lattice_view.specs.WhyPrinter.LineExplanations.{IsLineExplanation, PrintsStep, PrintsSteps, end_of};

use crate::lattice_printer::{Piece, append_pieces};
use crate::why_printer::explained_line::ExplainedLine;
use crate::why_printer::rivals::append_if_some;
use crate::why_printer::rows::{append_eos, append_step, why_heading};
use std::alloc::{AllocError, Global};
use viterbi::rivals::{PathStep, Rivals};

/// A line with its best path and the rivals of its words.
#[derive(Drop)]
pub struct LineExplanation<'a> {
    pub alloc: Global,
    pub line: &'a ExplainedLine<'a>,
    pub rivals: &'a Rivals,
}

impl<'a> LineExplanation<'a> {
    /// Appends the table of the line. On an error a part of it may remain in `out`.
    pub fn append(&self, out: &mut Vec<u8>) -> Result<(), AllocError>
        requires line { IsExplained self.now.line.now }
        requires rivals { AreRivalsIn (text_of_line self.now.line.now)
            (best_of_line self.now.line.now) self.now.rivals.now }
        ensures appended { OnOk result
            (GrowsBy (IsLineExplanation (overlay_of_line self.now.line.now)
            self.now.line.now.text.now (best_of_line self.now.line.now))
            out.old.items out.new.items) }
        ensures unchanged { take (vec_len out.old) out.new.items ≡ out.old.items }
    {
        append_heading(out)?;
        self.append_words(out)?;
        append_end(self.line, out)
    }

    /// Appends the words of the best path, each with its rival. On an error a part of them may
    /// remain in `out`.
    fn append_words(&self, out: &mut Vec<u8>) -> Result<(), AllocError>
        requires line { IsExplained self.now.line.now }
        requires rivals { AreRivalsIn (text_of_line self.now.line.now)
            (best_of_line self.now.line.now) self.now.rivals.now }
        ensures appended { OnOk result (GrowsBy (PrintsSteps
            (PrintsStep (overlay_of_line self.now.line.now) self.now.line.now.text.now
            (best_of_line self.now.line.now)) (steps_of_line self.now.line.now))
            out.old.items out.new.items) }
        ensures unchanged { take (vec_len out.old) out.new.items ≡ out.old.items }
    {
        let steps = self.rivals.steps();
        for number in 0..steps.len() {
            self.append_word(number, &steps[number], out)?;
        }
        Ok(())
    }

    /// Appends word `number` of the best path, and its rival. On an error a part of them may remain
    /// in `out`.
    fn append_word(
        &self,
        number: usize,
        step: &PathStep,
        out: &mut Vec<u8>,
    ) -> Result<(), AllocError>
        requires line { IsExplained self.now.line.now }
        requires rivals { AreRivalsIn (text_of_line self.now.line.now)
            (best_of_line self.now.line.now) self.now.rivals.now }
        requires step { slice_get (steps_of_line self.now.line.now) number ≡ Some step.now }
        ensures appended { OnOk result (GrowsBy (PrintsStep (overlay_of_line self.now.line.now)
            self.now.line.now.text.now (best_of_line self.now.line.now) step.now)
            out.old.items out.new.items) }
        ensures unchanged { take (vec_len out.old) out.new.items ≡ out.old.items }
    {
        append_step(self.line, None, step, out)?;
        let rival = self.rivals.rival(self.alloc, number)?;
        append_if_some(self.line, &rival, out)
    }
}

/// Appends the heading. On an error a part of it may remain in `out`.
fn append_heading(out: &mut Vec<u8>) -> Result<(), AllocError>
    ensures appended { OnOk result (out.new.items ≡ out.old.items ++ why_heading) }
    ensures unchanged { take (vec_len out.old) out.new.items ≡ out.old.items }
{
    out.extend_from_slice(why_heading())
}

/// Appends the row of EOS and an empty line. On an error a part of them may remain in `out`.
fn append_end(line: &ExplainedLine<'_>, out: &mut Vec<u8>) -> Result<(), AllocError>
    requires { IsExplained line.now }
    ensures appended { OnOk result (out.new.items ≡ out.old.items
        ++ end_of (overlay_of_line line.now) line.now.text.now (best_of_line line.now)) }
    ensures unchanged { take (vec_len out.old) out.new.items ≡ out.old.items }
{
    append_eos(line, out)?;
    append_pieces(&[Piece::Bytes(b"\n")], out)
}
