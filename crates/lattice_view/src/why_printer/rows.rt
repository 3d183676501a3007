//! The rows of the table.

ghost use Rattle.std.specs.Prelude.{◌≡◌, ◌++◌, take, vec_len, OnOk};
ghost use Rattle.lattice.specs.TextOver.{SurfaceLiesIn};
ghost use Rattle.mj_model.specs.BestOver.{cost_over};
ghost use Rattle.lattice_view.specs.WhyPrinter.ExplainedLines.{IsExplained, best_of_line, overlay_of_line};
ghost use Rattle.lattice_view.specs.WhyPrinter.Rows.{eos_row, gap_row, path_cell, step_row, why_heading};
ghost use Rattle.lattice_view.specs.WhyPrinter.LineExplanations.{eos_connection};

use crate::lattice_printer::{Escape, Piece, TAB, append_pieces, cost_or_none};
use crate::why_printer::explained_line::ExplainedLine;
use std::alloc::AllocError;
use viterbi::rivals::PathStep;

/// Returns the heading of the table.
pub fn why_heading() -> &'static [u8]
    ensures { result.now ≡ why_heading }
{
    b"path\tstart\tsurface\tconnection\tcost\ttotal\tlost\tfeature\n"
}

/// Appends the row of a word. `lost` is what a rival lost, or `None` for the best path. On an error
/// a part of it may remain in `out`.
pub fn append_step(
    line: &ExplainedLine<'_>,
    lost: Option<i64>,
    step: &PathStep,
    out: &mut Vec<u8>,
) -> Result<(), AllocError>
    requires { SurfaceLiesIn line.now.text.now step.now.word }
    ensures appended { OnOk result (out.new.items ≡ out.old.items
        ++ step_row (overlay_of_line line.now) line.now.text.now lost step.now) }
    ensures unchanged { take (vec_len out.old) out.new.items ≡ out.old.items }
{
    let word = &step.word;
    append_pieces(
        &[
            Piece::Bytes(path_of(lost)),
            TAB,
            Piece::Count(word.start),
            TAB,
            Piece::Escaped(Escape::Cell, line.surface(word)),
            TAB,
            Piece::Cost(step.connection),
            TAB,
            Piece::Cost(i64::from(word.cost)),
            TAB,
            Piece::Cost(step.total),
            TAB,
            cost_or_none(lost),
            TAB,
            Piece::Escaped(Escape::Cell, line.feature(word).as_bytes()),
            Piece::Bytes(b"\n"),
        ],
        out,
    )
}

/// Returns the name of a row's path.
fn path_of(lost: Option<i64>) -> &'static [u8]
    ensures { result.now ≡ path_cell lost }
{
    match lost {
        Some(_) => b"rival",
        None => b"best",
    }
}

/// Appends the row that replaces words of a rival that are left out. `by` is what the rival lost.
/// On an error a part of it may remain in `out`.
pub fn append_gap(by: i64, out: &mut Vec<u8>) -> Result<(), AllocError>
    ensures appended { OnOk result (out.new.items ≡ out.old.items ++ gap_row by) }
    ensures unchanged { take (vec_len out.old) out.new.items ≡ out.old.items }
{
    append_pieces(
        &[
            Piece::Bytes(b"rival\t\t...\t\t\t\t"),
            Piece::Cost(by),
            Piece::Bytes(b"\t\n"),
        ],
        out,
    )
}

/// Appends the row of EOS. On an error a part of it may remain in `out`.
pub fn append_eos(line: &ExplainedLine<'_>, out: &mut Vec<u8>) -> Result<(), AllocError>
    requires { IsExplained line.now }
    ensures appended { OnOk result (out.new.items ≡ out.old.items ++ eos_row line.now.text.now
        (eos_connection (overlay_of_line line.now) (best_of_line line.now))
        (cost_over (overlay_of_line line.now) (best_of_line line.now))) }
    ensures unchanged { take (vec_len out.old) out.new.items ≡ out.old.items }
{
    append_pieces(
        &[
            Piece::Bytes(b"best\t"),
            Piece::Count(line.text.len()),
            Piece::Bytes(b"\tEOS\t"),
            Piece::Cost(line.eos_connection()),
            Piece::Bytes(b"\t0\t"),
            Piece::Cost(line.path.total),
            Piece::Bytes(b"\t\t\n"),
        ],
        out,
    )
}
