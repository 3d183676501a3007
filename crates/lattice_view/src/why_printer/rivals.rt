//! Appends the rows of rivals.

ghost use Rattle.std.specs.Prelude.{◌≡◌, ◌++◌, ◌-ℤ◌, IfSome, take, vec_len, flat_map, OnOk};
ghost use Rattle.mj_model.specs.BestOver.{cost_over};
ghost use Rattle.lattice_view.specs.WhyPrinter.ExplainedLines.{AreInLine, IsExplained, IsPrintable, best_of_line, overlay_of_line};
ghost use Rattle.lattice_view.specs.WhyPrinter.Rows.{gap_unless, rival_rows, rows_if_some, step_row};

use crate::why_printer::explained_line::ExplainedLine;
use crate::why_printer::rows::{append_gap, append_step};
use std::alloc::AllocError;
use viterbi::rivals::{PathStep, RivalPath};

/// Appends the rows of a rival, if there is one. On an error a part of them may remain in `out`.
pub fn append_if_some(
    line: &ExplainedLine<'_>,
    rival: &Option<RivalPath>,
    out: &mut Vec<u8>,
) -> Result<(), AllocError>
    requires line { IsExplained line.now }
    requires rival { IfSome rival.now (IsPrintable line.now) }
    ensures appended { OnOk result (out.new.items ≡ out.old.items
        ++ rows_if_some (overlay_of_line line.now) line.now.text.now
        (cost_over (overlay_of_line line.now) (best_of_line line.now)) rival.now) }
    ensures unchanged { take (vec_len out.old) out.new.items ≡ out.old.items }
{
    match rival {
        Some(rival) => append_rival(line, rival, out),
        None => Ok(()),
    }
}

/// Appends the rows of a rival. On an error a part of them may remain in `out`.
fn append_rival(
    line: &ExplainedLine<'_>,
    rival: &RivalPath,
    out: &mut Vec<u8>,
) -> Result<(), AllocError>
    requires line { IsExplained line.now }
    requires rival { IsPrintable line.now rival.now }
    ensures appended { OnOk result (out.new.items ≡ out.old.items
        ++ rival_rows (overlay_of_line line.now) line.now.text.now
        (cost_over (overlay_of_line line.now) (best_of_line line.now)) rival.now) }
    ensures unchanged { take (vec_len out.old) out.new.items ≡ out.old.items }
{
    let by = lost_by(line, rival);
    append_gap_unless(rival.begins, by, out)?;
    append_steps(line, Some(by), &rival.steps, out)?;
    append_gap_unless(rival.ends, by, out)
}

/// Returns by how much a rival lost: its cost minus the cost of the best path.
fn lost_by(line: &ExplainedLine<'_>, rival: &RivalPath) -> i64
    requires line { IsExplained line.now }
    requires rival { IsPrintable line.now rival.now }
    ensures { result ≡ rival.now.cost
        -ℤ cost_over (overlay_of_line line.now) (best_of_line line.now) }
{
    rival.cost - line.path.total
}

/// Appends the row for words that are left out, unless the rival meets the best path there. `by` is
/// what it lost. On an error a part of it may remain in `out`.
fn append_gap_unless(joins: bool, by: i64, out: &mut Vec<u8>) -> Result<(), AllocError>
    ensures appended { OnOk result (out.new.items ≡ out.old.items ++ gap_unless joins by) }
    ensures unchanged { take (vec_len out.old) out.new.items ≡ out.old.items }
{
    if joins {
        return Ok(());
    }
    append_gap(by, out)
}

/// Appends the rows of words on a path. `lost` is what a rival lost, or `None` for the best path.
/// On an error a part of them may remain in `out`.
fn append_steps(
    line: &ExplainedLine<'_>,
    lost: Option<i64>,
    steps: &[PathStep],
    out: &mut Vec<u8>,
) -> Result<(), AllocError>
    requires { AreInLine line.now steps.now }
    ensures appended { OnOk result (out.new.items ≡ out.old.items
        ++ flat_map (step_row (overlay_of_line line.now) line.now.text.now lost) steps.now) }
    ensures unchanged { take (vec_len out.old) out.new.items ≡ out.old.items }
{
    for step in steps {
        append_step(line, lost, step, out)?;
    }
    Ok(())
}
