//! The outcome of a lexicon line.
ghost use Rattle.std.specs.Prelude.{◌≡◌, ℕ, Some, option_map};
ghost use Rattle.mj_model.specs.declared.source_fault.SourceKind.TheVariants.{BadNumber};
ghost use Rattle.mj_model.specs.Lexicon.{Parts, Accepted, row_from, accept_short};
ghost use Rattle.lex_source.specs.Results.{IsAcceptedRecord, IsLineResult, IsRowResult};
ghost use Rattle.lex_source.specs.Spelled.{HasSplit};
ghost use Rattle.lex_source.specs.Steps.{row_with};

use crate::numbers::{context_id, cost};
use crate::parts::{LineParts, split_line};
use mj_model::{Entry, Record, SURFACE_MAX, SourceKind};
use std::alloc::Global;

/// The outcome of a line that is not rejected.
#[derive(Drop)]
pub(crate) enum LineOutcome<'a> {
    Blank,
    /// The line has an empty surface.
    Skipped,
    Accepted(Record<'a>),
}

/// The context ids and the cost of a line.
#[derive(Clone, Copy)]
pub(crate) struct IdsAndCost {
    left: u16,
    right: u16,
    cost: i16,
}

/// Returns the outcome of a line, or why it is rejected.
pub(crate) fn read_line(
    alloc: Global,
    number: u64,
    line: &[u8],
) -> Result<LineOutcome<'_>, SourceKind>
    ensures { IsLineResult number line.now result }
{
    let Some(parts) = split_line(line)? else {
        return Ok(LineOutcome::Blank);
    };
    if parts.surface.raw.is_empty() {
        return Ok(LineOutcome::Skipped);
    }
    Ok(LineOutcome::Accepted(accept(alloc, number, parts)?))
}

/// Returns the record of a line with these parts. A surface above `SURFACE_MAX` bytes is an error.
fn accept<'a>(alloc: Global, number: u64, parts: LineParts<'a>) -> Result<Record<'a>, SourceKind>
    requires { (meant : Parts) × HasSplit parts meant }
    ensures { (meant : Parts) → HasSplit parts.entry meant
        → IsAcceptedRecord (accept_short (row_from number meant)) result }
{
    let made = record_of(alloc, number, parts)?;
    if made.surface.len() > SURFACE_MAX {
        return Err(SourceKind::SurfaceTooLong);
    }
    Ok(made)
}

/// Returns the record of a line with these parts, whatever the length of its surface.
pub(crate) fn record_of<'a>(
    alloc: Global,
    number: u64,
    parts: LineParts<'a>,
) -> Result<Record<'a>, SourceKind>
    requires { (meant : Parts) × HasSplit parts meant }
    ensures { (meant : Parts) → HasSplit parts.entry meant
        → IsRowResult (row_from number meant) result }
{
    let Some(numbers) = ids_and_cost(parts) else {
        return Err(SourceKind::BadNumber);
    };
    let surface = parts.surface.text(alloc)?;
    let IdsAndCost { left, right, cost } = numbers;
    Ok(Record {
        line: number,
        surface,
        entry: Entry {
            left,
            right,
            cost,
            feature: parts.feature,
        },
    })
}

/// Returns the numbers of a line with these parts, or `None` if one is invalid or out of range.
fn ids_and_cost(parts: LineParts) -> Option<IdsAndCost>
    ensures { (number : ℕ) (meant : Parts) → HasSplit parts.entry meant
        → row_from number meant ≡ option_map (row_with number meant) result }
{
    Some(IdsAndCost {
        left: context_id(parts.left.raw.as_bytes())?,
        right: context_id(parts.right.raw.as_bytes())?,
        cost: cost(parts.cost.raw.as_bytes())?,
    })
}
