//! The categories of each code point.
ghost use Rattle.std.specs.Prelude.{◌∷◌, [], map, IfOk};
ghost use Rattle.char_def.specs.Mapped.{range_categories_by, IsCoverage};

use crate::mapped::MappedRange;
use crate::overlay::{CategoryStep, overlay};
use std::alloc::{AllocError, Global};

/// Returns steps that give each code point the categories of the last range that covers it.
///
/// As in a merge sort, both halves of the ranges are processed separately. The steps of the second
/// half are then laid over those of the first.
pub(crate) fn coverage(
    alloc: Global,
    ranges: &[MappedRange],
) -> Result<Vec<CategoryStep>, AllocError>
    ensures { IfOk result (λ steps. IsCoverage (map range_categories_by ranges.now) steps.items) }
{
    match ranges {
        [] => Ok(Vec::new(alloc)),
        [range] => steps_of(alloc, *range),
        _ => {
            let (earlier, later) = ranges.split_at(ranges.len() / 2);
            let below = coverage(alloc, earlier)?;
            let above = coverage(alloc, later)?;
            overlay(alloc, &below, &above)
        }
    }
}

/// Returns the steps of a single range.
fn steps_of(alloc: Global, range: MappedRange) -> Result<Vec<CategoryStep>, AllocError>
    ensures { IfOk result (λ steps. IsCoverage (range_categories_by range ∷ []) steps.items) }
{
    let mut steps = Vec::with_capacity(alloc, 2)?;
    steps.push(CategoryStep {
        first: range.range.low,
        info: Some(range.info),
    })?;
    steps.push(CategoryStep {
        first: range.range.high + 1,
        info: None,
    })?;
    Ok(steps)
}
