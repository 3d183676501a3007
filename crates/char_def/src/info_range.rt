//! Ranges of code points with equal categories.
ghost use Rattle.std.specs.Prelude.{◌≡◌, ◌≢◌, ◌≤◌, ◌<◌, ◌++◌, ◌∷◌, [], length, OnOk};
ghost use Rattle.mj_model.specs.CharDef.{code_point_max};
ghost use Rattle.char_def.specs.InfoRanges.{last_info};

use mj_model::{CODE_POINT_MAX, CharInfo};
use std::alloc::AllocError;

/// The categories of the code points from `first` up to the next range.
#[derive(Clone, Copy)]
pub struct CategoryRange {
    pub first: u32,
    pub info: CharInfo,
}

/// Adds a range after the others, unless it has the categories of the last one or starts above all
/// code points.
pub(crate) fn push_range(
    ranges: &mut Vec<CategoryRange>,
    first: u32,
    info: CharInfo,
) -> Result<(), AllocError>
    requires { 1 ≤ length ranges.old.items }
    ensures same { OnOk result (last_info ranges.old.items ≡ info
        → ranges.new.items ≡ ranges.old.items) }
    ensures above { OnOk result (code_point_max < first
        → ranges.new.items ≡ ranges.old.items) }
    ensures added { OnOk result (first ≤ code_point_max → last_info ranges.old.items ≢ info
        → ranges.new.items ≡ ranges.old.items ++ record { first = first; info = info } ∷ []) }
{
    let last = ranges[ranges.len() - 1];
    if last.info != info && first <= CODE_POINT_MAX {
        ranges.push(CategoryRange { first, info })?;
    }
    Ok(())
}
