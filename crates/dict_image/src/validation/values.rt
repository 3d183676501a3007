//! Tests of the double array: its cells follow the rules, and hold each group once.
ghost use Rattle.std.specs.Prelude.{◌≡◌, ◌+◌, ◌*◌, ◌/◌, ◌^◌, ◌<◌, ◌≤◌, ◌↔◌, false, length, IsTrue, IfOk, MatchOption};
ghost use Rattle.image_format.specs.ImageSections.{HoldGroups, stored_cells};
ghost use Rattle.dict_image.specs.Validation.Checks.{HoldEachAt, HoldGroupsAt};
ghost use Rattle.dict_image.specs.Validation.Values.{IsRoot, HoldEach, IsScanned};

use crate::validation::cell::{Role, Signed, cell_role, read_cell};
use cells::CELLS_MAX;
use image_format::ImageCells;
use mj_model::cell_walk::CellRead;
use std::alloc::{AllocError, Global};

/// Returns for each group the number of the cell that holds its value. Returns None if the bytes
/// are not cells that follow the rules and hold each group once.
pub(crate) fn value_places(
    alloc: Global,
    groups: u32,
    bytes: &[u8],
) -> Result<Option<Vec<u32>>, AllocError>
    ensures { IfOk result (λ found. MatchOption found (HoldGroups groups bytes.now → ⊥)
        (λ places. HoldGroupsAt groups bytes.now places.items)) }
{
    if bytes.len() % 8 != 0 || bytes.is_empty() || bytes.len() / 8 > CELLS_MAX {
        return Ok(None);
    }
    let cells = ImageCells { bytes };
    if groups as usize > cells.len() || !is_root(&cells) {
        return Ok(None);
    }
    scan(alloc, groups, &cells)
}

/// Returns whether cell 0 is a root: CHECK -2, and a BASE of at least 0.
fn is_root(cells: &ImageCells<'_>) -> bool
    requires { 0 < length (stored_cells cells.now.bytes.now) }
    ensures { IsTrue result ↔ IsRoot (stored_cells cells.now.bytes.now) }
{
    let root = read_cell(cells, 0);
    matches!(
        (root.base, root.check),
        (Signed::Natural(_), Signed::Negative(1))
    )
}

/// Tests each cell after the root in one pass. Returns the cell of each group's value, or None.
fn scan(alloc: Global, groups: u32, cells: &ImageCells<'_>) -> Result<Option<Vec<u32>>, AllocError>
    requires root { IsRoot (stored_cells cells.now.bytes.now) }
    requires few { length (stored_cells cells.now.bytes.now) ≤ 2 ^ 30 }
    ensures { IfOk result (λ found. MatchOption found
        (HoldEach groups (stored_cells cells.now.bytes.now) → ⊥)
        (λ places. HoldEachAt groups (stored_cells cells.now.bytes.now) places.items)) }
{
    let mut places = Vec::from_elem(alloc, 0, groups as usize)?;
    for t in 1..cells.len() {
        if !check_cell(cells, groups, t, &mut places) {
            return Ok(None);
        }
    }
    if places.contains(&0) {
        return Ok(None);
    }
    Ok(Some(places))
}

/// Tests cell `t`, and stores it in `places` if it holds the value of a group. Returns false if the
/// cell breaks the rules, or its value occurred before. In `places`, 0 means that the value was not
/// found yet, because cell 0 holds none.
fn check_cell(cells: &ImageCells<'_>, groups: u32, t: usize, places: &mut [u32]) -> bool
    requires root { IsRoot (stored_cells cells.now.bytes.now) }
    requires positive { 0 < t }
    requires within { t < length (stored_cells cells.now.bytes.now) }
    requires few { length (stored_cells cells.now.bytes.now) ≤ 2 ^ 30 }
    requires scanned { IsScanned groups (stored_cells cells.now.bytes.now) t places.old }
    ensures scanned { IsTrue result
        → IsScanned groups (stored_cells cells.now.bytes.now) (t + 1) places.new }
    ensures rejected { result ≡ false → HoldEach groups (stored_cells cells.now.bytes.now) → ⊥ }
{
    match cell_role(cells, groups, t) {
        None => false,
        Some(Role::Other) => true,
        Some(Role::Value(group)) => {
            let place = &mut places[group as usize];
            let is_first = *place == 0;
            *place = t as u32;
            is_first
        }
    }
}
