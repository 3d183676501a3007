//! A cell of the double array, and its role by the rules of docs/FORMAT.md.
ghost use Rattle.std.specs.Prelude.{◌≡◌, ℕ, ◌<◌, pos, length, MatchOption};
ghost use Rattle.mj_model.specs.CellMap.{cell_at, check as check_of};
ghost use Rattle.image_format.specs.ImageSections.{stored_cells};
ghost use Rattle.dict_image.specs.Validation.Cells.{number, cell_of, IsDistance};
ghost use Rattle.dict_image.specs.Validation.Checks.{IsCodeOf, IsRoleAfter, IsRoleOf};

use image_format::ImageCells;
use mj_model::cell_walk::CellRead;

/// A signed number.
#[derive(Clone, Copy)]
pub(crate) enum Signed {
    Natural(u32),
    /// The number -(n + 1).
    Negative(u32),
}

/// BASE and CHECK of a cell.
#[derive(Clone, Copy)]
pub(crate) struct Cell {
    pub base: Signed,
    pub check: Signed,
}

/// The role of a cell.
#[derive(Clone, Copy)]
pub(crate) enum Role {
    /// Holds the value of this group.
    Value(u32),
    /// A state, or free.
    Other,
}

/// Returns `z` as a natural number or a negative one.
fn with_sign(z: i32) -> Signed
    ensures { number result ≡ z }
{
    if z >= 0 {
        Signed::Natural(z as u32)
    } else {
        Signed::Negative(-(z + 1) as u32)
    }
}

/// Returns cell `t`.
pub(crate) fn read_cell(cells: &ImageCells<'_>, t: usize) -> Cell
    requires { t < length (stored_cells cells.now.bytes.now) }
    ensures { cell_at (stored_cells cells.now.bytes.now) t ≡ cell_of result }
{
    let (base, check) = cells.cell(t);
    Cell {
        base: with_sign(base),
        check: with_sign(check),
    }
}

/// Returns the role of cell `t`, or None if it breaks the rules of docs/FORMAT.md. `groups` is the
/// number of groups.
pub(crate) fn cell_role(cells: &ImageCells<'_>, groups: u32, t: usize) -> Option<Role>
    requires { t < length (stored_cells cells.now.bytes.now) }
    ensures { IsRoleOf groups (stored_cells cells.now.bytes.now) t result }
{
    let cell = read_cell(cells, t);
    match (cell.base, cell.check) {
        (Signed::Natural(0), Signed::Negative(0)) => Some(Role::Other),
        (base, Signed::Natural(state)) => {
            let code = child_code(cells, state as usize, t)?;
            used_role(groups, code, base)
        }
        (_, Signed::Negative(_)) => None,
    }
}

/// Returns the code of the step from `state`, the CHECK of cell `t`, to cell `t`. Returns None if
/// `state` is not a state or the step is too far.
fn child_code(cells: &ImageCells<'_>, state: usize, t: usize) -> Option<usize>
    requires { check_of (stored_cells cells.now.bytes.now) t ≡ pos state }
    ensures { IsCodeOf (stored_cells cells.now.bytes.now) t result }
{
    if state >= cells.len() {
        return None;
    }
    match read_cell(cells, state).base {
        Signed::Natural(base) => distance(base as usize, t),
        Signed::Negative(_) => None,
    }
}

/// Returns the distance of cell `t` after `base`. Returns None if it is not 0 to 256, or if `base`
/// is 0.
fn distance(base: usize, t: usize) -> Option<usize>
    ensures { MatchOption result ((code : ℕ) → IsDistance base t code → ⊥) (IsDistance base t) }
{
    if base == 0 || t < base || t - base > 256 {
        None
    } else {
        Some(t - base)
    }
}

/// Returns the role of a used cell with this code and BASE, or None if the rules forbid it. Code 0
/// ends a key, so it needs the value of a group below `groups`.
fn used_role(groups: u32, code: usize, base: Signed) -> Option<Role>
    ensures { IsRoleAfter groups code base result }
{
    match base {
        Signed::Negative(value) if code == 0 && value < groups => Some(Role::Value(value)),
        Signed::Natural(next) if code != 0 && next != 0 => Some(Role::Other),
        _ => None,
    }
}
