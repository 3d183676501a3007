//! Freeing of the cell for a step that a state lacks.
ghost use Rattle.std.specs.Prelude.{◌≡◌, ◌≢◌, ℕ, ◌+◌, ◌<◌, ◌≤◌, pos, None, length};
ghost use Rattle.mj_model.specs.CellMap.{base as base_of, check as check_of, step as step_of};
ghost use Rattle.double_array.specs.Built.{CanClear, MeetsInvariants, IsCleared};
ghost use Rattle.double_array.specs.Moved.{IsOneMoveOrNone};
ghost use Rattle.double_array.specs.Moves.{HasFamily, IsFamilyOf};

use crate::pool::{CellPool, WIDTH};
use crate::relocation::{family_of, relocate};

/// A state, the free cell `wanted` of its step on a code, and the number of children that were moved to
/// free the cell.
#[derive(Clone, Copy, Debug, Drop)]
pub(crate) struct FreedCell {
    pub state: usize,
    pub wanted: usize,
    pub moved: u32,
}

/// Frees the cell of the step of `state` on `code`. `from` is the base of the state.
///
/// If the cell is a child of another state, the smaller of the two families moves, and the state's
/// own one if both are of equal size. (Aoe 1989)
pub(crate) fn free_target_cell(
    pool: &mut CellPool,
    state: usize,
    from: usize,
    code: usize,
) -> FreedCell
    requires built { MeetsInvariants pool.old }
    requires based { base_of pool.old.cells state ≡ pos from }
    requires least { 2 ≤ from }
    requires code { code ≤ 256 }
    requires none { step_of pool.old.cells state code ≡ None }
    requires room { pool.old.top + 514 ≤ length pool.old.cells }
    ensures cleared { IsCleared pool.old pool.new state code result.state result.wanted }
    ensures moved { IsOneMoveOrNone pool.old.cells pool.new.cells result.moved }
    ensures few { result.moved ≤ 257 }
{
    let wanted = from + code;
    match pool.parent(wanted) {
        None => FreedCell {
            state,
            wanted,
            moved: 0,
        },
        Some(other) => {
            let own = family_of(pool, state, from);
            let others = family_of(pool, other, pool.base(other));
            if size_of(&own) <= size_of(&others) {
                move_own(pool, state, from, code, &own)
            } else {
                move_other(pool, other, &others, state, from, code)
            }
        }
    }
}

/// Moves the children of `state` to a base at which the cell of `code` is free too.
fn move_own(
    pool: &mut CellPool,
    state: usize,
    from: usize,
    code: usize,
    family: &[bool; WIDTH],
) -> FreedCell
    requires can { CanClear pool.old state from code }
    requires none { step_of pool.old.cells state code ≡ None }
    requires used { (s : ℕ) × (check_of pool.old.cells (from + code) ≡ pos s) }
    requires family { IsFamilyOf pool.old.cells state from family.now }
    ensures cleared { IsCleared pool.old pool.new state code result.state result.wanted }
    ensures moved { IsOneMoveOrNone pool.old.cells pool.new.cells result.moved }
    ensures few { result.moved ≤ 257 }
{
    let mut wider = *family;
    wider[code] = true;
    let to = pool.find_free_base(&wider);
    let moved = relocate(pool, state, from, family, to);
    FreedCell {
        state,
        wanted: to + code,
        moved,
    }
}

/// Moves the children of the state `other`, one of which is in the wanted cell. If `state` is one
/// of them, the result has its new number.
fn move_other(
    pool: &mut CellPool,
    other: usize,
    family: &[bool; WIDTH],
    state: usize,
    from: usize,
    code: usize,
) -> FreedCell
    requires can { CanClear pool.old state from code }
    requires used { check_of pool.old.cells (from + code) ≡ pos other }
    requires apart { state ≢ other }
    requires family { HasFamily pool.old.cells other family.now }
    ensures cleared { IsCleared pool.old pool.new state code result.state result.wanted }
    ensures moved { IsOneMoveOrNone pool.old.cells pool.new.cells result.moved }
    ensures few { result.moved ≤ 257 }
{
    let other_from = pool.base(other);
    let to = pool.find_free_base(family);
    let follow = if pool.is_child(state, other) {
        to + (state - other_from)
    } else {
        state
    };
    let moved = relocate(pool, other, other_from, family, to);
    FreedCell {
        state: follow,
        wanted: from + code,
        moved,
    }
}

/// Returns the number of codes in a family.
fn size_of(family: &[bool]) -> usize {
    family.iter().filter(|member| **member).count()
}
