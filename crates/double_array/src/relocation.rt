//! Relocation: the children of a state move to another base. (Aoe 1989)
ghost use Rattle.std.specs.Prelude.{◌≡◌, ◌≢◌, ℕ, ◌+◌, ◌<◌, ◌≤◌, ◌^◌, max, pos, length};
ghost use Rattle.mj_model.specs.CellMap.{free_cell, cell_at, base as base_of, check as check_of};
ghost use Rattle.double_array.specs.CellMoves.{IsMove};
ghost use Rattle.double_array.specs.Family.{HasCode, FitsAt};
ghost use Rattle.double_array.specs.Built.{MeetsInvariants, AreBases};
ghost use Rattle.double_array.specs.Moved.{children};
ghost use Rattle.double_array.specs.Moves.{IsFamilyOf, IsChildMoved, AreChildrenRenamed, HasChildrenFromBase};

use crate::pool::{CellPool, WIDTH};

/// Returns the codes of the children of `state`, whose base is `from`.
pub(crate) fn family_of(pool: &CellPool, state: usize, from: usize) -> [bool; WIDTH]
    requires within { from + 257 ≤ length pool.now.cells }
    requires few { length pool.now.cells ≤ 2 ^ 30 }
    ensures { IsFamilyOf pool.now.cells state from result }
{
    let mut family = [false; WIDTH];
    for code in 0..WIDTH {
        family[code] = pool.is_child(from + code, state);
    }
    family
}

/// Moves the children of `state` from its base `from` to the base `to`, and returns their number.
///
/// `family` has the codes of the children. They are collected before the move, because a search
/// during it would find moved children again.
pub(crate) fn relocate(
    pool: &mut CellPool,
    state: usize,
    from: usize,
    family: &[bool],
    to: usize,
) -> u32
    requires built { MeetsInvariants pool.old }
    requires based { base_of pool.old.cells state ≡ pos from }
    requires some { 2 ≤ from }
    requires family { IsFamilyOf pool.old.cells state from family.now }
    requires member { (code : ℕ) × HasCode family.now code }
    requires fits { FitsAt pool.old.cells family.now to }
    requires least { 2 ≤ to }
    requires top { to ≤ pool.old.top }
    requires room { pool.old.top + 514 ≤ length pool.old.cells }
    ensures moved { IsMove pool.old.cells pool.new.cells state to }
    ensures bases { AreBases pool.new }
    ensures root { (b : ℕ) × (base_of pool.new.cells 0 ≡ pos b) × (2 ≤ b) }
    ensures top { pool.new.top ≤ pool.old.top + 257 }
    ensures count { result ≡ children pool.old.cells state }
    ensures few { result ≤ 257 }
{
    let mut moved = 0;
    for code in 0..WIDTH {
        if family[code] {
            move_child(pool, state, from + code, to + code);
            moved += 1;
        }
    }
    pool.set_state_base(state, to);
    moved
}

/// Moves the child of `state` in cell `old` to the free cell `new`.
fn move_child(pool: &mut CellPool, state: usize, old: usize, new: usize)
    requires child { check_of pool.old.cells old ≡ pos state }
    requires above { 0 < old }
    requires no_self { state ≢ old }
    requires free { cell_at pool.old.cells new ≡ free_cell }
    requires inner { 2 ≤ new }
    requires room { new + 257 < length pool.old.cells }
    requires few { length pool.old.cells ≤ 2 ^ 30 }
    requires state { state ≤ 2 ^ 30 }
    requires window { HasChildrenFromBase pool.old.cells old }
    requires base { (b : ℕ) → base_of pool.old.cells old ≡ pos b
        → (0 < b) × (b + 257 ≤ length pool.old.cells) }
    ensures moved { IsChildMoved pool.old.cells pool.new.cells state old new }
    ensures top { pool.new.top ≡ max pool.old.top (new + 1) }
{
    let (base, _) = pool.cell(old);
    pool.take_free_cell(new, base, state);
    rename_children(pool, base, old, new);
    pool.release_cell(old);
}

/// Makes the children of cell `old` children of cell `new`. A value cell, whose base is negative,
/// has none.
fn rename_children(pool: &mut CellPool, base: i32, old: usize, new: usize)
    requires apart { old ≢ new }
    requires new { new ≤ 2 ^ 30 }
    requires base { (b : ℕ) → base ≡ pos b → (0 < b) × (b + 257 ≤ length pool.old.cells) }
    requires few { length pool.old.cells ≤ 2 ^ 30 }
    ensures renamed { AreChildrenRenamed base pool.old.cells pool.new.cells old new }
    ensures top { pool.new.top ≡ pool.old.top }
{
    if base >= 0 {
        rename_checks(pool, base as usize, old, new);
    }
}

/// Changes the check from `old` to `new` in the cells from `base` on.
fn rename_checks(pool: &mut CellPool, base: usize, old: usize, new: usize)
    requires apart { old ≢ new }
    requires new { new ≤ 2 ^ 30 }
    requires above { 0 < base }
    requires within { base + 257 ≤ length pool.old.cells }
    requires few { length pool.old.cells ≤ 2 ^ 30 }
    ensures renamed { AreChildrenRenamed (pos base) pool.old.cells pool.new.cells old new }
    ensures top { pool.new.top ≡ pool.old.top }
{
    let family = family_of(pool, old, base);
    for code in 0..WIDTH {
        if family[code] {
            pool.set_check(base + code, new);
        }
    }
}
