//! The doubly linked ring of free cells. The base of a free cell is the index of the next one, and
//! its check is the negated index of the one before. Cell `RING_HEAD` is always on the ring, so
//! that the ring is never empty.
ghost use Rattle.std.specs.Prelude.{◌≡◌, ◌≢◌, ◌^◌, ◌<◌, ◌≤◌, ℕ, pos, neg_ℤ, length, slice_set};
ghost use Rattle.mj_model.specs.CellMap.{free_cell, cell_at, base as base_of, check as check_of};
ghost use Rattle.double_array.specs.Views.{cell_views};
ghost use Rattle.double_array.specs.Ring.{HasLinks, IsRing, AreLinked};

use cells::Cells;

/// The first cell of the ring.
pub(crate) const RING_HEAD: usize = 1;

/// Returns the free cell after the free cell `i`.
pub(crate) fn next(cells: &Cells, i: usize) -> usize
    requires { HasLinks cells.now i }
    ensures { base_of cells.now i ≡ pos result }
{
    cells.get(i).0 as usize
}

/// Returns the free cell before the free cell `i`.
pub(crate) fn before(cells: &Cells, i: usize) -> usize
    requires { HasLinks cells.now i }
    ensures { check_of cells.now i ≡ neg_ℤ (pos result) }
{
    cells.get(i).1.unsigned_abs() as usize
}

/// Sets the free cell after the free cell `i`.
fn set_next(cells: &mut Cells, i: usize, next: usize)
    requires within { i < length cells.old }
    requires few { next ≤ 2 ^ 30 }
    ensures { cells.new ≡ slice_set cells.old i (pos next, check_of cells.old i) }
{
    let (_, before) = cells.get(i);
    cells.set(i, next as i32, before);
}

/// Sets the free cell before the free cell `i`.
fn set_before(cells: &mut Cells, i: usize, before: usize)
    requires within { i < length cells.old }
    requires few { before ≤ 2 ^ 30 }
    ensures { cells.new ≡ slice_set cells.old i (base_of cells.old i, neg_ℤ (pos before)) }
{
    let (next, _) = cells.get(i);
    cells.set(i, next, -(before as i32));
}

/// Makes cell `i` a free cell between the free cells `before` and `next`, which are unchanged.
pub(crate) fn set_links(cells: &mut Cells, i: usize, next: usize, before: usize)
    requires within { i < length cells.old }
    requires few { (next ≤ 2 ^ 30) × (before ≤ 2 ^ 30) }
    ensures { cells.new ≡ slice_set cells.old i (pos next, neg_ℤ (pos before)) }
{
    cells.set(i, next as i32, -(before as i32));
}

/// Makes cell `i` a used cell with this base, to which a step from `state` leads.
pub(crate) fn set_used(cells: &mut Cells, i: usize, base: i32, state: usize)
    requires within { i < length cells.old }
    requires few { state ≤ 2 ^ 30 }
    ensures { cells.new ≡ slice_set cells.old i (base, pos state) }
{
    cells.set(i, base, state as i32);
}

/// Changes the base of cell `i`.
pub(crate) fn change_base(cells: &mut Cells, i: usize, base: i32)
    requires { i < length cells.old }
    ensures { cells.new ≡ slice_set cells.old i (base, check_of cells.old i) }
{
    let (_, check) = cells.get(i);
    cells.set(i, base, check);
}

/// Changes the check of cell `i`.
pub(crate) fn change_check(cells: &mut Cells, i: usize, state: usize)
    requires within { i < length cells.old }
    requires few { state ≤ 2 ^ 30 }
    ensures { cells.new ≡ slice_set cells.old i (base_of cells.old i, pos state) }
{
    let (base, _) = cells.get(i);
    cells.set(i, base, state as i32);
}

/// Removes free cell `i` from the ring, and fills it.
pub(crate) fn take(cells: &mut Cells, i: usize, base: i32, state: usize)
    requires ring { IsRing cells.old }
    requires free { HasLinks cells.old i }
    requires inner { 2 ≤ i }
    requires state { state ≤ 2 ^ 30 }
    requires few { length cells.old ≤ 2 ^ 30 }
    ensures ring { IsRing cells.new }
    ensures links { (j : ℕ) → j ≢ i → HasLinks cells.old j → HasLinks cells.new j }
    ensures seen { cell_views cells.new
        ≡ slice_set (cell_views cells.old) i (base, pos state) }
{
    let next = next(cells, i);
    let before = before(cells, i);
    set_next(cells, before, next);
    set_before(cells, next, before);
    set_used(cells, i, base, state);
}

/// Links cell `i` into the ring, after the free cell `after`.
pub(crate) fn link(cells: &mut Cells, i: usize, after: usize)
    requires ring { IsRing cells.old }
    requires outside { HasLinks cells.old i → ⊥ }
    requires after { HasLinks cells.old after }
    requires above { 0 < i }
    requires within { i < length cells.old }
    requires few { length cells.old ≤ 2 ^ 30 }
    ensures ring { IsRing cells.new }
    ensures links { (j : ℕ) → HasLinks cells.old j → HasLinks cells.new j }
    ensures linked { HasLinks cells.new i }
    ensures others { (j : ℕ) → j ≢ i → (HasLinks cells.old j → ⊥)
        → cell_at cells.new j ≡ cell_at cells.old j }
    ensures seen { cell_views cells.new ≡ slice_set (cell_views cells.old) i free_cell }
{
    let next = next(cells, after);
    set_next(cells, after, i);
    set_links(cells, i, next, after);
    set_before(cells, next, i);
}

/// Links all cells from index `from` on into the ring.
pub(crate) fn link_from(cells: &mut Cells, from: usize)
    requires ring { IsRing cells.old }
    requires linked { AreLinked cells.old from }
    requires free { (i : ℕ) → from ≤ i → cell_at cells.old i ≡ free_cell }
    requires above { 0 < from }
    requires few { length cells.old ≤ 2 ^ 30 }
    ensures ring { IsRing cells.new }
    ensures linked { AreLinked cells.new (length cells.new) }
    ensures links { (j : ℕ) → HasLinks cells.old j → HasLinks cells.new j }
    ensures seen { cell_views cells.new ≡ cell_views cells.old }
{
    for i in from..cells.len() {
        let last = before(cells, RING_HEAD);
        link(cells, i, last);
    }
}
