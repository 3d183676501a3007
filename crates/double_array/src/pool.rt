//! The cells of a double array, with the free ones on a ring.
ghost use Rattle.std.specs.Prelude.{◌≡◌, ◌≢◌, ◌+◌, ◌<◌, ◌≤◌, ◌^◌, ℕ, pos, max, ◌↔◌, IsTrue, length, slice_get, slice_set, Some, IfOk, OnOk, OnErr};
ghost use Rattle.mj_model.specs.CellMap.{free_cell, cell_at, base as base_of, check as check_of};
ghost use Rattle.double_array.specs.Family.{FitsAt};
ghost use Rattle.double_array.specs.Ring.{HasLinks, IsRing};
ghost use Rattle.double_array.specs.Pool.{IsInUse, IsLowered, IsParent, IsGrown, IsEmpty, IsNew, IsPool};
ghost use Rattle.double_array.specs.Views.{cell_views};

use crate::ring::{RING_HEAD, change_base, change_check, link, link_from, next, set_links, take};
use crate::search::{search_cell, search_family};
use cells::Cells;
use std::alloc::{AllocError, Global};
use std::marker::Model;

/// The number of codes: one for each byte, and one for the end of a key.
pub(crate) const WIDTH: usize = 257;

/// The least base of a state, so that no step leads to cell 0 or to `RING_HEAD`.
pub(crate) const BASE_MIN: usize = 2;

/// The number of cells of a new array, which has room for one family after the top.
const INITIAL_CELLS: usize = 515;

/// Cells of which the free ones are linked in a ring.
///
/// All cells from `top` on are free, and there is room for a family of any codes from there.
/// `start` is the free cell at which the next search for a family starts.
#[derive(Drop)]
pub(crate) struct CellPool {
    pub(crate) cells: Cells,
    pub(crate) top: usize,
    pub(crate) start: usize,
}

impl Model for CellPool {
    ghost use Rattle.double_array.specs.Pool.{Pool, IsPool};

    ghost Value = { Pool };

    ghost use Rattle.double_array.specs.Views.{cell_views};

    ghost view = { λ pool. record { cells = cell_views pool.cells; top = pool.top } };

    ghost invariant = { λ pool. IsPool pool.cells pool.top pool.start };
}

impl CellPool {
    /// Returns a pool of the root and free cells.
    pub(crate) fn new(alloc: Global) -> Result<CellPool, AllocError>
        ensures { IfOk result IsEmpty }
    {
        let cells = new_cells(alloc, INITIAL_CELLS)?;
        Ok(CellPool {
            cells,
            top: WIDTH + 1,
            start: RING_HEAD,
        })
    }

    /// Returns the number of cells.
    pub(crate) fn len(&self) -> usize
        ensures length { result ≡ length self.now.cells }
        ensures few { result ≤ 2 ^ 30 }
    {
        let _ = &self.top;
        self.cells.len()
    }

    /// Returns the index from which on all cells are free.
    pub(crate) fn top(&self) -> usize
        ensures { result ≡ self.now.top }
    {
        self.top
    }

    /// Lowers the top to the end of the used cells, but not below 258.
    pub(crate) fn lower_top(&mut self)
        ensures cells { self.new.cells ≡ self.old.cells }
        ensures low { self.new.top ≤ self.old.top }
        ensures least { 258 ≤ self.new.top }
        ensures last { IsLowered self.new.cells self.new.top }
        ensures beyond { (i : ℕ) → self.new.top ≤ i → cell_at self.new.cells i ≡ free_cell }
    {
        self.top = lowered(&self.cells, self.top, self.start);
    }

    /// Returns cell `i` without its links: a free cell is (0, -1).
    pub(crate) fn cell(&self, i: usize) -> (i32, i32)
        requires { i < length self.now.cells }
        ensures { slice_get self.now.cells i ≡ Some result }
    {
        let (base, check) = self.cells.get(i);
        if i != 0 && check < 0 {
            (0, -1)
        } else {
            (base, check)
        }
    }

    /// Returns whether the check of cell `i` is `state`.
    pub(crate) fn is_child(&self, i: usize, state: usize) -> bool
        requires { i < length self.now.cells }
        ensures { IsTrue result ↔ (check_of self.now.cells i ≡ pos state) }
    {
        let (_, check) = self.cell(i);
        check >= 0 && check as usize == state
    }

    /// Returns the state whose child cell `i` is, if it is one.
    pub(crate) fn parent(&self, i: usize) -> Option<usize>
        requires { i < length self.now.cells }
        ensures { IsParent self.now.cells i result }
    {
        let (_, check) = self.cell(i);
        if check >= 0 {
            Some(check as usize)
        } else {
            None
        }
    }

    /// Returns the base of `state`.
    pub(crate) fn base(&self, state: usize) -> usize
        requires within { state < length self.now.cells }
        requires state { (b : ℕ) × (base_of self.now.cells state ≡ pos b) }
        ensures { base_of self.now.cells state ≡ pos result }
    {
        let (base, _) = self.cell(state);
        base as usize
    }

    /// Removes free cell `i` from the ring, and fills it.
    pub(crate) fn take_free_cell(&mut self, i: usize, base: i32, state: usize)
        requires free { cell_at self.old.cells i ≡ free_cell }
        requires inner { 2 ≤ i }
        requires room { i + 257 < length self.old.cells }
        requires state { state ≤ 2 ^ 30 }
        ensures cells { self.new.cells ≡ slice_set self.old.cells i (base, pos state) }
        ensures top { self.new.top ≡ max self.old.top (i + 1) }
    {
        self.start = start_without(&self.cells, self.start, i);
        take(&mut self.cells, i, base, state);
        self.top = self.top.max(i + 1);
    }

    /// Puts used cell `i` back on the ring.
    pub(crate) fn release_cell(&mut self, i: usize)
        requires above { 0 < i }
        requires used { (s : ℕ) × (check_of self.old.cells i ≡ pos s) }
        ensures cells { self.new.cells ≡ slice_set self.old.cells i free_cell }
        ensures top { self.new.top ≡ self.old.top }
    {
        link(&mut self.cells, i, RING_HEAD);
    }

    /// Changes the base of cell `i`, which is the root or used.
    pub(crate) fn set_base(&mut self, i: usize, base: i32)
        requires used { IsInUse self.old.cells i }
        requires within { i < length self.old.cells }
        ensures cells { self.new.cells
            ≡ slice_set self.old.cells i (base, check_of self.old.cells i) }
        ensures top { self.new.top ≡ self.old.top }
    {
        change_base(&mut self.cells, i, base);
    }

    /// Makes cell `i`, which is the root or used, a state with this base.
    pub(crate) fn set_state_base(&mut self, i: usize, base: usize)
        requires used { IsInUse self.old.cells i }
        requires within { i < length self.old.cells }
        requires few { base ≤ 2 ^ 30 }
        ensures cells { self.new.cells
            ≡ slice_set self.old.cells i (pos base, check_of self.old.cells i) }
        ensures top { self.new.top ≡ self.old.top }
    {
        self.set_base(i, base as i32);
    }

    /// Changes the check of used cell `i`.
    pub(crate) fn set_check(&mut self, i: usize, state: usize)
        requires above { 0 < i }
        requires used { (s : ℕ) × (check_of self.old.cells i ≡ pos s) }
        requires state { state ≤ 2 ^ 30 }
        ensures cells { self.new.cells
            ≡ slice_set self.old.cells i (base_of self.old.cells i, pos state) }
        ensures top { self.new.top ≡ self.old.top }
    {
        change_check(&mut self.cells, i, state);
    }

    /// Returns a base of at least 2 from which the cell of `code` is free and at most the top.
    pub(crate) fn find_free_cell(&self, code: usize) -> usize
        requires { code ≤ 256 }
        ensures least { 2 ≤ result }
        ensures top { result + code ≤ self.now.top }
        ensures free { cell_at self.now.cells (result + code) ≡ free_cell }
    {
        search_cell(&self.cells, self.top, self.start, code)
    }

    /// Returns a base of at least 2 and at most the top, from which the cells of all codes of a
    /// family are free.
    pub(crate) fn find_free_base(&mut self, family: &[bool]) -> usize
        requires { length family.now ≡ 257 }
        ensures unchanged { self.new ≡ self.old }
        ensures least { 2 ≤ result }
        ensures top { result ≤ self.old.top }
        ensures free { FitsAt self.old.cells family.now result }
    {
        let found = search_family(&self.cells, self.top, self.start, family);
        self.start = found.start;
        found.base
    }

    /// Appends free cells up to a total of `n` cells. On an error nothing changes.
    pub(crate) fn grow(&mut self, n: usize) -> Result<(), AllocError>
        requires more { length self.old.cells ≤ n }
        requires few { n ≤ 2 ^ 30 }
        ensures grown { OnOk result (IsGrown self.old.cells self.new.cells n) }
        ensures top { OnOk result (self.new.top ≡ self.old.top) }
        ensures unchanged { OnErr result (self.new ≡ self.old) }
    {
        let from = self.cells.len();
        self.cells.grow(n)?;
        link_from(&mut self.cells, from);
        Ok(())
    }
}

/// Returns a free cell other than `i`: `start`, or the one after it.
fn start_without(cells: &Cells, start: usize, i: usize) -> usize
    requires ring { IsRing cells.now }
    requires start { HasLinks cells.now start }
    requires inner { 2 ≤ i }
    ensures links { HasLinks cells.now result }
    ensures apart { result ≢ i }
{
    if start == i {
        next(cells, start)
    } else {
        start
    }
}

/// Returns the end of the used cells below `top`, but at least 258.
fn lowered(cells: &Cells, top: usize, start: usize) -> usize
    requires { IsPool cells.now top start }
    ensures pool { IsPool cells.now result start }
    ensures low { result ≤ top }
    ensures last { IsLowered (cell_views cells.now) result }
{
    let mut top = top;
    while top > WIDTH + 1 && cells.get(top - 1).1 < 0 {
        top -= 1;
    }
    top
}

/// Returns `n` cells: the root without children, and free cells on the ring.
fn new_cells(alloc: Global, n: usize) -> Result<Cells, AllocError>
    requires some { 2 ≤ n }
    requires few { n ≤ 2 ^ 30 }
    ensures { IfOk result (λ cells. IsNew cells n) }
{
    let mut cells = Cells::new(alloc, n)?;
    cells.set(0, BASE_MIN as i32, -2);
    set_links(&mut cells, RING_HEAD, RING_HEAD, RING_HEAD);
    link_from(&mut cells, RING_HEAD + 1);
    Ok(cells)
}
