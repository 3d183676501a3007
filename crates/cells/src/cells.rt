//! The cells: a list of pairs that grows at its end.
ghost use Rattle.std.specs.Prelude.{◌≡◌, ℤ, ◌-◌, ◌≤◌, ◌<◌, ◌++◌, List, length, take, slice_get, slice_set, Some, IsOk, IfOk, OnOk, OnErr};
ghost use Rattle.core.specs.Mem.Slots.{slots_items};
ghost use Rattle.cells.specs.Cells.{free_cells};
ghost use Rattle.cells.specs.CellBlock.{IsCellBlock};

use crate::block::{allocate_block, free_block};
use crate::row::{fill, move_to_block};
use crate::token::FreeToken;
use core::slots::Slots;
use std::alloc::{AllocError, Global};
use std::marker::Model;
use std::mem::replace;

/// The maximum number of cells of one list. (This project's own choice)
pub const CELLS_MAX: usize = 1 << 30;

/// The contents of a cell that was never set: base 0, check -1.
const FREE: (i32, i32) = (0, -1);

/// Cells of 8 bytes each, stored contiguously in one block, which is freed on drop.
pub struct Cells {
    length: usize,
    row: Slots<(i32, i32)>,
    token: FreeToken<(i32, i32), Global>,
    alloc: Global,
}

impl Model for Cells {
    ghost Value = { List (ℤ × ℤ) };

    ghost view = { λ c. take c.length (slots_items c.row) };

    ghost invariant = { λ c. IsCellBlock c.length c.row c.token c.alloc };
}

impl Cells {
    /// Allocates `n` free cells.
    pub fn new(alloc: Global, n: usize) -> Result<Cells, AllocError>
        requires some { 1 ≤ n }
        requires few { n ≤ CELLS_MAX }
        ensures { IfOk result (λ cells. cells ≡ free_cells n) }
    {
        let (mut row, token) = allocate_block(&alloc, n, &FREE)?;
        fill(&mut row, 0, n, FREE);
        Ok(Cells {
            length: n,
            row,
            token,
            alloc,
        })
    }

    /// Returns the number of cells.
    pub fn len(&self) -> usize
        ensures length { result ≡ length self.now }
        ensures few { result ≤ CELLS_MAX }
    {
        self.length
    }

    /// Returns the base and the check of cell `i`.
    pub fn get(&self, i: usize) -> (i32, i32)
        requires { i < length self.now }
        ensures { slice_get self.now i ≡ Some result }
    {
        *self.row.get(i)
    }

    /// Sets the base and the check of cell `i`.
    #[tactic(auto, using(crate::proofs::CellLemmas::set_within))]
    pub fn set(&mut self, i: usize, base: i32, check: i32)
        requires { i < length self.old }
        ensures { self.new ≡ slice_set self.old i (base, check) }
    {
        self.row.put(i, (base, check));
    }

    /// Appends free cells up to a total of `n` cells. On an error nothing changes.
    ///
    /// A block that has to grow at least doubles, up to `CELLS_MAX` slots. So adding cells one at a
    /// time allocates rarely, and the block has room for at most twice as many cells as there are.
    pub fn grow(&mut self, n: usize) -> Result<(), AllocError>
        requires more { length self.old ≤ n }
        requires few { n ≤ CELLS_MAX }
        ensures appended { OnOk result (self.new ≡ self.old ++ free_cells (n - length self.old)) }
        ensures unchanged { OnErr result (self.new ≡ self.old) }
        ensures present { n ≡ length self.old → IsOk result }
    {
        if self.row.len() < n {
            let places = n.max(self.row.len().saturating_mul(2).min(CELLS_MAX));
            let (row, token) = move_to_block(&self.alloc, &mut self.row, self.length, places)?;
            let old = replace(&mut self.row, row);
            free_block(&self.alloc, old, replace(&mut self.token, token));
        }
        fill(&mut self.row, self.length, n, FREE);
        self.length = n;
        Ok(())
    }
}

impl Drop for Cells {
    fn drop(self) {
        let Cells {
            length: _,
            row,
            token,
            alloc,
        } = self;
        free_block(&alloc, row, token);
    }
}
