//! The search for a base from which the cells of all codes of a family are free.
//!
//! The search tries the free cells in the order of the ring, each as the cell of the least code,
//! and at most `CANDIDATES` of them. If none fits, the family goes after all used cells, where
//! there is always room. (This project's own choice; Aoe 1989 searches the whole list.)
ghost use Rattle.std.specs.Prelude.{◌≡◌, ℕ, ◌+◌, ◌<◌, ◌≤◌, ◌^◌, length, IsTrue};
ghost use Rattle.mj_model.specs.CellMap.{free_cell, cell_at};
ghost use Rattle.double_array.specs.Views.{cell_views};
ghost use Rattle.double_array.specs.Ring.{HasLinks};
ghost use Rattle.double_array.specs.Pool.{IsPool};
ghost use Rattle.double_array.specs.Family.{HasCode, FitsAt};

use crate::pool::BASE_MIN;
use crate::ring::{RING_HEAD, next};
use cells::Cells;

/// The maximum number of free cells that a search tries.
const CANDIDATES: usize = 64;

/// A base, and the free cell at which the next search starts.
#[derive(Clone, Copy, Debug, Drop)]
pub(crate) struct Found {
    pub base: usize,
    pub start: usize,
}

/// Returns a base from which the cell of `code` is free.
pub(crate) fn search_cell(cells: &Cells, top: usize, start: usize, code: usize) -> usize
    requires pool { IsPool cells.now top start }
    requires code { code ≤ 256 }
    ensures least { 2 ≤ result }
    ensures top { result + code ≤ top }
    ensures free { cell_at (cell_views cells.now) (result + code) ≡ free_cell }
{
    let mut i = next(cells, RING_HEAD);
    for _ in 0..CANDIDATES {
        if i == RING_HEAD || i >= top {
            return top - code;
        }
        if i >= code + BASE_MIN {
            return i - code;
        }
        i = next(cells, i);
    }
    top - code
}

/// Returns a base for a family. The search starts at `start`, and continues once from the start of
/// the ring.
pub(crate) fn search_family(cells: &Cells, top: usize, start: usize, family: &[bool]) -> Found
    requires pool { IsPool cells.now top start }
    requires codes { length family.now ≡ 257 }
    ensures start { HasLinks cells.now result.start }
    ensures least { 2 ≤ result.base }
    ensures top { result.base ≤ top }
    ensures free { FitsAt (cell_views cells.now) family.now result.base }
{
    let least = least_code(family);
    let mut i = start;
    let mut again = false;
    for _ in 0..CANDIDATES {
        if i == RING_HEAD || i >= top {
            if again {
                return following(top, least, i);
            }
            again = true;
            i = next(cells, RING_HEAD);
        } else if i >= least + BASE_MIN && fits(cells, i - least, family) {
            return Found {
                base: i - least,
                start: i,
            };
        } else {
            i = next(cells, i);
        }
    }
    following(top, least, i)
}

/// Returns the base after all used cells.
fn following(top: usize, least: usize, start: usize) -> Found
    requires { least ≤ top }
    ensures base { result.base + least ≡ top }
    ensures start { result.start ≡ start }
{
    Found {
        base: top - least,
        start,
    }
}

/// Returns the least code of a family, or 0 if it has none.
fn least_code(family: &[bool]) -> usize
    requires { length family.now ≡ 257 }
    ensures least { (code : ℕ) → HasCode family.now code → result ≤ code }
    ensures within { result ≤ 256 }
{
    for (code, member) in family.iter().enumerate() {
        if *member {
            return code;
        }
    }
    0
}

/// Returns whether the cell of each code of the family is free, from `base` on.
fn fits(cells: &Cells, base: usize, family: &[bool]) -> bool
    requires above { 0 < base }
    requires within { base + 257 ≤ length cells.now }
    requires few { length cells.now ≤ 2 ^ 30 }
    requires codes { length family.now ≡ 257 }
    ensures { IsTrue result → FitsAt (cell_views cells.now) family.now base }
{
    for (code, member) in family.iter().enumerate() {
        if *member && cells.get(base + code).1 >= 0 {
            return false;
        }
    }
    true
}
