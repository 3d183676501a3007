//! Cells that grow, and allocation failures.
//!
//! Allocations fail under `tests/out_of_memory/run.py`, which expects the line `refused` on
//! standard error.
use cells::{CELLS_MAX, Cells};
use std::alloc::{Alloc, AllocError, Global};
use std::io::Eprint;
use std::process::Abort;
use std::test::Fail;
use test_support::again;

/// Returns cell `i`, or `None` past the end.
pub fn cell(cells: &Cells, i: usize) -> Option<(i32, i32)> {
    if i < cells.len() {
        Some(cells.get(i))
    } else {
        None
    }
}

/// Sets cell `i`, if it exists.
pub fn put(cells: &mut Cells, i: usize, base: i32, check: i32) {
    if i < cells.len() {
        cells.set(i, base, check);
    }
}

/// Grows to `n` cells, within the limit. Never shrinks.
pub fn grow(cells: &mut Cells, n: usize) -> Result<(), AllocError> {
    let n = n.min(CELLS_MAX).max(cells.len());
    cells.grow(n)
}

/// Returns whether there are `n` cells: the first `count` with base `i + 1` and check 7, the others
/// free.
fn holds(cells: &Cells, count: usize, n: usize) -> bool {
    if cells.len() != n {
        return false;
    }
    for i in 0..n {
        let expected = if i < count {
            (i as i32 + 1, 7)
        } else {
            (0, -1)
        };
        if cell(cells, i) != Some(expected) {
            return false;
        }
    }
    true
}

/// Returns `n` cells, with one retry.
pub fn new_cells(rt: &(impl Alloc<A = Global> + Eprint), n: usize) -> Result<Cells, Fail> {
    Ok(again!(rt, Err(_), Cells::new(rt.alloc(), n.clamp(1, CELLS_MAX)))?)
}

/// Grows to `n` cells, with one retry. An allocation failure must leave the cells unchanged.
///
/// The first `count` cells have been set, and the others are free.
fn grow_again(
    rt: &(impl Abort + Eprint),
    cells: &mut Cells,
    count: usize,
    n: usize,
) -> Result<(), Fail> {
    let before = cells.len();
    if grow(cells, n).is_err() {
        rt.eprintln("refused")?;
        assert!(rt; holds(cells, count, before), "{n}");
        assert!(rt; grow(cells, n).is_ok(), "{n}");
    }
    Ok(())
}

/// The expected cells after growing.
#[rattlefmt::skip]
static GROWN: [(usize, Option<(i32, i32)>); 7] = [
    // (cell, its base and check)
    (0, Some((0, -1))),
    (1, Some((0, -1))),
    (2, Some((0, -1))),
    (3, Some((8, 1))),
    (4, Some((0, -1))),
    (5, Some((0, -1))),
    (6, None),
];

/// Checks the cells of `GROWN`.
fn expect_grown(rt: &impl Abort, cells: &Cells) {
    for (i, expected) in &GROWN {
        assert!(rt; cell(cells, *i) == *expected, "{i}");
    }
}

#[test]
fn grown_cells(rt: HostRuntime) -> Result<(), Fail> {
    let mut cells = Cells::new(rt.alloc(), 4)?;
    put(&mut cells, 3, 8, 1);
    grow(&mut cells, 6)?;
    assert_eq!(rt; cells.len(), 6);
    expect_grown(&rt, &cells);
    Ok(())
}

/// Cells with the least and the greatest numbers.
#[rattlefmt::skip]
static ENDS: [(usize, i32, i32); 3] = [
    // (cell, base, check)
    (0, 1, -2),
    (1, -2_147_483_648, 2_147_483_647),
    (2, 2_147_483_647, -2_147_483_648),
];

/// Checks the cells of `ENDS`.
fn expect_ends(rt: &impl Abort, cells: &Cells) {
    for (i, base, check) in &ENDS {
        assert_eq!(rt; cell(cells, *i), Some((*base, *check)), "{i}");
    }
}

#[test]
fn ends_of_the_numbers(rt: HostRuntime) -> Result<(), Fail> {
    let mut cells = Cells::new(rt.alloc(), 3)?;
    for (i, base, check) in &ENDS {
        put(&mut cells, *i, *base, *check);
    }
    expect_ends(&rt, &cells);
    Ok(())
}

/// Sets the last cell and grows by one. Returns whether the new cell is free.
fn add_one(cells: &mut Cells, base: i32) -> Result<bool, AllocError> {
    let length = cells.len();
    put(cells, length.saturating_sub(1), base, -5);
    grow(cells, length.saturating_add(1))?;
    Ok(cells.len() == length.saturating_add(1) && cell(cells, length) == Some((0, -1)))
}

/// Checks the numbers of 999 cells.
fn expect_numbers(rt: &impl Abort, cells: &Cells) {
    for i in 0..999 {
        assert_eq!(rt; cell(cells, i), Some((i as i32 + 2, -5)), "{i}");
    }
}

#[test]
fn one_more_at_a_time(rt: HostRuntime) -> Result<(), Fail> {
    let mut cells = Cells::new(rt.alloc(), 1)?;
    for n in 2..=1_000 {
        assert!(rt; add_one(&mut cells, n)?, "{n}");
    }
    expect_numbers(&rt, &cells);
    grow(&mut cells, 1_000)?;
    assert_eq!(rt; cells.len(), 1_000);
    Ok(())
}

#[test]
fn failed_allocation_is_retried(rt: HostRuntime) -> Result<(), Fail> {
    let cells = new_cells(&rt, 4)?;
    assert!(rt; holds(&cells, 0, 4));
    Ok(())
}

#[test]
fn failed_growth_keeps_the_cells(rt: HostRuntime) -> Result<(), Fail> {
    let mut cells = new_cells(&rt, 4)?;
    for i in 0..4 {
        put(&mut cells, i, i as i32 + 1, 7);
    }
    for n in [5, 100, 1_000] {
        grow_again(&rt, &mut cells, 4, n)?;
        assert!(rt; holds(&cells, 4, n), "{n}");
    }
    Ok(())
}

#[test]
fn blocks_are_given_back(rt: HostRuntime) -> Result<(), Fail> {
    let mut cells = new_cells(&rt, 4)?;
    let other = new_cells(&rt, 4)?;
    for n in [100, 1_000] {
        grow_again(&rt, &mut cells, 0, n)?;
    }
    assert!(rt; holds(&cells, 0, 1_000));
    assert!(rt; holds(&other, 0, 4));
    Ok(())
}

/// Allocates nothing, so that it shows what every test allocates.
#[test]
fn no_cells() {}
