//! Plain cells that copy an array's cells and grow to its length. Allocations fail under
//! `tests/out_of_memory/run.py`.
use super::access;
use super::growing::{KEYS, insert_again, new_array};
use crate::tests::of_cells;
use cells::Cells;
use double_array::{CellRead, DoubleArray};
use std::io::Eprint;
use std::process::Abort;
use std::test::Fail;

/// Sets the cells to those of `array`.
fn copy_cells(cells: &mut Cells, array: &DoubleArray) {
    for i in 0..array.len() {
        if let Some((base, check)) = access::cell(array, i) {
            of_cells::put(cells, i, base, check);
        }
    }
}

/// Returns whether there are `n` cells: those of `array`, and then free ones.
fn hold(cells: &Cells, array: &DoubleArray, n: usize) -> bool {
    if cells.len() != n {
        return false;
    }
    for i in 0..n {
        let expected = access::cell(array, i).unwrap_or((0, -1));
        if of_cells::cell(cells, i) != Some(expected) {
            return false;
        }
    }
    true
}

/// Grows cells that equal those of `array` to `length`, with one retry. An allocation failure must
/// leave them unchanged.
fn grow_again(
    rt: &(impl Abort + Eprint),
    cells: &mut Cells,
    array: &DoubleArray,
    length: usize,
) -> Result<(), Fail> {
    let held = cells.len();
    if of_cells::grow(cells, length).is_err() {
        rt.eprintln("refused")?;
        assert!(rt; hold(cells, array, held), "{length}");
        assert!(rt; of_cells::grow(cells, length).is_ok(), "{length}");
    }
    Ok(())
}

/// Inserts key `n` in `array` and then in `before`, whose keys are the same. If `array` grows, the
/// cells of `before` are first copied to `cells`, which grow to its length.
fn insert_and_grow(
    rt: &(impl Abort + Eprint),
    array: &mut DoubleArray,
    before: &mut DoubleArray,
    cells: &mut Cells,
    n: usize,
) -> Result<(), Fail> {
    insert_again(rt, array, n, None)?;
    if array.len() > cells.len() {
        copy_cells(cells, before);
        grow_again(rt, cells, before, array.len())?;
        assert!(rt; hold(cells, before, array.len()), "{n}");
    }
    insert_again(rt, before, n, None)
}

/// Inserts all keys.
fn insert_all(
    rt: &(impl Abort + Eprint),
    array: &mut DoubleArray,
    before: &mut DoubleArray,
    cells: &mut Cells,
) -> Result<(), Fail> {
    for n in 0..KEYS {
        insert_and_grow(rt, array, before, cells, n)?;
    }
    assert!(rt; cells.len() == array.len());
    Ok(())
}

#[test]
fn failed_growth_keeps_the_cells(rt: HostRuntime) -> Result<(), Fail> {
    let mut array = new_array(&rt)?;
    let mut before = new_array(&rt)?;
    let mut cells = of_cells::new_cells(&rt, 1)?;
    insert_all(&rt, &mut array, &mut before, &mut cells)
}
