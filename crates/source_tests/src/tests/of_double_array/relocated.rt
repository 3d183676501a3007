//! An insertion below a state that is itself one of the children that move.
//!
//! The state `a` has four children: the bytes 1, 2 and 3, and its value. The root has two: `a` and
//! `b`. The test inserts a byte below `a` that would use the cell of `b`. The smaller family moves,
//! which is the root's, and so `a` moves.
use super::access::{cell, insert, value};
use double_array::{CellRead, DaFault, DoubleArray};
use std::alloc::Global;
use std::process::Abort;
use std::test::Fail;

static KEYS: [&[u8]; 5] = [b"a", b"b", b"a\x01", b"a\x02", b"a\x03"];

/// Returns the number in a cell, or `None` if it is negative.
fn number(found: i32) -> Option<usize> {
    if found >= 0 {
        Some(found as usize)
    } else {
        None
    }
}

/// Returns the cell that the child of `state` for `byte` needs.
fn wanted_cell(array: &DoubleArray, state: usize, byte: u8) -> Option<usize> {
    let (base, _) = cell(array, state)?;
    number(base)?.checked_add(byte as usize + 1)
}

/// Returns the state that cell `i` is a child of.
fn parent_of(array: &DoubleArray, i: usize) -> Option<usize> {
    let (_, check) = cell(array, i)?;
    number(check)
}

/// Returns the state that the bytes of `key` lead to.
fn state_of(array: &DoubleArray, key: &[u8]) -> Option<usize> {
    let mut state = 0;
    for byte in key {
        let next = wanted_cell(array, state, *byte)?;
        if parent_of(array, next)? != state {
            return None;
        }
        state = next;
    }
    Some(state)
}

/// Returns the number of children of `state`.
fn children_of(array: &DoubleArray, state: usize) -> usize {
    let mut count = 0_usize;
    for i in 0..array.len() {
        if parent_of(array, i) == Some(state) {
            count = count.saturating_add(1);
        }
    }
    count
}

/// Returns whether the cell that `state` needs for `byte` is a child of `parent`.
fn is_wanted_cell_below(array: &DoubleArray, state: usize, byte: u8, parent: usize) -> bool {
    match wanted_cell(array, state, byte) {
        Some(i) => parent_of(array, i) == Some(parent),
        None => false,
    }
}

/// Returns a byte for which the state of `key` needs a cell that a child of its parent has.
fn byte_of_a_sibling(array: &DoubleArray, key: &[u8]) -> Option<u8> {
    let state = state_of(array, key)?;
    let parent = parent_of(array, state)?;
    if children_of(array, state) <= children_of(array, parent) {
        return None;
    }
    for byte in 0..=255 {
        if is_wanted_cell_below(array, state, byte, parent) {
            return Some(byte);
        }
    }
    None
}

/// Returns an array of the keys, with their indices as values.
fn array_of_keys(alloc: Global) -> Result<DoubleArray, Fail> {
    let mut array = DoubleArray::new(alloc)?;
    for (n, key) in KEYS.iter().enumerate() {
        insert(&mut array, key, n as u32)?;
    }
    Ok(array)
}

/// Checks the values of the keys.
fn expect_keys(rt: &impl Abort, array: &DoubleArray) {
    for (n, key) in KEYS.iter().enumerate() {
        assert!(rt; value(array, key) == Some(n as u32), "{key:?}");
    }
}

/// Inserts `key` below the state `a`, which must move together with the root's other child.
fn expect_relocation(rt: &impl Abort, array: &mut DoubleArray, key: &[u8]) -> Result<(), DaFault> {
    let before = state_of(array, b"a");
    let inserted = insert(array, key, 5)?;
    assert!(rt; inserted.old.is_none() && inserted.moved == 2);
    assert!(rt; state_of(array, b"a") != before, "a has moved");
    Ok(())
}

/// Inserts a key whose byte below the state `a` needs the cell of `b`.
fn expect_relocated(rt: &impl Abort, array: &mut DoubleArray) -> Result<(), DaFault> {
    let byte = byte_of_a_sibling(array, b"a");
    assert!(rt; byte.is_some(), "no such byte");
    let key = [b'a', byte.unwrap_or(0)];
    expect_relocation(rt, array, &key)?;
    expect_keys(rt, array);
    assert!(rt; value(array, &key) == Some(5));
    assert!(rt; value(array, b"") == None);
    Ok(())
}

#[test]
fn relocated_parent(rt: HostRuntime) -> Result<(), Fail> {
    let mut array = array_of_keys(rt.alloc())?;
    expect_relocated(&rt, &mut array)?;
    Ok(())
}
