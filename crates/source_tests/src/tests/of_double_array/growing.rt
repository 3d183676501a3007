//! The keys `a` and `b` with each second byte, inserted one after another.
use super::access::{has_hits, have_same_cells, insert, value};
use double_array::{CellRead, DaFault, DoubleArray, Inserted};
use std::alloc::{Alloc, Global};
use std::io::Eprint;
use std::process::Abort;
use std::test::Fail;
use test_support::again;

/// The number of keys.
pub const KEYS: usize = 513;

/// Returns the two bytes of key `n`: `a` with each byte, then `b` with each byte. Key 0 has the
/// first byte alone.
fn bytes_of(n: usize) -> [u8; 2] {
    match n {
        0 => [b'a', 0],
        1..=256 => [b'a', (n - 1) as u8],
        _ => [b'b', (n - 257).min(255) as u8],
    }
}

/// Returns key `n`, given its two bytes.
fn key_of(bytes: &[u8; 2], n: usize) -> &[u8] {
    if n == 0 {
        &bytes[..1]
    } else {
        bytes.as_slice()
    }
}

/// Inserts key `n` with the value `n`.
pub fn insert_key(array: &mut DoubleArray, n: usize) -> Result<Inserted, DaFault> {
    insert(array, key_of(&bytes_of(n), n), n.min(KEYS) as u32)
}

/// Returns the value of key `n`.
fn value_of_key(array: &DoubleArray, n: usize) -> Option<u32> {
    value(array, key_of(&bytes_of(n), n))
}

/// Returns whether the keys below `n` have their values, and the others have none.
fn has_first_keys(array: &DoubleArray, n: usize) -> bool {
    for i in 0..KEYS {
        let expected = if i < n { Some(i as u32) } else { None };
        if value_of_key(array, i) != expected {
            return false;
        }
    }
    true
}

/// Returns an empty array, with one retry.
pub fn new_array(rt: &(impl Alloc<A = Global> + Eprint)) -> Result<DoubleArray, Fail> {
    Ok(again!(rt, Err(_), DoubleArray::new(rt.alloc()))?)
}

/// Inserts key `n`. Returns whether it is new, and no more cells were moved than a state can have
/// children.
fn is_new_key(array: &mut DoubleArray, n: usize) -> Result<bool, DaFault> {
    let inserted = insert_key(array, n)?;
    Ok(inserted.old.is_none() && inserted.moved <= 257)
}

#[test]
fn byte_after_byte(rt: HostRuntime) -> Result<(), Fail> {
    let mut array = DoubleArray::new(rt.alloc())?;
    for n in 0..KEYS {
        assert!(rt; is_new_key(&mut array, n)?, "{n}");
    }
    assert!(rt; has_first_keys(&array, KEYS));
    assert_eq!(rt; value(&array, b"b"), None);
    assert!(rt; has_hits(&array, b"abc", &[(1, 0), (2, 99)], 6));
    Ok(())
}

/// Keys of one or two bytes.
static FEW_BYTES: [&[u8]; 5] = [b"a", b"a", b"b", b"aa", b"c"];

/// The first key adds cells for its length, and 600 more. They have room for the other keys.
#[test]
fn room_is_used_up_first(rt: HostRuntime) -> Result<(), Fail> {
    let mut array = DoubleArray::new(rt.alloc())?;
    let length = array.len().saturating_add(601);
    for key in &FEW_BYTES {
        insert(&mut array, key, 1)?;
        assert!(rt; array.len() == length, "{key:?}");
    }
    for key in &FEW_BYTES {
        assert!(rt; value(&array, key) == Some(1), "{key:?}");
    }
    Ok(())
}

/// Returns whether `array` has the cells of `other`. Without `other`, returns whether it has the
/// keys below `n`.
fn is_as_before(array: &DoubleArray, other: Option<&DoubleArray>, n: usize) -> bool {
    match other {
        Some(other) => have_same_cells(array, other),
        None => has_first_keys(array, n),
    }
}

/// Inserts key `n`, with one retry. An allocation failure must leave the array unchanged.
pub fn insert_again(
    rt: &(impl Abort + Eprint),
    array: &mut DoubleArray,
    n: usize,
    other: Option<&DoubleArray>,
) -> Result<(), Fail> {
    if let Err(fault) = insert_key(array, n) {
        rt.eprintln("refused")?;
        assert!(rt; fault == DaFault::Memory);
        assert!(rt; is_as_before(array, other, n), "{n}");
        assert!(rt; insert_key(array, n).is_ok(), "{n}");
    }
    Ok(())
}

/// Inserts all keys in two arrays, each key first in `array` and then in `other`.
fn insert_in_both(
    rt: &(impl Abort + Eprint),
    array: &mut DoubleArray,
    other: &mut DoubleArray,
) -> Result<(), Fail> {
    for n in 0..KEYS {
        insert_again(rt, array, n, Some(other))?;
        insert_again(rt, other, n, None)?;
    }
    assert!(rt; have_same_cells(array, other));
    assert!(rt; has_first_keys(array, KEYS));
    Ok(())
}

/// An allocation failure leaves the cells unchanged, and the retry produces the cells of an array
/// without failures.
#[test]
fn failed_growth_keeps_the_cells(rt: HostRuntime) -> Result<(), Fail> {
    let mut array = new_array(&rt)?;
    let mut other = new_array(&rt)?;
    insert_in_both(&rt, &mut array, &mut other)
}
