//! User images whose cells are made by hand, and the group that has no valid key.
use super::images::{image, sealed};
use crate::tests::samples::fault_of;
use mj_model::ImageFault::{self, BadKey};
use std::alloc::{AllocError, Global};
use std::test::Fail;

/// A step: from a state, by a byte, to a state. State 0 is cell 0, and the base of state s is 1 +
/// 257 s, so that no two steps share a cell.
type Step = (u8, u8, u8);

/// A state with a value, and its group.
type Value = (u8, u8);

fn base_of(state: u8) -> i64 {
    257 * i64::from(state) + 1
}

/// Returns the cell that a step leads to.
fn cell_after(from: u8, byte: u8) -> i64 {
    257 * i64::from(from) + i64::from(byte) + 2
}

/// Returns the cell of `state`.
fn cell_of(steps: &[Step], state: u8) -> i64 {
    for (from, byte, to) in steps {
        if *to == state {
            return cell_after(*from, *byte);
        }
    }
    0
}

/// Returns the base and the check of cell `number`.
fn cell_at(steps: &[Step], values: &[Value], number: i64) -> (i64, i64) {
    if number == 0 {
        return (base_of(0), -2);
    }
    for (state, group) in values {
        if base_of(*state) == number {
            return (-1 - i64::from(*group), cell_of(steps, *state));
        }
    }
    for (from, byte, to) in steps {
        if cell_after(*from, *byte) == number {
            return (base_of(*to), cell_of(steps, *from));
        }
    }
    (0, -1)
}

fn push_cell(bytes: &mut Vec<u8>, base: i64, check: i64) -> Result<(), AllocError> {
    bytes.extend_from_slice(&base.to_le_bytes()[..4])?;
    bytes.extend_from_slice(&check.to_le_bytes()[..4])
}

/// Returns the cells of ten states.
fn cells_of(alloc: Global, steps: &[Step], values: &[Value]) -> Result<Vec<u8>, AllocError> {
    let mut bytes = Vec::new(alloc);
    for number in 0..2571_i64 {
        let (base, check) = cell_at(steps, values, number);
        push_cell(&mut bytes, base, check)?;
    }
    Ok(bytes)
}

/// Returns the cells of `keys` keys that are prefixes of one another. Key `i` is U+0000 repeated
/// `keys - i` times.
///
/// The state of n of them is cell 2 n, and its value is in the next cell.
fn cells_of_nuls(alloc: Global, keys: u32) -> Result<Vec<u8>, AllocError> {
    let mut bytes = Vec::new(alloc);
    push_cell(&mut bytes, 1, -2)?;
    push_cell(&mut bytes, 0, -1)?;
    for number in 0..keys {
        let before = 2 * i64::from(number);
        push_cell(&mut bytes, before + 3, before)?;
        push_cell(&mut bytes, i64::from(number) - i64::from(keys), before + 2)?;
    }
    Ok(bytes)
}

/// Returns a user image with `cells`, and with one token for each group.
fn user_image(alloc: Global, groups: u32, cells: &[u8]) -> Result<Vec<u8>, AllocError> {
    let mut index = Vec::new(alloc);
    let mut tokens = Vec::new(alloc);
    index.extend_from_slice(b"\0\0\0\0")?;
    for group in 0..groups {
        index.extend_from_slice(&(group + 1).to_le_bytes())?;
        tokens.extend_from_slice(b"\x01\0\x01\0\x01\0\0\0\0\0\0\0\x01\0\0\0")?;
    }
    let sections = [b"".as_slice(), b"", b"", b"", cells, &index, &tokens, b"X"];
    sealed(
        alloc,
        &image(alloc, [3, 1, 2, 2, 0, groups, groups, 0], sections)?,
    )
}

/// Returns the state that a step leads to. Adds the step if it is missing.
fn step(steps: &mut Vec<Step>, from: u8, byte: u8) -> Result<u8, AllocError> {
    for (before, label, to) in steps.iter() {
        if (*before, *label) == (from, byte) {
            return Ok(*to);
        }
    }
    let to = u8::try_from(steps.len().saturating_add(1)).unwrap_or(u8::MAX);
    steps.push((from, byte, to))?;
    Ok(to)
}

/// Returns the state that the bytes of `key` lead to. Adds the steps that are missing.
fn add_key(steps: &mut Vec<Step>, key: &[u8]) -> Result<u8, AllocError> {
    let mut state = 0;
    for byte in key {
        state = step(steps, state, *byte)?;
    }
    Ok(state)
}

/// Returns the image of `keys`, which have the groups 0, 1, 2 and so on.
fn image_of_keys(alloc: Global, keys: &[&[u8]]) -> Result<Vec<u8>, AllocError> {
    let mut steps = Vec::new(alloc);
    let mut values = Vec::new(alloc);
    let mut group = 0_u8;
    for key in keys {
        values.push((add_key(&mut steps, key)?, group))?;
        group = group.saturating_add(1);
    }
    user_image(alloc, u32::from(group), &cells_of(alloc, &steps, &values)?)
}

/// Keys, of which one may be invalid.
#[rattlefmt::skip]
static KEYS: [(&str, &[&[u8]], Option<ImageFault>); 19] = [
    // (what, the keys in the order of their groups, the error)
    ("a",                           &[b"a"],                               None),
    ("ab, a: one stem",             &[b"ab", b"a"],                        None),
    ("U+007F, U+0080",              &[b"\x7F", b"\xC2\x80"],               None),
    ("U+07FF, U+0800",              &[b"\xDF\xBF", b"\xE0\xA0\x80"],       None),
    ("U+D7FF, U+E000",              &[b"\xED\x9F\xBF", b"\xEE\x80\x80"],   None),
    ("U+10000",                     &[b"\xF0\x90\x80\x80"],               None),
    ("U+40000",                     &[b"\xF1\x80\x80\x80"],               None),
    ("U+10FFFF",                    &[b"\xF4\x8F\xBF\xBF"],               None),
    ("no byte",                     &[b""],                                Some(BadKey(0))),
    ("C0 80: U+0000 in two bytes",  &[b"\xC0\x80"],                       Some(BadKey(0))),
    ("E0 9F BF: U+07FF in three",   &[b"\xE0\x9F\xBF"],                   Some(BadKey(0))),
    ("ED A0 80: a surrogate",       &[b"\xED\xA0\x80"],                   Some(BadKey(0))),
    ("F0 8F BF BF: U+FFFF in four", &[b"\xF0\x8F\xBF\xBF"],               Some(BadKey(0))),
    ("F4 90 80 80: past U+10FFFF",  &[b"\xF4\x90\x80\x80"],               Some(BadKey(0))),
    ("F5 starts no character",      &[b"\xF5\x80\x80\x80"],               Some(BadKey(0))),
    ("80 starts no character",      &[b"\x80"],                           Some(BadKey(0))),
    ("E3 81 82, E3 81, E3",         &[b"\xE3\x81\x82", b"\xE3\x81", b"\xE3"], Some(BadKey(1))),
    ("a, FF a, FF b",               &[b"a", b"\xFFa", b"\xFFb"],           Some(BadKey(1))),
    ("E3 a: a tail wanted; a E3",   &[b"a", b"\xE3a", b"a\xE3"],           Some(BadKey(1))),
];

#[test]
fn keys_of_cells(rt: HostRuntime) -> Result<(), Fail> {
    for (what, keys, expected) in &KEYS {
        let fault = fault_of(rt.alloc(), image_of_keys(rt.alloc(), keys)?);
        assert_eq!(rt; fault, *expected, "{what}");
    }
    Ok(())
}

/// Cells that form a cycle.
#[rattlefmt::skip]
static RINGS: [(&str, &[Step], &[Value], u32); 2] = [
    // (what, steps, values, the group without a key)
    ("two states",              &[(1, b'a', 2), (2, b'b', 1)], &[(1, 0)],         0),
    ("a, and one on its own",   &[(0, b'a', 1), (2, b'b', 2)], &[(1, 0), (2, 1)], 1),
];

/// Returns the error of the image of these steps and values.
fn fault_of_steps(
    alloc: Global,
    steps: &[Step],
    values: &[Value],
) -> Result<Option<ImageFault>, AllocError> {
    let groups = u32::try_from(values.len()).unwrap_or(0);
    let cells = cells_of(alloc, steps, values)?;
    Ok(fault_of(alloc, user_image(alloc, groups, &cells)?))
}

#[test]
fn states_in_a_ring(rt: HostRuntime) -> Result<(), Fail> {
    for (what, steps, values, group) in &RINGS {
        let fault = fault_of_steps(rt.alloc(), steps, values)?;
        assert_eq!(rt; fault, Some(BadKey(*group)), "{what}");
    }
    Ok(())
}

/// Numbers of keys that are prefixes of one another.
#[rattlefmt::skip]
static STEMS: [(u32, Option<ImageFault>); 5] = [
    // (length of the longest key in bytes, the error)
    (1, None),
    (2, None),
    (65_535, None),
    (65_536, Some(BadKey(0))),
    (70_000, Some(BadKey(0))),
];

/// Returns the error of the image of `keys` keys that are prefixes of one another.
fn fault_of_stem(alloc: Global, keys: u32) -> Result<Option<ImageFault>, AllocError> {
    let cells = cells_of_nuls(alloc, keys)?;
    Ok(fault_of(alloc, user_image(alloc, keys, &cells)?))
}

#[test]
fn keys_on_a_long_stem(rt: HostRuntime) -> Result<(), Fail> {
    for (longest, expected) in &STEMS {
        let fault = fault_of_stem(rt.alloc(), *longest)?;
        assert_eq!(rt; fault, *expected, "{longest}");
    }
    Ok(())
}
