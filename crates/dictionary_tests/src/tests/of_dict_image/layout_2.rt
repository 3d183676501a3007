//! The user image of layout 2 with the single surface `a`, and its changes.
use super::changes::{Changed, Row, cells, dict_with, expect_faults, expect_token_faults, headers};
use super::images::{Change, image, user_body};
use super::lookups::is_user_with;
use crate::tests::samples::{fault_of, fault_of_front};
use mj_model::ImageFault::{self, BadKey, BadSection, Truncated};
use std::alloc::{AllocError, Global};
use std::test::Fail;

/// Changes of the layout.
#[rattlefmt::skip]
static CHANGES: [Row; 2] = [
    ("layout 1: cells are no keys", &[(8, b"\x01")], Some(BadSection(5))),
    ("layout 3: 32 bytes missing",  &[(8, b"\x03")], Some(Truncated)),
];

#[test]
fn changes_of_layout_2(rt: HostRuntime) -> Result<(), Fail> {
    expect_faults(&rt, Changed::Layout2, headers())?;
    expect_faults(&rt, Changed::Layout2, cells())?;
    expect_token_faults(&rt, Changed::Layout2, 904)?;
    expect_faults(&rt, Changed::Layout2, &CHANGES)
}

/// A cell that no key needs, and a cycle of one state that is on no key. Layout 3 has the same
/// cells.
#[rattlefmt::skip]
static NEEDLESS: [(&str, Change<'_>); 2] = [
    // (what, a position and the new bytes there)
    ("cell 2 is (5, 99)",  (120, b"\x05\0\0\0\x63\0\0\0")),
    ("cell 50 is (1, 50)", (504, b"\x01\0\0\0\x32\0\0\0")),
];

#[test]
fn needless_cells(rt: HostRuntime) -> Result<(), Fail> {
    for (what, change) in &NEEDLESS {
        let second = dict_with(rt.alloc(), Changed::Layout2, &[*change])?;
        assert!(rt; is_user_with(&second, "a", 1, "b"), "{what}");
        let third = dict_with(rt.alloc(), Changed::Layout3, &[*change])?;
        assert!(rt; is_user_with(&third, "a", 1, "b"), "{what}, layout 3");
    }
    Ok(())
}

/// Returns the image with 200 cells: cell 0 is (1, -2), cell 1 is (-1, `state`), cell `state` is
/// (1, 0), and the others are free.
fn with_state(alloc: Global, state: u8) -> Result<Vec<u8>, AllocError> {
    let mut cells = Vec::new(alloc);
    for number in 0..200_u8 {
        let (base, check): (i32, i32) = match number {
            0 => (1, -2),
            1 => (-1, i32::from(state)),
            _ if number == state => (1, 0),
            _ => (0, -1),
        };
        cells.extend_from_slice(&base.to_le_bytes())?;
        cells.extend_from_slice(&check.to_le_bytes())?;
    }
    let token = b"\x01\0\x01\0\x01\0\0\0\0\0\0\0\x01\0\0\0";
    #[rattlefmt::skip]
    let sections = [b"".as_slice(), b"", b"", b"", &cells, b"\0\0\0\0\x01\0\0\0", token, b"X"];
    image(alloc, [2, 1, 2, 2, 0, 1, 1, 0], sections)
}

/// Keys of one byte.
#[rattlefmt::skip]
static STATES: [(&str, u8, Option<ImageFault>); 3] = [
    // (what, the state of the key, the error)
    ("the key 0x61", 99, None),
    ("the key 0x7F", 129, None),
    ("the key 0x80, which is not UTF-8", 130, Some(BadKey(0))),
];

#[test]
fn keys_of_200_cells(rt: HostRuntime) -> Result<(), Fail> {
    for (what, state, expected) in &STATES {
        let fault = fault_of(rt.alloc(), with_state(rt.alloc(), *state)?);
        assert_eq!(rt; fault, *expected, "{what}");
    }
    Ok(())
}

#[test]
fn shorter_layout_2(rt: HostRuntime) -> Result<(), Fail> {
    let bytes = user_body(rt.alloc(), 2)?;
    assert_eq!(rt; bytes.len(), 929);
    assert_eq!(rt; fault_of_front(rt.alloc(), &bytes, 928)?, Some(Truncated));
    Ok(())
}
