//! The user image of layout 3 with the single surface `a`, and its changes.
use super::changes::{Changed, Row, cells, expect_faults, expect_token_faults, headers};
use super::images::{user_body, user_image};
use crate::tests::samples::{fault_of_front, fault_of_longer};
use mj_model::ImageFault::{BadSection, Digest, Truncated};
use std::test::Fail;

/// Changes of the image whose checksum is computed after the change.
#[rattlefmt::skip]
static CHANGES: [Row; 2] = [
    ("layout 1, with 32 bytes after it", &[(8, b"\x01")], Some(BadSection(9))),
    ("layout 2, with 32 bytes after it", &[(8, b"\x02")], Some(BadSection(9))),
];

#[test]
fn changes_before_the_digest(rt: HostRuntime) -> Result<(), Fail> {
    let body = user_body(rt.alloc(), 3)?;
    assert_eq!(rt; body.len(), 929);
    expect_faults(&rt, Changed::Layout3, headers())?;
    expect_faults(&rt, Changed::Layout3, cells())?;
    expect_token_faults(&rt, Changed::Layout3, 904)?;
    expect_faults(&rt, Changed::Layout3, &CHANGES)
}

/// Changes of the image that keep its old checksum.
#[rattlefmt::skip]
static AFTER_THE_DIGEST: [Row; 6] = [
    ("kind",                     &[(12, b"\0")],            Some(Digest)),
    ("a free cell",              &[(200, b"\x01")],         Some(Digest)),
    ("token",                    &[(914, b"\x02")],         Some(Digest)),
    ("feature",                  &[(928, b"Y")],            Some(Digest)),
    ("first byte of the digest", &[(929, b"\x4d\x4a\x44")], Some(Digest)),
    ("end of the digest",        &[(957, b"\0\0\0\0")],    Some(Digest)),
];

#[test]
fn changes_after_the_digest(rt: HostRuntime) -> Result<(), Fail> {
    expect_faults(&rt, Changed::Sealed, &AFTER_THE_DIGEST)
}

/// Lengths that are shorter than the image.
static LENGTHS: [usize; 6] = [0, 103, 104, 928, 929, 960];

#[test]
fn other_lengths(rt: HostRuntime) -> Result<(), Fail> {
    let bytes = user_image(rt.alloc(), 3)?;
    for length in &LENGTHS {
        let fault = fault_of_front(rt.alloc(), &bytes, *length)?;
        assert_eq!(rt; fault, Some(Truncated), "{length}");
    }
    assert_eq!(rt; fault_of_longer(rt.alloc(), &bytes)?, Some(BadSection(9)));
    Ok(())
}
