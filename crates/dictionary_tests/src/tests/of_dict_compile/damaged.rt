//! Loading of compiled images with changed bytes.
use crate::tests::samples::{
    fault_of, fault_of_front, fault_of_longer, sample_dict, sample_image, user_of, with_byte,
};
use mj_model::ImageFault::{
    self, BadLayout, BadMagic, BadSection, BadText, BadToken, Digest as BadDigest, Truncated,
};
use sha2::{Digest, Sha256};
use std::alloc::{AllocError, Global};
use std::test::Fail;

/// The length of the checksum in bytes.
const DIGEST: usize = 32;

/// Returns `image` with `byte` at position `at`, and with a checksum that matches.
fn sealed_with(alloc: Global, image: &[u8], at: usize, byte: u8) -> Result<Vec<u8>, AllocError> {
    let body = &image[..image.len().saturating_sub(DIGEST)];
    let mut new = with_byte(alloc, body, at, byte)?;
    let digest = Sha256::digest(&new);
    new.extend_from_slice(&digest)?;
    Ok(new)
}

/// Returns the error of loading `image` with `byte` at position `at`.
///
/// The checksum is made anew if `seals`, and otherwise is the old one.
fn fault_with(
    alloc: Global,
    image: &[u8],
    at: usize,
    byte: u8,
    seals: bool,
) -> Result<Option<ImageFault>, AllocError> {
    let changed = if seals {
        sealed_with(alloc, image, at, byte)?
    } else {
        with_byte(alloc, image, at, byte)?
    };
    Ok(fault_of(alloc, changed))
}

/// A label, a position, the new byte there, and two errors: with a new checksum, and with the old
/// one.
type Row = (
    &'static str,
    usize,
    u8,
    Option<ImageFault>,
    Option<ImageFault>,
);

/// Changes of the sample's image. Its sections 1 and 2 have 8 and 62 bytes, so that its first range
/// is at byte 174.
#[rattlefmt::skip]
static CHANGES: [Row; 10] = [
    ("no change",                         0,   b'M', None,                None),
    ("byte 0",                            0,   0,    Some(BadMagic),      Some(BadMagic)),
    ("layout 9",                          8,   9,    Some(BadLayout(9)),  Some(BadLayout(9))),
    ("kind 1",                            12,  1,    Some(BadSection(0)), Some(BadDigest)),
    ("kind 2",                            12,  2,    Some(BadSection(0)), Some(BadDigest)),
    ("a cost",                            104, 1,    None,                Some(BadDigest)),
    ("INVOKE 2",                          112, 2,    Some(BadSection(2)), Some(BadDigest)),
    ("the first range from code point 1", 174, 1,    Some(BadSection(3)), Some(BadDigest)),
    ("two equal first code points",       182, 0,    Some(BadSection(3)), Some(BadDigest)),
    ("cell 0 has check -1",               310, 255,  Some(BadSection(5)), Some(BadDigest)),
];

/// Returns the test cases. A call keeps the table out of the caller's proof.
fn rows() -> &'static [Row] {
    &CHANGES
}

#[test]
fn changes_before_the_digest(rt: HostRuntime) -> Result<(), Fail> {
    let image = sample_image(rt.alloc())?;
    let first_ranges = b"\0\0\0\0\x01\0\0\0\x20\0\0\0".as_slice();
    assert!(rt; image.get(174..186) == Some(first_ranges));
    for (what, at, byte, sealed, _) in rows() {
        let fault = fault_with(rt.alloc(), &image, *at, *byte, true)?;
        assert_eq!(rt; fault, *sealed, "{what}");
    }
    Ok(())
}

#[test]
fn changes_after_the_digest(rt: HostRuntime) -> Result<(), Fail> {
    let image = sample_image(rt.alloc())?;
    for (what, at, byte, _, unsealed) in rows() {
        let fault = fault_with(rt.alloc(), &image, *at, *byte, false)?;
        assert_eq!(rt; fault, *unsealed, "{what}");
    }
    let last = image.len().saturating_sub(1);
    let other = image.last().map_or(0, |byte| !*byte);
    let fault = fault_with(rt.alloc(), &image, last, other, false)?;
    assert_eq!(rt; fault, Some(BadDigest), "the last byte");
    Ok(())
}

/// Lengths up to that of the header, and one that is a little longer.
static LENGTHS: [usize; 4] = [0, 103, 104, 136];

#[test]
fn other_lengths(rt: HostRuntime) -> Result<(), Fail> {
    let image = sample_image(rt.alloc())?;
    for length in &LENGTHS {
        let fault = fault_of_front(rt.alloc(), &image, *length)?;
        assert_eq!(rt; fault, Some(Truncated), "{length}");
    }
    let length = image.len().saturating_sub(1);
    assert_eq!(rt;
        fault_of_front(rt.alloc(), &image, length)?,
        Some(Truncated)
    );
    assert_eq!(rt; fault_of_longer(rt.alloc(), &image)?, Some(BadSection(9)));
    Ok(())
}

/// Changes of a user image with one token.
#[rattlefmt::skip]
static TOKEN_CHANGES: [(&str, usize, u8, Option<ImageFault>); 8] = [
    // (what, a position that is counted back from the checksum, the new byte there, the error)
    ("no change",            1,  b'X', None),
    ("left id 2",            17, 2,    Some(BadToken(0))),
    ("right id 2",           15, 2,    Some(BadToken(0))),
    ("cost 2",               13, 2,    None),
    ("a byte of the zero",   11, 1,    Some(BadToken(0))),
    ("feature length 2",     5,  2,    Some(BadText(0))),
    ("feature not UTF-8",    1,  0xff, Some(BadText(0))),
    ("group 0 from token 1", 25, 1,    Some(BadSection(6))),
];

/// Returns a user image with one token.
fn one_token(alloc: Global) -> Result<Vec<u8>, Fail> {
    let system = sample_dict(alloc)?;
    Ok(user_of(alloc, &system, &[b"a,1,1,1,X\n".as_slice()])?.image)
}

#[test]
fn changes_of_the_token(rt: HostRuntime) -> Result<(), Fail> {
    let image = one_token(rt.alloc())?;
    for (what, back, byte, expected) in &TOKEN_CHANGES {
        let at = image.len().saturating_sub(DIGEST).saturating_sub(*back);
        let fault = fault_with(rt.alloc(), &image, at, *byte, true)?;
        assert_eq!(rt; fault, *expected, "{what}");
    }
    Ok(())
}
