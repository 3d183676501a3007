//! A system image with one category and one unknown token, and its changes.
use super::changes::{Changed, Row, expect_faults};
use super::images::{image, sealed};
use crate::tests::samples::fault_of;
use mj_model::ImageFault::{self, BadSection, BadText, BadToken};
use std::alloc::{AllocError, Global};
use std::test::Fail;

/// The range of all code points.
pub(crate) const ONE_RANGE: &[u8] = b"\0\0\0\0\x01\0\0\0";

/// Returns the image without its checksum, with `ranges` as section 3.
pub(crate) fn one_category(alloc: Global, ranges: &[u8]) -> Result<Vec<u8>, AllocError> {
    let categories = b"\0\x01\0\x07DEFAULT";
    let index = b"\0\0\0\0\x01\0\0\0";
    let root = b"\x01\0\0\0\xfe\xff\xff\xff";
    let tokens = b"\0\0\0\0\0\0\0\0\0\0\0\0\x01\0\0\0";
    #[rattlefmt::skip]
    let sections = [b"\0\0".as_slice(), categories, ranges, index, root, b"\0\0\0\0", tokens, b"X"];
    image(alloc, [3, 0, 1, 1, 1, 0, 0, 1], sections)
}

/// Changes of the image.
#[rattlefmt::skip]
static CHANGES: [Row; 18] = [
    ("no change",             &[],               None),
    ("no categories",         &[(24, b"\0")],    Some(BadSection(0))),
    ("19 categories",         &[(24, b"\x13")],  Some(BadSection(0))),
    ("two right ids",         &[(16, b"\x02")],  Some(BadSection(1))),
    ("two categories",        &[(24, b"\x02")],  Some(BadSection(2))),
    ("INVOKE 2",              &[(106, b"\x02")], Some(BadSection(2))),
    ("GROUP 2",               &[(107, b"\x02")], Some(BadSection(2))),
    ("LENGTH 15",             &[(108, b"\x0f")], None),
    ("LENGTH 16",             &[(108, b"\x10")], Some(BadSection(2))),
    ("empty name",            &[(109, b"\0")],   Some(BadSection(2))),
    ("name past the section", &[(109, b"\x08")], Some(BadSection(2))),
    ("name not UTF-8",        &[(110, b"\xff")], Some(BadSection(2))),
    ("index from 1",          &[(125, b"\x01")], Some(BadSection(4))),
    ("index up to 2",         &[(129, b"\x02")], Some(BadSection(4))),
    ("cell 0 has check -1",   &[(137, b"\xff")], Some(BadSection(5))),
    ("groups from token 1",   &[(141, b"\x01")], Some(BadSection(6))),
    ("right id 1",            &[(147, b"\x01")], Some(BadToken(0))),
    ("feature not UTF-8",     &[(161, b"\x80")], Some(BadText(0))),
];

#[test]
fn changes_of_sections(rt: HostRuntime) -> Result<(), Fail> {
    expect_faults(&rt, Changed::System, &CHANGES)
}

/// Sections of ranges.
#[rattlefmt::skip]
static RANGES: [(&str, &[u8], Option<ImageFault>); 9] = [
    // (what, section 3, the error)
    ("two ranges", b"\0\0\0\0\x01\0\0\0\xff\xff\x10\0\x01\0\0\0", None),
    ("none", b"", Some(BadSection(3))),
    ("half a range", b"\0\0\0\0", Some(BadSection(3))),
    ("the first from 1", b"\x01\0\0\0\x01\0\0\0", Some(BadSection(3))),
    ("equal first code points", b"\0\0\0\0\x01\0\0\0\0\0\0\0\x01\0\0\0", Some(BadSection(3))),
    ("past U+10FFFF", b"\0\0\0\0\x01\0\0\0\0\0\x11\0\x01\0\0\0", Some(BadSection(3))),
    ("no category", b"\0\0\0\0\0\0\0\0", Some(BadSection(3))),
    ("first category 1", b"\0\0\0\0\x01\0\x04\0", Some(BadSection(3))),
    ("category 1 in the set", b"\0\0\0\0\x03\0\0\0", Some(BadSection(3))),
];

/// Returns the error of loading the image with `ranges` and its checksum.
fn fault_of_ranges(alloc: Global, ranges: &[u8]) -> Result<Option<ImageFault>, AllocError> {
    let body = one_category(alloc, ranges)?;
    Ok(fault_of(alloc, sealed(alloc, &body)?))
}

#[test]
fn ranges_of_code_points(rt: HostRuntime) -> Result<(), Fail> {
    for (what, ranges, expected) in &RANGES {
        let fault = fault_of_ranges(rt.alloc(), ranges)?;
        assert_eq!(rt; fault, *expected, "{what}");
    }
    Ok(())
}
