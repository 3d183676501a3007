//! System images of layouts 1 and 2. Their section 3 has an entry for each code point up to U+FFFE.
use super::images::image;
use super::lookups::has_info;
use crate::tests::samples::{dict_of, fault_of};
use dict_image::Dict;
use mj_model::ImageFault::{self, BadSection};
use std::alloc::{AllocError, Global};
use std::test::Fail;

/// The entry of category 0 alone.
pub(crate) const ZERO: u32 = 1;
/// The entry of category 1 alone.
pub(crate) const ONE: u32 = 1 << 18 | 2;
/// The entry of both categories, of which category 1 is the first.
pub(crate) const BOTH: u32 = 1 << 18 | 3;

/// Returns the entry of `code` in `others`, or else `ZERO`.
fn entry_of(others: &[(u32, u32)], code: u32) -> u32 {
    for (other, entry) in others {
        if *other == code {
            return *entry;
        }
    }
    ZERO
}

/// Returns section 3 with the entries `others`, and `ZERO` for all other code points up to U+FFFE.
fn entries_with(alloc: Global, others: &[(u32, u32)]) -> Result<Vec<u8>, AllocError> {
    let mut entries = Vec::new(alloc);
    for code in 0..0xFFFF_u32 {
        entries.extend_from_slice(&entry_of(others, code).to_le_bytes())?;
    }
    Ok(entries)
}

/// Returns the system image of layout `layout`, without a checksum. It has two categories, each
/// with one unknown token, and no keys.
pub(crate) fn two_categories(
    alloc: Global,
    layout: u32,
    infos: &[u8],
) -> Result<Vec<u8>, AllocError> {
    let categories = b"\0\x01\0\x07DEFAULT\x01\0\0\x01A";
    let index = b"\0\0\0\0\x01\0\0\0\x02\0\0\0";
    let root = b"\x01\0\0\0\xfe\xff\xff\xff";
    let keys = if layout == 1 { b"".as_slice() } else { root };
    let tokens = b"\0\0\0\0\0\0\0\0\0\0\0\0\x01\0\0\0\0\0\0\0\0\0\0\0\0\0\0\0\x01\0\0\0";
    #[rattlefmt::skip]
    let sections = [b"\0\0".as_slice(), categories, infos, index, keys, b"\0\0\0\0", tokens, b"X"];
    image(alloc, [layout, 0, 1, 1, 2, 0, 0, 2], sections)
}

/// Code points and their categories.
#[rattlefmt::skip]
static CODE_POINTS: [(char, (u32, u8)); 8] = [
    // (code point, its set of categories, its first category)
    ('\0',         (3, 1)),
    ('\u{1}',      (1, 0)),
    ('あ',         (2, 1)),
    ('\u{FFFD}',   (1, 0)),
    ('\u{FFFE}',   (2, 1)),
    ('\u{FFFF}',   (3, 1)),
    ('\u{10000}',  (3, 1)),
    ('\u{10FFFF}', (3, 1)),
];

/// Returns the dictionary of layout `layout` in which three code points have other categories.
fn dict_in(alloc: Global, layout: u32) -> Result<Dict, Fail> {
    let infos = entries_with(alloc, &[(0, BOTH), (0x3042, ONE), (0xFFFE, ONE)])?;
    Ok(dict_of(alloc, two_categories(alloc, layout, &infos)?)?)
}

#[test]
fn categories_of_code_points(rt: HostRuntime) -> Result<(), Fail> {
    for layout in [1, 2] {
        let dict = dict_in(rt.alloc(), layout)?;
        for (c, info) in &CODE_POINTS {
            assert!(rt;
                has_info(&dict, *c, *info),
                "layout {layout}, {}",
                u32::from(*c)
            );
        }
    }
    Ok(())
}

/// Returns the error of the image of layout `layout` with `infos` as section 3.
fn fault_with(alloc: Global, layout: u32, infos: &[u8]) -> Result<Option<ImageFault>, AllocError> {
    Ok(fault_of(alloc, two_categories(alloc, layout, infos)?))
}

/// Changed entries of code points.
#[rattlefmt::skip]
static CHANGED: [(&str, &[(u32, u32)], Option<ImageFault>); 8] = [
    // (what, code points and their entries, the error)
    ("both categories",                    &[(0, BOTH), (0xFFFE, ONE)],    None),
    ("no category",                        &[(0, 0)],                      Some(BadSection(3))),
    ("the first one not in the set",       &[(0x20, 2)],                   Some(BadSection(3))),
    ("category 1 not in the set",          &[(0x20, 1 << 18 | 1)],         Some(BadSection(3))),
    ("category 2 in the set",              &[(0x20, 5)],                   Some(BadSection(3))),
    ("category 2 the first",               &[(0x20, 2 << 18 | 5)],         Some(BadSection(3))),
    ("category 17 in the set of the last", &[(0xFFFE, 1 << 17 | 1)],       Some(BadSection(3))),
    ("a first category of 14 bits",        &[(0xFFFE, 0x3FFF << 18 | 1)],  Some(BadSection(3))),
];

#[test]
fn changed_entries(rt: HostRuntime) -> Result<(), Fail> {
    for (what, others, expected) in &CHANGED {
        let infos = entries_with(rt.alloc(), others)?;
        let first = fault_with(rt.alloc(), 1, &infos)?;
        let second = fault_with(rt.alloc(), 2, &infos)?;
        assert_eq!(rt; (first, second), (*expected, *expected), "{what}");
    }
    Ok(())
}

/// All bytes of the entries.
const ALL: usize = usize::MAX;

/// Sections 3 with missing or additional bytes.
#[rattlefmt::skip]
static OTHER_SECTIONS: [(&str, u32, usize, &[u8], Option<ImageFault>); 9] = [
    // (what, layout, how many bytes are missing at the start, the bytes after the entries, the
    // error)
    ("entries",   1, 0,   b"",                 None),
    ("entries",   2, 0,   b"",                 None),
    ("a range",   1, ALL, b"\0\0\0\0\x01\0\0\0", Some(BadSection(3))),
    ("a range",   2, ALL, b"\0\0\0\0\x01\0\0\0", Some(BadSection(3))),
    ("none",      1, ALL, b"",                 Some(BadSection(3))),
    ("one fewer", 1, 4,   b"",                 Some(BadSection(3))),
    ("one fewer", 2, 4,   b"",                 Some(BadSection(3))),
    ("one more",  1, 0,   b"\x01\0\0\0",      Some(BadSection(3))),
    ("one more",  2, 0,   b"\x01\0\0\0",      Some(BadSection(3))),
];

/// Returns the error of the image of layout `layout` without the first `left_out` bytes of the
/// entries, and with `following` after them.
fn fault_of_part(
    alloc: Global,
    layout: u32,
    left_out: usize,
    following: &[u8],
) -> Result<Option<ImageFault>, AllocError> {
    let entries = entries_with(alloc, &[])?;
    let mut infos = Vec::from_slice(alloc, entries.get(left_out..).unwrap_or(b""))?;
    infos.extend_from_slice(following)?;
    fault_with(alloc, layout, &infos)
}

#[test]
fn other_sections_of_entries(rt: HostRuntime) -> Result<(), Fail> {
    for (what, layout, left_out, following, expected) in &OTHER_SECTIONS {
        let fault = fault_of_part(rt.alloc(), *layout, *left_out, following)?;
        assert_eq!(rt; fault, *expected, "{what}, layout {layout}");
    }
    Ok(())
}
