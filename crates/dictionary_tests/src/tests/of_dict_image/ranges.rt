//! System images of layout 3. Their section 3 has ranges of code points.
use super::images::sealed;
use super::lookups::has_info;
use super::older_system::{BOTH, ONE, ZERO, two_categories};
use crate::tests::samples::dict_of;
use dict_image::Dict;
use std::alloc::{AllocError, Global};
use std::test::Fail;

/// Returns section 3 with `ranges`, each a first code point and an entry.
fn ranges_of(alloc: Global, ranges: &[(u32, u32)]) -> Result<Vec<u8>, AllocError> {
    let mut bytes = Vec::new(alloc);
    for (first, entry) in ranges {
        bytes.extend_from_slice(&first.to_le_bytes())?;
        bytes.extend_from_slice(&entry.to_le_bytes())?;
    }
    Ok(bytes)
}

/// Ranges of one code point, and ranges that start at or after the end of the basic plane.
#[rattlefmt::skip]
static SHORT: [(u32, u32); 10] = [
    (0, ZERO), (0x41, ONE), (0x42, ZERO), (0xD7FF, ONE), (0xE000, BOTH), (0xE001, ZERO),
    (0xFFFF, ONE), (0x1_0000, BOTH), (0x1_0001, ZERO), (0x10_FFFF, ONE),
];

/// Ranges of which the second starts in the basic plane and ends after it.
static LONG: [(u32, u32); 3] = [(0, BOTH), (0xFFFE, ONE), (0x1_0001, ZERO)];

/// Code points and their categories.
#[rattlefmt::skip]
static CODE_POINTS: [(char, (u32, u8), (u32, u8)); 15] = [
    // (code point, its set of categories and its first category in short ranges, and in long ones)
    ('\0',         (1, 0), (3, 1)),
    ('@',          (1, 0), (3, 1)),
    ('A',          (2, 1), (3, 1)),
    ('B',          (1, 0), (3, 1)),
    ('\u{D7FE}',   (1, 0), (3, 1)),
    ('\u{D7FF}',   (2, 1), (3, 1)),
    ('\u{E000}',   (3, 1), (3, 1)),
    ('\u{E001}',   (1, 0), (3, 1)),
    ('\u{FFFD}',   (1, 0), (3, 1)),
    ('\u{FFFE}',   (1, 0), (2, 1)),
    ('\u{FFFF}',   (2, 1), (2, 1)),
    ('\u{10000}',  (3, 1), (2, 1)),
    ('\u{10001}',  (1, 0), (1, 0)),
    ('\u{10FFFE}', (1, 0), (1, 0)),
    ('\u{10FFFF}', (2, 1), (1, 0)),
];

/// Returns the dictionary of `ranges`.
fn dict_with(alloc: Global, ranges: &[(u32, u32)]) -> Result<Dict, Fail> {
    let body = two_categories(alloc, 3, &ranges_of(alloc, ranges)?)?;
    Ok(dict_of(alloc, sealed(alloc, &body)?)?)
}

#[test]
fn categories_of_ranges(rt: HostRuntime) -> Result<(), Fail> {
    let short = dict_with(rt.alloc(), &SHORT)?;
    let long = dict_with(rt.alloc(), &LONG)?;
    for (c, in_short, in_long) in &CODE_POINTS {
        let code = u32::from(*c);
        assert!(rt; has_info(&short, *c, *in_short), "short, {code}");
        assert!(rt; has_info(&long, *c, *in_long), "long, {code}");
    }
    Ok(())
}
