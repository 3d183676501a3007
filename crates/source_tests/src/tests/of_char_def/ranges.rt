//! Ranges of code points with the same categories.

use super::samples::{commented, joined, table_of};
use char_def::CategoryRange;
use mj_model::sample;
use std::alloc::Global;
use std::test::Fail;

/// A range: its first code point, its set of categories, and its first category.
type Range = (u32, u32, u8);

/// Returns whether `found` are the ranges `expected`.
fn are_ranges(found: &[CategoryRange], expected: &[Range]) -> bool {
    let mut all = found.len() == expected.len();
    for (range, expected) in found.iter().zip(expected) {
        let (first, bits, head) = *expected;
        let same = range.info.bits == bits && range.info.head == head;
        all = all && range.first == first && same;
    }
    all
}

/// Returns whether the `char.def` `bytes` has the ranges `expected`.
fn has_ranges(alloc: Global, bytes: &[u8], expected: &[Range]) -> Result<bool, Fail> {
    let ranges = table_of(alloc, bytes)?.ranges(alloc)?;
    Ok(are_ranges(&ranges, expected))
}

/// Returns whether DEFAULT and SPACE with `mappings` have the ranges `expected`.
fn are_mapped(alloc: Global, mappings: &[u8], expected: &[Range]) -> Result<bool, Fail> {
    let bytes = joined(alloc, b"DEFAULT 0 1 0\nSPACE 0 1 0\n", mappings)?;
    has_ranges(alloc, &bytes, expected)
}

/// Mappings and their ranges.
#[rattlefmt::skip]
static RANGES: [(&str, &[u8], &[Range]); 11] = [
    // (what, mappings, ranges)
    ("no mapping", b"", &[(0, 1, 0)]),
    ("a mapping", b"0x41..0x5A SPACE", &[(0, 1, 0), (0x41, 2, 1), (0x5B, 1, 0)]),
    ("from code point 0 on", b"0x00..0x1F SPACE", &[(0, 2, 1), (0x20, 1, 0)]),
    ("code point 0 alone", b"0x0 SPACE DEFAULT", &[(0, 3, 1), (1, 1, 0)]),
    ("up to the last code point", b"0x80..0x10FFFF SPACE", &[(0, 1, 0), (0x80, 2, 1)]),
    ("the last code point alone", b"0x10FFFF SPACE", &[(0, 1, 0), (0x10FFFF, 2, 1)]),
    ("all code points", b"0x0..0x10FFFF SPACE", &[(0, 2, 1)]),
    ("DEFAULT by a mapping", b"0x41 DEFAULT", &[(0, 1, 0)]),
    ("side by side", b"0x3 SPACE\n0x1..0x2 SPACE", &[(0, 1, 0), (1, 2, 1), (4, 1, 0)]),
    ("other order", b"0x0 SPACE DEFAULT\n0x1 DEFAULT SPACE", &[(0, 3, 1), (1, 3, 0), (2, 1, 0)]),
    ("nested", b"0x0..0x2 SPACE\n0x1 DEFAULT", &[(0, 2, 1), (1, 1, 0), (2, 2, 1), (3, 1, 0)]),
];

/// The ranges of the sample.
#[rattlefmt::skip]
static OF_THE_SAMPLE: [Range; 13] = [
    (0,      1,  0), (0x20, 2, 1), (0x21, 1, 0),
    (0x41, 4, 2), (0x5B, 1, 0), (0x61, 4, 2), (0x7B, 1, 0),
    (0x3041, 32, 5), (0x30A0, 1, 0),
    (0x30A1, 8,  3), (0x3100, 1, 0),
    (0x4E00, 16, 4), (0xA000, 1, 0),
];

#[test]
fn ranges(rt: HostRuntime) -> Result<(), Fail> {
    for (what, mappings, expected) in &RANGES {
        assert!(rt; are_mapped(rt.alloc(), mappings, expected)?, "{what}");
    }
    Ok(())
}

#[test]
fn ranges_of_the_sample(rt: HostRuntime) -> Result<(), Fail> {
    let plain = has_ranges(rt.alloc(), sample().chars, &OF_THE_SAMPLE)?;
    assert!(rt; plain, "the sample");
    let bytes = commented(rt.alloc())?;
    let same = has_ranges(rt.alloc(), &bytes, &OF_THE_SAMPLE)?;
    assert!(rt; same, "with comments");
    Ok(())
}
