//! Allocation failures.
//!
//! Allocations fail under `tests/out_of_memory/run.py`, which expects the line `refused` on
//! standard error.

use super::samples::{chars_of, commented, info_of, info_with, unk_of};
use crate::tests::faults::{File, expect_faults};
use char_def::CharTable;
use mj_model::{CharInfo, sample};
use std::process::Abort;
use std::test::Fail;
use test_support::again;

/// Returns the number of the sample's categories.
fn count_of_chars(rt: &HostRuntime) -> Result<usize, Fail> {
    Ok(chars_of(rt, sample().chars)??.count())
}

/// Returns the number of categories that the sample's `unk.def` covers.
fn count_of_unk(rt: &HostRuntime) -> Result<usize, Fail> {
    Ok(unk_of(rt, sample().unk)??.count())
}

#[test]
fn tables_out_of_memory(rt: HostRuntime) -> Result<(), Fail> {
    assert!(rt; count_of_chars(&rt)? == 6);
    assert!(rt; count_of_unk(&rt)? == 6);
    Ok(())
}

/// Code points and their categories in the sample.
#[rattlefmt::skip]
static CODE_POINTS: [(u32, CharInfo); 6] = [
    // (code point, its categories)
    (0x20, CharInfo { bits: 2, head: 1 }),
    (0x3042, CharInfo { bits: 32, head: 5 }),
    (0x4DFF, CharInfo { bits: 1, head: 0 }),
    (0x4E00, CharInfo { bits: 16, head: 4 }),
    (0x9FFF, CharInfo { bits: 16, head: 4 }),
    (0xA000, CharInfo { bits: 1, head: 0 }),
];

/// Checks the number of the sample's categories, and the categories of `CODE_POINTS`.
fn expect_infos(rt: &impl Abort, chars: &CharTable) {
    assert!(rt; chars.count() == 6);
    for (code, expected) in &CODE_POINTS {
        assert!(rt; info_of(chars, *code) == Some(*expected), "{code}");
    }
}

#[test]
fn chars_out_of_memory(rt: HostRuntime) -> Result<(), Fail> {
    let bytes = again!(rt, Err(_), commented(rt.alloc()))?;
    expect_infos(&rt, &chars_of(&rt, &bytes)??);
    let info = info_with(&rt, b"0xFFFF KANJI\n", 0xFFFF)?;
    assert!(rt; info == Some(CharInfo { bits: 16, head: 4 }));
    Ok(())
}

#[test]
fn invalid_chars_out_of_memory(rt: HostRuntime) -> Result<(), Fail> {
    expect_faults(&rt, File::MoreChars)
}
