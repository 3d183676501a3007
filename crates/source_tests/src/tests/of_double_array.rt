//! Insertions, lookups, and allocation failures, which happen under `tests/out_of_memory/run.py`.
mod access;
mod growing;
mod grown_cells;
mod relocated;

use self::access::{has_hits, has_value, insert, inserts};
use double_array::{CellRead, DaFault, DoubleArray, Inserted};
use std::test::Fail;
use test_support::text::{FaultRow, expect_printed};

/// Keys in the order of their insertion.
#[rattlefmt::skip]
static INSERTED: [(&[u8], u32, Option<u32>); 3] = [
    // (key, value, the value before)
    (b"a", 5, None),
    (b"ab", 7, None),
    (b"a", 9, Some(5)),
];

/// Keys with their values.
#[rattlefmt::skip]
static VALUES: [(&[u8], Option<u32>); 5] = [
    // (key, value)
    (b"a", Some(9)),
    (b"ab", Some(7)),
    (b"b", None),
    (b"abc", None),
    (b"", None),
];

/// Texts with the keys that are prefixes of them.
#[rattlefmt::skip]
static HITS: [(&[u8], &[(usize, u32)], u64); 5] = [
    // (text, its prefixes: length and value, the number of cells that are read)
    (b"abc", &[(1, 9), (2, 7)], 6),
    (b"ab", &[(1, 9), (2, 7)], 5),
    (b"ac", &[(1, 9)], 4),
    (b"b", &[], 2),
    (b"", &[], 1),
];

#[test]
fn insert_and_walk(rt: HostRuntime) -> Result<(), Fail> {
    let mut array = DoubleArray::new(rt.alloc())?;
    for (key, number, old) in &INSERTED {
        assert!(rt; inserts(&mut array, key, *number, *old)?, "{number}");
    }
    for (key, expected) in &VALUES {
        assert!(rt; has_value(&array, key, *expected), "{key:?}");
    }
    for (text, hits, reads) in &HITS {
        assert!(rt; has_hits(&array, text, hits, *reads), "{text:?}");
    }
    Ok(())
}

#[test]
fn the_empty_array(rt: HostRuntime) -> Result<(), Fail> {
    let array = DoubleArray::new(rt.alloc())?;
    assert!(rt; (1..=600).contains(&array.len()));
    assert!(rt; has_value(&array, b"", None));
    assert!(rt; has_value(&array, b"\0", None));
    assert!(rt; has_hits(&array, b"a", &[], 2));
    Ok(())
}

/// Keys with the least and the greatest bytes and values.
#[rattlefmt::skip]
static ENDS: [(&[u8], u32); 4] = [
    // (key, value)
    (b"\0", 0),
    (b"\xff", 2_147_483_646),
    (b"\0\0", 2_147_483_645),
    (b"\xff\xff", 1),
];

#[test]
fn ends_of_the_numbers(rt: HostRuntime) -> Result<(), Fail> {
    let mut array = DoubleArray::new(rt.alloc())?;
    for (key, number) in &ENDS {
        assert!(rt; inserts(&mut array, key, *number, None)?, "{number}");
    }
    for (key, number) in &ENDS {
        assert!(rt; has_value(&array, key, Some(*number)), "{number}");
    }
    Ok(())
}

/// Errors of insertions.
#[rattlefmt::skip]
static FAULTS: [FaultRow<DaFault>; 2] = [
    // (error, code, name, text)
    (DaFault::Full,   "X1",     "Full",   "X1 Full"),
    (DaFault::Memory, "Memory", "Memory", "Memory"),
];

#[test]
fn words_of_faults(rt: HostRuntime) -> Result<(), Fail> {
    expect_printed(rt.alloc(), &FAULTS)
}

#[test]
fn a_long_key(rt: HostRuntime) -> Result<(), Fail> {
    let key = [7; 65_535];
    let mut array = DoubleArray::new(rt.alloc())?;
    let first = Inserted {
        old: None,
        moved: 0,
    };
    assert_eq!(rt; insert(&mut array, &key, 3)?, first);
    assert!(rt; has_value(&array, &key, Some(3)));
    assert!(rt; has_value(&array, &key[1..], None));
    assert!(rt; has_hits(&array, &key, &[(65_535, 3)], 131_071));
    Ok(())
}
