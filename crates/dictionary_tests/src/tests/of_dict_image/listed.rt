//! User images of layout 1 with several keys.
use super::images::image;
use super::lookups::are_prefixes;
use crate::tests::samples::{Expected, are_entries, dict_of, fault_of};
use dict_image::Dict;
use mj_model::ImageFault::{self, BadKey, BadSection};
use std::alloc::{AllocError, Global};
use std::test::Fail;

/// Returns the user image with `keys` as section 5, which should list `groups` keys. Group i has
/// the only token i, whose cost is i.
fn with_keys(alloc: Global, groups: u8, keys: &[u8]) -> Result<Vec<u8>, AllocError> {
    let mut index = Vec::new(alloc);
    let mut tokens = Vec::new(alloc);
    index.extend_from_slice(b"\0\0\0\0")?;
    for group in 0..groups {
        index.extend_from_slice(&(u32::from(group) + 1).to_le_bytes())?;
        tokens.extend_from_slice(&[1, 0, 1, 0, group, 0, 0, 0])?;
        tokens.extend_from_slice(b"\0\0\0\0\x01\0\0\0")?;
    }
    let count = u32::from(groups);
    let sections = [b"".as_slice(), b"", b"", b"", keys, &index, &tokens, b"X"];
    image(alloc, [1, 1, 2, 2, 0, count, count, 0], sections)
}

/// Returns the dictionary of a section 5 that lists five keys.
fn dict_with(alloc: Global, keys: &[u8]) -> Result<Dict, Fail> {
    Ok(dict_of(alloc, with_keys(alloc, 5, keys)?)?)
}

/// The five keys `a`, `ab`, `abc`, `b` and `もも`.
const FIVE: &[u8] = b"\x01\0a\x02\0ab\x03\0abc\x01\0b\x06\0\xe3\x82\x82\xe3\x82\x82";

/// Keys and their entries.
#[rattlefmt::skip]
static ENTRIES: [(&str, &[Expected]); 10] = [
    // (key, its only entry)
    ("a",    &[(0, 1, 1, 0, "X")]),
    ("ab",   &[(1, 1, 1, 1, "X")]),
    ("abc",  &[(2, 1, 1, 2, "X")]),
    ("b",    &[(3, 1, 1, 3, "X")]),
    ("もも", &[(4, 1, 1, 4, "X")]),
    ("ac",   &[]),
    ("abcd", &[]),
    ("も",   &[]),
    ("ん",   &[]),
    ("",     &[]),
];

#[test]
fn entries_of_five_keys(rt: HostRuntime) -> Result<(), Fail> {
    let dict = dict_with(rt.alloc(), FIVE)?;
    for (key, entry) in &ENTRIES {
        assert!(rt; are_entries(&dict, key, entry), "{key}");
    }
    Ok(())
}

/// Keys that are far from the shorter ones that are their prefixes: `a`, `aab`, `abc`, `abcd` and
/// `c`.
const OTHERS: &[u8] = b"\x01\0a\x03\0aab\x03\0abc\x04\0abcd\x01\0c";

/// Texts, and the keys that are prefixes of them.
#[rattlefmt::skip]
static PREFIXES: [(&[u8], &str, &[(usize, u32)]); 14] = [
    // (keys, text, the lengths of its prefixes, each with its token)
    (FIVE,   "abcd",   &[(1, 0), (2, 1), (3, 2)]),
    (FIVE,   "ab",     &[(1, 0), (2, 1)]),
    (FIVE,   "ac",     &[(1, 0)]),
    (FIVE,   "b",      &[(1, 3)]),
    (FIVE,   "もももも", &[(6, 4)]),
    (FIVE,   "もa",    &[]),
    (FIVE,   "x",      &[]),
    (FIVE,   "",       &[]),
    (OTHERS, "abcd", &[(1, 0), (3, 2), (4, 3)]),
    (OTHERS, "abce", &[(1, 0), (3, 2)]),
    (OTHERS, "aab",  &[(1, 0), (3, 1)]),
    (OTHERS, "ab",   &[(1, 0)]),
    (OTHERS, "c",    &[(1, 4)]),
    (OTHERS, "b",    &[]),
];

/// Returns whether `expected` are the prefixes of `text`. No cells are read to find them.
fn has_prefixes(
    alloc: Global,
    keys: &[u8],
    text: &str,
    expected: &[(usize, u32)],
) -> Result<bool, Fail> {
    let dict = dict_with(alloc, keys)?;
    Ok(are_prefixes(&dict, text, expected, 0))
}

#[test]
fn prefixes_of_listed_keys(rt: HostRuntime) -> Result<(), Fail> {
    for (keys, text, expected) in &PREFIXES {
        let has = has_prefixes(rt.alloc(), keys, text, expected)?;
        assert!(rt; has, "{text} among {} bytes of keys", keys.len());
    }
    Ok(())
}

/// Sections 5 of layout 1.
#[rattlefmt::skip]
static LISTED: [(&str, u8, &[u8], Option<ImageFault>); 25] = [
    // (what, the number of keys in the header, section 5, the error)
    ("none",                       0, b"",                         None),
    ("none, and a byte",           0, b"\0",                       Some(BadSection(5))),
    ("five",                       5, FIVE,                        None),
    ("one more is requested",      6, FIVE,                        Some(BadKey(5))),
    ("one fewer is requested",     4, FIVE,                        Some(BadSection(5))),
    ("b, a",                       2, b"\x01\0b\x01\0a",           Some(BadKey(1))),
    ("ab, a",                      2, b"\x02\0ab\x01\0a",          Some(BadKey(1))),
    ("a, a",                       2, b"\x01\0a\x01\0a",           Some(BadKey(1))),
    ("b, a, a: the first is reported", 3, b"\x01\0b\x01\0a\x01\0a",    Some(BadKey(1))),
    ("a, b, a",                    3, b"\x01\0a\x01\0b\x01\0a",    Some(BadKey(2))),
    ("U+007F, U+0080",             2, b"\x01\0\x7f\x02\0\xc2\x80", None),
    ("an empty key",               1, b"\0\0",                     Some(BadKey(0))),
    ("an empty key, bytes after",  1, b"\0\0\xe3\x82\x82\xe3\x82\x82", Some(BadKey(0))),
    ("a, and an empty key",        2, b"\x01\0a\0\0",              Some(BadKey(1))),
    ("a key cut by the end",       1, b"\x02\0a",                  Some(BadKey(0))),
    ("half a length alone",        1, b"\x06",                      Some(BadKey(0))),
    ("a length cut by the end",    2, b"\x01\0a\x01",              Some(BadKey(1))),
    ("a key not UTF-8",            1, b"\x01\0\xff",               Some(BadKey(0))),
    ("halves of a character",      2, b"\x01\0\xc2\x01\0\xc3",     Some(BadKey(0))),
    ("a byte after",               2, b"\x01\0a\x01\0b\0",         Some(BadSection(5))),
    ("a, not UTF-8, cut",          3, b"\x01\0a\x01\0\xff\x05\0b", Some(BadKey(1))),
    ("a first byte not UTF-8",     1, b"\x06\0\xff\x82\x82\xe3\x82\x82",  Some(BadKey(0))),
    ("a shorter key, bytes after", 1, b"\x03\0\xe3\x82\x82\xe3\x82\x82", Some(BadSection(5))),
    ("cut inside a character",     1, b"\x05\0\xe3\x82\x82\xe3\x82\x82",  Some(BadKey(0))),
    ("longer than the section",    1, b"\x07\0\xe3\x82\x82\xe3\x82\x82",  Some(BadKey(0))),
];

#[test]
fn listed_keys(rt: HostRuntime) -> Result<(), Fail> {
    for (what, groups, keys, expected) in &LISTED {
        let fault = fault_of(rt.alloc(), with_keys(rt.alloc(), *groups, keys)?);
        assert_eq!(rt; fault, *expected, "{what}");
    }
    Ok(())
}
