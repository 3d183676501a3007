//! The user image of layout 3 with the single surface `a`.
use super::images::user_image;
use super::lookups::{are_prefixes, is_user_with};
use crate::tests::samples::{Expected, NONE, are_entries, dict_of, fault_of};
use dict_image::Dict;
use mj_model::ImageFault;
use std::alloc::{AllocError, Global};
use std::test::Fail;

/// Returns the dictionary of the single surface `a`.
fn dict_of_a(alloc: Global) -> Result<Dict, Fail> {
    Ok(dict_of(alloc, user_image(alloc, 3)?)?)
}

/// Keys and their entries.
#[rattlefmt::skip]
static ENTRIES: [(&str, &[Expected]); 4] = [
    // (key, its entries)
    ("a", &[(0, 1, 1, 1, "X")]),
    ("b", NONE),
    ("", NONE),
    ("ab", NONE),
];

#[test]
fn entries_of_keys(rt: HostRuntime) -> Result<(), Fail> {
    let dict = dict_of_a(rt.alloc())?;
    assert!(rt; is_user_with(&dict, "a", 1, "b"));
    for (key, entries) in &ENTRIES {
        assert!(rt; are_entries(&dict, key, entries), "{key}");
    }
    Ok(())
}

/// Tokens and their features.
static FEATURES: [(u32, Option<&str>); 2] = [(0, Some("X")), (1, None)];

/// Returns the feature of token `number` of the lexicon, if it exists.
fn known_feature<'a>(dict: &'a Dict, number: u32) -> Option<&'a str> {
    let token = dict.known_token(number)?;
    Some(token.feature)
}

#[test]
fn entries_of_numbers(rt: HostRuntime) -> Result<(), Fail> {
    let dict = dict_of_a(rt.alloc())?;
    for (number, feature) in &FEATURES {
        assert_eq!(rt; known_feature(&dict, *number), *feature, "{number}");
        assert!(rt; dict.unknown_token(*number).is_none(), "{number}");
    }
    Ok(())
}

/// Texts, and the keys that are prefixes of them.
#[rattlefmt::skip]
static TEXTS: [(&str, &[(usize, u32)], u64); 4] = [
    // (text, the length of its only prefix and its token, the number of cells read; those of `b`
    // don't exist)
    ("ab", &[(1, 0)], 3),
    ("a", &[(1, 0)], 3),
    ("ba", &[], 1),
    ("", &[], 1),
];

#[test]
fn keys_that_start_a_text(rt: HostRuntime) -> Result<(), Fail> {
    let dict = dict_of_a(rt.alloc())?;
    for (text, prefixes, reads) in &TEXTS {
        assert!(rt; are_prefixes(&dict, text, prefixes, *reads), "{text}");
    }
    Ok(())
}

/// Images of another length, or with another byte.
#[rattlefmt::skip]
static REJECTED: [(&str, usize, &[u8], ImageFault); 3] = [
    // (what, how many bytes are kept, the bytes after them, the error)
    ("the last byte left out", 960, b"",  ImageFault::Truncated),
    ("a byte more",            961, b"\0",          ImageFault::BadSection(9)),
    ("another last byte",      960, b"\0",          ImageFault::Digest),
];

/// Returns the error of loading the first `length` bytes of the image, followed by `more`.
fn fault_with(alloc: Global, length: usize, more: &[u8]) -> Result<Option<ImageFault>, AllocError> {
    let mut bytes = user_image(alloc, 3)?;
    bytes.truncate(length);
    bytes.extend_from_slice(more)?;
    Ok(fault_of(alloc, bytes))
}

#[test]
fn invalid_images(rt: HostRuntime) -> Result<(), Fail> {
    for (what, length, more, fault) in &REJECTED {
        let found = fault_with(rt.alloc(), *length, more)?;
        assert_eq!(rt; found, Some(*fault), "{what}");
    }
    Ok(())
}
