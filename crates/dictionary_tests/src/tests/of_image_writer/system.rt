//! The image of the sample's sources, byte for byte except the cells of its keys. It has six
//! categories, numbered from 0, each with an unknown entry.
use super::samples::{sample_image, section};
use image_format::{DIGEST_LENGTH, HEADER_LENGTH, read_header};
use sha2::{Digest, Sha256};
use std::alloc::{AllocError, Global};
use std::process::Abort;
use std::test::Fail;

/// The header of the sample's image up to the lengths of its sections: layout 3, kind 0, 2 right
/// ids, 2 left ids, 6 categories, 3 groups, 3 tokens and 6 unknown entries.
static HEADER: &[u8; 40] =
    b"MJDICT\r\n\x03\0\0\0\0\0\0\0\x02\0\0\0\x02\0\0\0\x06\0\0\0\x03\0\0\0\x03\0\0\0\x06\0\0\0";

/// The lengths of sections 1 to 4.
static START_LENGTHS: &[u8; 32] =
    b"\x08\0\0\0\0\0\0\0\x3e\0\0\0\0\0\0\0\x68\0\0\0\0\0\0\0\x1c\0\0\0\0\0\0\0";

/// The lengths of sections 6 to 8.
static END_LENGTHS: &[u8; 24] = b"\x10\0\0\0\0\0\0\0\x90\0\0\0\0\0\0\0\x2d\0\0\0\0\0\0\0";

/// Sections 1 to 4: the costs of right id 0 and of right id 1; the categories; for each range its
/// first code point, its set of categories and its first category; the first unknown entry of each
/// category.
static START: &[u8; 202] = b"\0\0\x0a\0\x05\0\x07\0\
    \0\x01\0\x07DEFAULT\0\x01\0\x05SPACE\x01\x01\0\x05ALPHA\
    \x01\x01\x02\x08KATAKANA\0\0\x02\x05KANJI\0\x01\x02\x08HIRAGANA\
    \0\0\0\0\x01\0\0\0\x20\0\0\0\x02\0\x04\0\
    \x21\0\0\0\x01\0\0\0\x41\0\0\0\x04\0\x08\0\
    \x5b\0\0\0\x01\0\0\0\x61\0\0\0\x04\0\x08\0\
    \x7b\0\0\0\x01\0\0\0\x41\x30\0\0\x20\0\x14\0\
    \xa0\x30\0\0\x01\0\0\0\xa1\x30\0\0\x08\0\x0c\0\
    \0\x31\0\0\x01\0\0\0\0\x4e\0\0\x10\0\x10\0\
    \0\xa0\0\0\x01\0\0\0\
    \x03\0\0\0\x04\0\0\0\x05\0\0\0\x06\0\0\0\x07\0\0\0\x08\0\0\0\x09\0\0\0";

/// Section 6 and the tokens of the lexicon.
static TOKENS: &[u8; 64] = b"\0\0\0\0\x01\0\0\0\x02\0\0\0\x03\0\0\0\
    \x01\0\x01\0\x64\0\0\0\0\0\0\0\x10\0\0\0\
    \x01\0\x01\0\x14\0\0\0\x10\0\0\0\x0a\0\0\0\
    \x01\0\x01\0\x1e\0\0\0\x1a\0\0\0\x0d\0\0\0";

/// The token of each unknown entry.
static UNKNOWN_TOKEN: &[u8; 16] = b"\x01\0\x01\0\xe8\x03\0\0\x27\0\0\0\x06\0\0\0";

/// The features in the order of section 8.
static FEATURES: [&str; 4] = ["名詞,すもも", "助詞,も", "名詞,もも", "未知"];

/// The tokens of the lexicon, and the token of each unknown entry.
#[rattlefmt::skip]
static TOKEN_ROWS: [(&str, &[u8; 16]); 9] = [
    // (what, left id, right id, cost, spare bytes, position and length of the feature)
    ("すもも", b"\x01\0\x01\0\x64\0\0\0\0\0\0\0\x10\0\0\0"),
    ("も", b"\x01\0\x01\0\x14\0\0\0\x10\0\0\0\x0a\0\0\0"),
    ("もも", b"\x01\0\x01\0\x1e\0\0\0\x1a\0\0\0\x0d\0\0\0"),
    ("DEFAULT", b"\x01\0\x01\0\xe8\x03\0\0\x27\0\0\0\x06\0\0\0"),
    ("SPACE", b"\x01\0\x01\0\xe8\x03\0\0\x27\0\0\0\x06\0\0\0"),
    ("ALPHA", b"\x01\0\x01\0\xe8\x03\0\0\x27\0\0\0\x06\0\0\0"),
    ("KATAKANA", b"\x01\0\x01\0\xe8\x03\0\0\x27\0\0\0\x06\0\0\0"),
    ("KANJI", b"\x01\0\x01\0\xe8\x03\0\0\x27\0\0\0\x06\0\0\0"),
    ("HIRAGANA", b"\x01\0\x01\0\xe8\x03\0\0\x27\0\0\0\x06\0\0\0"),
];

/// Returns the first feature that does not follow the one before it.
fn missing_feature(bytes: &[u8]) -> Option<&'static str> {
    let mut rest = bytes;
    for feature in &FEATURES {
        if !rest.starts_with(feature.as_bytes()) {
            return Some(*feature);
        }
        rest = rest.get(feature.len()..).unwrap_or(b"");
    }
    None
}

/// Returns the number of groups of `image`, if it has a header.
fn groups_of(image: &[u8]) -> Option<u32> {
    if image.len() < HEADER_LENGTH {
        return None;
    }
    Some(read_header(image).groups)
}

/// Returns the first token that does not follow the one before it, or a label if bytes follow the
/// last one.
fn wrong_token(bytes: &[u8]) -> Option<&'static str> {
    let mut rest = bytes;
    for (what, token) in &TOKEN_ROWS {
        match rest.strip_prefix(token.as_slice()) {
            Some(after) => rest = after,
            None => return Some(*what),
        }
    }
    if rest.is_empty() {
        None
    } else {
        Some("following the tokens")
    }
}

/// Checks the lexicon of the sample's image.
fn expect_lexicon(rt: &impl Abort, image: &[u8]) {
    let groups = b"\0\0\0\0\x01\0\0\0\x02\0\0\0\x03\0\0\0";
    assert!(rt; groups_of(image) == Some(3));
    assert!(rt; section(image, 6) == groups.as_slice());
    assert!(rt; section(image, 8).len() == 45);
    assert_eq!(rt; missing_feature(section(image, 8)), None);
    assert_eq!(rt; wrong_token(section(image, 7)), None);
}

#[test]
fn sections_of_the_lexicon(rt: HostRuntime) -> Result<(), Fail> {
    expect_lexicon(&rt, &sample_image(rt.alloc())?);
    Ok(())
}

/// Returns the tokens and features, which are the end of the sections.
fn end_of_sections(alloc: Global) -> Result<Vec<u8>, AllocError> {
    let mut end = Vec::from_slice(alloc, TOKENS)?;
    for _ in 0..6 {
        end.extend_from_slice(UNKNOWN_TOKEN)?;
    }
    end.extend_from_slice("名詞,すもも助詞,も名詞,もも未知".as_bytes())?;
    Ok(end)
}

/// Checks the sample's image, whose sections end with `end`.
fn expect_image(rt: &impl Abort, image: &[u8], end: &[u8]) {
    assert!(rt; image.starts_with(HEADER));
    assert!(rt; image.get(40..72) == Some(START_LENGTHS.as_slice()));
    assert!(rt; image.get(80..104) == Some(END_LENGTHS.as_slice()));
    assert!(rt; image.get(104..306) == Some(START.as_slice()));

    let body = &image[..image.len().saturating_sub(DIGEST_LENGTH)];
    assert!(rt; body.ends_with(end));
    assert!(rt; image.ends_with(&Sha256::digest(body)));
}

#[test]
fn the_whole_image(rt: HostRuntime) -> Result<(), Fail> {
    let end = end_of_sections(rt.alloc())?;
    expect_image(&rt, &sample_image(rt.alloc())?, &end);
    Ok(())
}
