//! Lookups in dictionaries.
use super::plain_walk::reads_for;
use crate::tests::samples::{NONE, are_entries};
use dict_image::{Dict, Entries};
use mj_model::{CharInfo, MatrixSizes};

/// Returns whether `dict` is a user dictionary for 2 right ids and 2 left ids, with one entry of
/// cost `cost` at `key` and none at `other`.
pub(crate) fn is_user_with(dict: &Dict, key: &str, cost: i16, other: &str) -> bool {
    dict.is_user()
        && dict.matrix_sizes() == MatrixSizes { right: 2, left: 2 }
        && are_entries(dict, key, &[(0, 1, 1, cost, "X")])
        && are_entries(dict, other, NONE)
}

/// Returns whether the next entry has the token `token`.
fn is_next(entries: &mut Entries<'_>, token: u32) -> bool {
    match entries.next() {
        Some(entry) => entry.token == token,
        None => false,
    }
}

/// Returns whether `expected` are the prefixes of `text`, and `reads` cells are read to find them.
///
/// Each item of `expected` is the length of a key and the token of its first entry.
pub(crate) fn are_prefixes(dict: &Dict, text: &str, expected: &[(usize, u32)], reads: u64) -> bool {
    let mut prefixes = dict.prefixes(text);
    for (length, token) in expected {
        let Some((found, mut entries)) = prefixes.next() else {
            return false;
        };
        if found != *length || !is_next(&mut entries, *token) {
            return false;
        }
    }
    prefixes.next().is_none() && prefixes.reads() == reads
}

/// Texts that are looked up.
static TEXTS: [&str; 6] = ["", "a", "ab", "も", "ももa", "\0"];

/// Returns whether all lookups in `dict` succeed, and read the cells that the plain reader counts.
pub(crate) fn passes_all_lookups(dict: &Dict, image: &[u8]) -> bool {
    for text in &TEXTS {
        let reads = reads_for(image, text.as_bytes());
        if !has_prefixes(dict, text, reads) || !has_few_entries(dict, text) {
            return false;
        }
    }
    has_one_token(dict) && dict.known_token(1).is_none() && dict.unknown_token(0).is_none()
}

/// Returns whether the lexicon has one entry, which `token` and `known_token` return by its number.
fn has_one_token(dict: &Dict) -> bool {
    if dict.entry_count() != 1 {
        return false;
    }
    let token = dict.token(0);
    token.token == 0 && dict.known_token(0) == Some(token)
}

/// Returns whether `key` has at most one entry.
fn has_few_entries(dict: &Dict, key: &str) -> bool {
    let mut entries = dict.entries(key);
    entries.next();
    entries.next().is_none()
}

/// Returns whether the prefixes of `text` have rising lengths within it and an entry each, and
/// `reads` cells are read to find them.
fn has_prefixes(dict: &Dict, text: &str, reads: u64) -> bool {
    let mut prefixes = dict.prefixes(text);
    let mut last = 0;
    for (length, mut entries) in prefixes.by_ref() {
        if length <= last || length > text.len() || entries.next().is_none() {
            return false;
        }
        last = length;
    }
    prefixes.reads() == reads
}

/// Returns the categories of `c`, or `None` for a user dictionary, which has none.
pub(crate) fn info_of(dict: &Dict, c: char) -> Option<CharInfo> {
    if dict.is_user() {
        return None;
    }
    Some(dict.info(c))
}

/// Returns the categories of `c`, found with the range `range` as a hint, or `None` for a user
/// dictionary.
fn info_with_hint(dict: &Dict, c: char, range: usize) -> Option<CharInfo> {
    if dict.is_user() {
        return None;
    }
    let mut near = range;
    Some(dict.info_with_hint(c, &mut near))
}

/// More ranges than the images of these tests have.
const RANGES: usize = 12;

/// Returns whether `c` has this set of categories and this first category, with any range as a
/// hint.
pub(crate) fn has_info(dict: &Dict, c: char, (bits, head): (u32, u8)) -> bool {
    let expected = Some(CharInfo { bits, head });
    let mut all = info_of(dict, c) == expected;
    for range in 0..RANGES {
        all = all && info_with_hint(dict, c, range) == expected;
    }
    all
}
