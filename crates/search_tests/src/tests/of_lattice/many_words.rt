//! Best paths over a surface with many words.
//!
//! Among those with the same right id, only the first one of least forward cost can be on a best
//! path.

use super::sample_paths::{expect_sums, path_over};
use dict_image::Dict;
use lattice::Path;
use mj_model::{Origin, Sources, Word, sample};
use std::alloc::Global;
use std::process::Abort;
use std::string::String;
use std::test::Fail;
use test_support::samples::{overlay, system_dict};

/// The number of words of the texts.
const LENGTH: usize = 1000;

/// A connection costs 10 after BOS, 7 after right id 1, 1 after right id 2, and 5 before EOS.
static MATRIX: &[u8] = b"3 3\n0 1 10\n0 2 10\n1 1 7\n1 2 7\n2 1 1\n2 2 1\n1 0 5\n2 0 5\n";

/// A line of a lexicon, and how many times it is repeated.
type Lines<'a> = (usize, &'a str);

/// Repeats each part as often as its count, and concatenates the results.
fn repeated(alloc: Global, parts: &[Lines<'_>]) -> Result<String, Fail> {
    let mut text = String::new(alloc);
    for (count, part) in parts {
        for _time in 0..*count {
            text.push_str(part)?;
        }
    }
    Ok(text)
}

/// Returns the dictionary of `lexicon`.
fn dict_of(alloc: Global, lexicon: &[Lines<'_>]) -> Result<Dict, Fail> {
    let lexicon = repeated(alloc, lexicon)?;
    let sources = Sources {
        matrix: MATRIX,
        lexicons: &[lexicon.as_bytes()],
        ..sample()
    };
    system_dict(alloc, &sources)
}

/// Returns the best path of the text over `dict`.
fn path_of(alloc: Global, dict: &Dict) -> Result<Option<Path>, Fail> {
    let text = repeated(alloc, &[(LENGTH, "も")])?;
    let dictionaries = overlay(dict, &[])?;
    Ok(path_over(alloc, &dictionaries, text.as_str())?)
}

/// Returns the token of a word of the lexicon.
fn entry_of(word: Option<&Word>) -> Option<u32> {
    match word?.origin {
        Origin::Known { token, .. } => Some(token),
        Origin::Unknown { .. } => None,
    }
}

/// Returns the tokens of the first and the last word of `path`.
fn entries_of(path: &Option<Path>) -> (Option<u32>, Option<u32>) {
    match path {
        Some(path) => (entry_of(path.words.first()), entry_of(path.words.last())),
        None => (None, None),
    }
}

/// Checks the best path of the text over `lexicon`: its total cost, and the tokens of its first and
/// last word.
fn expect_path(
    rt: &(impl Abort + Alloc<A = Global>),
    what: &str,
    lexicon: &[Lines<'_>],
    (total, first, last): Expected,
) -> Result<(), Fail> {
    let dict = dict_of(rt.alloc(), lexicon)?;
    let path = path_of(rt.alloc(), &dict)?;
    expect_sums(rt, &path, total, LENGTH);
    assert!(rt; entries_of(&path) == (Some(first), Some(last)), "{what}");
    Ok(())
}

/// The total cost of the best path, and the tokens of its first and last word.
type Expected = (i64, u32, u32);

/// A label, a lexicon, and its best path.
type ManyRow<'a> = (&'a str, &'a [Lines<'a>], Expected);

const COMMON: &str = "も,1,1,100,X\n";

const CHEAPER: &str = "も,1,1,99,X\n";

const OTHER_LEFT: &str = "も,2,1,99,X\n";

const OTHER_RIGHT: &str = "も,1,2,103,X\n";

#[rattlefmt::skip]
static MANY_WORDS: [ManyRow<'static>; 10] = [
    // (what, lexicon, (total cost, first token, last token))
    ("one",                       &[(1, COMMON)], (107_008, 0, 0)),
    ("as many as are not pruned", &[(32, COMMON)], (107_008, 0, 0)),
    ("one more",                  &[(33, COMMON)], (107_008, 0, 0)),
    ("1,000 alike",               &[(1000, COMMON)], (107_008, 0, 0)),
    ("first of the least",
        &[(500, COMMON), (1, CHEAPER), (498, COMMON), (1, CHEAPER)], (106_008, 500, 500)),
    ("the least alone",           &[(1, CHEAPER)], (106_008, 0, 0)),
    ("another left id",           &[(999, COMMON), (1, OTHER_LEFT)], (106_008, 999, 999)),
    ("another left id alone",     &[(1, OTHER_LEFT)], (106_008, 0, 0)),
    // Its word costs more, but connections after it cost less. So it is every word except the last.
    ("another right id",          &[(999, COMMON), (1, OTHER_RIGHT)], (104_011, 999, 0)),
    ("one of each right id",      &[(1, COMMON), (1, OTHER_RIGHT)], (104_011, 1, 0)),
];

#[test]
fn many_words(rt: HostRuntime) -> Result<(), Fail> {
    for (what, lexicon, expected) in &MANY_WORDS {
        expect_path(&rt, what, lexicon, *expected)?;
    }
    Ok(())
}
