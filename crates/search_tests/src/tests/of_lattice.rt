//! The best paths of small texts.

mod dictionaries;
mod found;
mod growths;
mod many_words;
mod out_of_memory;
pub(crate) mod sample_paths;

use super::all_match;
use super::sample::{A, AB, B, C, WordRow, has_number, sample_of};
use found::expect_found;
use mj_model::paths::Path;
use std::alloc::{AllocError, Global};
use std::process::Abort;
use std::test::Fail;
use viterbi::search::Search;

/// Sets `path` to the best path of a text of `length` bytes with the words `words`.
fn fill(
    alloc: Global,
    search: &mut Search,
    length: u16,
    words: &[WordRow],
    path: &mut Path,
) -> Result<(), AllocError> {
    let sample = sample_of(alloc, length, words)?;
    search.fill(&sample, path)
}

/// Returns an empty path.
fn no_path(alloc: Global) -> Path {
    Path {
        words: Vec::new(alloc),
        total: 0,
    }
}

/// The length of a text in bytes and its words; the numbers of the words of its best path and its
/// total cost.
type BestRow<'a> = ((u16, &'a [WordRow]), (&'a [usize], i64));

/// Checks the best path that `search` finds.
fn expect_path(
    rt: &(impl Abort + Alloc<A = Global>),
    search: &mut Search,
    what: &str,
    ((length, words), (numbers, total)): BestRow<'_>,
) -> Result<(), AllocError> {
    let mut path = no_path(rt.alloc());
    fill(rt.alloc(), search, length, words, &mut path)?;
    assert_eq!(rt; path.total, total, "{what}");
    assert!(rt; all_match(&path.words, numbers, has_number), "{what}");
    Ok(())
}

/// Checks the best path that a new search and `search` find, and the words that `search` streams.
fn expect_best(
    rt: &(impl Abort + Alloc<A = Global>),
    search: &mut Search,
    what: &str,
    row: BestRow<'_>,
) -> Result<(), AllocError> {
    expect_path(rt, &mut Search::new(rt.alloc()), what, row)?;
    expect_path(rt, search, what, row)?;
    expect_found(rt, search, what, row)
}

const DEAR_AB: WordRow = (0, 2, 900);

// A connection costs 10 after BOS, 7 between words, 5 before EOS, and 0 from BOS to EOS.
#[rattlefmt::skip]
static BEST_PATHS: [(&str, BestRow<'static>); 7] = [
    // (what, ((length, words), (the path's words, total cost)))
    ("tie_later_place", ((2, &[A, B, AB]), (&[0, 1], 42))),
    ("tie_first_word", ((1, &[A, A]), (&[0], 25))),
    ("tie_last_word_decides", ((3, &[A, B, AB, C]), (&[0, 1, 3], 59))),
    ("ends_later", ((2, &[A, DEAR_AB]), (&[1], 915))),
    ("not_to_the_end", ((3, &[A, B]), (&[0, 1], 42))),
    ("not_from_a_place", ((3, &[A, C]), (&[0], 25))),
    ("empty text", ((0, &[]), (&[], 0))),
];

#[test]
fn best_paths(rt: HostRuntime) -> Result<(), Fail> {
    let mut search = Search::new(rt.alloc());
    for (what, row) in &BEST_PATHS {
        expect_best(&rt, &mut search, what, *row)?;
    }
    Ok(())
}

/// Returns `length` letters, each a word of word cost 10.
fn letters(alloc: Global, length: u16) -> Result<Vec<WordRow>, AllocError> {
    let mut words = Vec::new(alloc);
    for place in 0..usize::from(length) {
        words.push((place, place + 1, 10))?;
    }
    Ok(words)
}

/// Returns the number of words of `path`, and its total cost.
fn sums_of(path: &Path) -> (usize, i64) {
    (path.words.len(), path.total)
}

/// Checks the best path of a text of letters, with one retry. An allocation failure must leave the
/// path unchanged.
fn expect_letters(
    rt: &(impl Abort + Alloc<A = Global>),
    search: &mut Search,
    path: &mut Path,
    length: u16,
    total: i64,
) -> Result<(), AllocError> {
    let words = letters(rt.alloc(), length)?;
    let before = sums_of(path);
    if fill(rt.alloc(), search, length, &words, path).is_err() {
        assert!(rt; sums_of(path) == before, "after a failure");
        fill(rt.alloc(), search, length, &words, path)?;
    }
    assert!(rt; sums_of(path) == (usize::from(length), total), "{length}");
    Ok(())
}

// 10 after BOS, 10 for a letter, 7 between letters, 5 before EOS; 0 from BOS to EOS.
static LONG_THEN_SHORT: [(u16, i64); 3] = [(1000, 17008), (3, 59), (0, 0)];

#[test]
fn long_then_short(rt: HostRuntime) -> Result<(), Fail> {
    let mut search = Search::new(rt.alloc());
    let mut path = no_path(rt.alloc());
    for (length, total) in &LONG_THEN_SHORT {
        expect_letters(&rt, &mut search, &mut path, *length, *total)?;
    }
    Ok(())
}

/// Returns the words of two letters. The first has `count` words of word cost 10, except that
/// number `cheap` costs 9. The second has one.
fn two_letters(alloc: Global, count: usize, cheap: usize) -> Result<Vec<WordRow>, AllocError> {
    let mut words = Vec::new(alloc);
    for number in 0..count {
        words.push((0, 1, if number == cheap { 9 } else { 10 }))?;
    }
    words.push((1, 2, 10))?;
    Ok(words)
}

/// A label, the number of words, the number of the cheap one, and the total cost.
type ManyRow = (&'static str, usize, usize, i64);

#[rattlefmt::skip]
static MANY_WORDS: [ManyRow; 7] = [
    // (what, number of words, the number of the cheap one, total cost)
    ("one word",                  1,      1,      42),
    ("nine",                      9,      9,      42),
    ("the last of nine is cheap", 9,      8,      41),
    ("1,000",                     1000,   1000,   42),
    ("65,600",                    65_600, 65_600, 42),
    ("one of the last is cheap",  65_600, 65_590, 41),
    ("one of the first is cheap", 65_600, 60,     41),
];

/// Checks the best path of two letters, of which the first has many words.
fn expect_many(
    rt: &(impl Abort + Alloc<A = Global>),
    search: &mut Search,
    (what, count, cheap, total): ManyRow,
) -> Result<(), AllocError> {
    let words = two_letters(rt.alloc(), count, cheap)?;
    let first = if cheap < count { cheap } else { 0 };
    let numbers = [first, count];
    let row = ((2, words.as_slice()), (numbers.as_slice(), total));
    expect_best(rt, search, what, row)
}

#[test]
fn many_words_of_one_surface(rt: HostRuntime) -> Result<(), Fail> {
    let mut search = Search::new(rt.alloc());
    for row in &MANY_WORDS {
        expect_many(&rt, &mut search, *row)?;
    }
    Ok(())
}
