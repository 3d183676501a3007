//! Allocation failures of word lookups.
//!
//! Allocations fail under `tests/out_of_memory/run.py`, which expects the line `refused` on
//! standard error.

use super::expected_words::Expected::{self, Known, Unknown};
use super::expected_words::{add_words, are_expected, is_at};
use mj_model::Word;
use std::alloc::Global;
use std::io::Eprint;
use std::process::Abort;
use std::test::Fail;
use test_support::again;
use test_support::samples::TestDictionary::{self, Letters, Sample};
use test_support::samples::{TwoDicts, overlay};
use word_lookup::Dictionaries;

/// The sample's line with blanks.
const SPACED: &str = " すもも  もも ";

fn are_same(words: &[Word], others: &[Word]) -> bool {
    let mut all = words.len() == others.len();
    for (word, other) in words.iter().zip(others) {
        all = all && word == other;
    }
    all
}

/// Returns whether `out` is `before` and then `expected`.
fn are_appended(
    out: &[Word],
    before: &[Word],
    dictionaries: &Dictionaries<'_>,
    place: usize,
    expected: &[Expected],
) -> bool {
    let (first, then) = out.split_at(before.len().min(out.len()));
    are_same(first, before) && are_expected(then, dictionaries, place, expected)
}

/// Appends the words at `place`, which must be `expected`, with one retry. An allocation failure
/// must leave `out` unchanged.
fn expect_words(
    rt: &(impl Abort + Alloc<A = Global> + Eprint),
    dictionaries: &Dictionaries<'_>,
    (text, place): (&str, usize),
    expected: &[Expected],
    out: &mut Vec<Word>,
) -> Result<(), Fail> {
    assert!(rt; is_at(text, place));
    let before = again!(rt, Err(_), Vec::from_slice(rt.alloc(), out))?;
    if add_words(rt.alloc(), dictionaries, text, place, out).is_err() {
        rt.eprintln("refused")?;
        assert!(rt; are_same(out, &before), "{text}");
        add_words(rt.alloc(), dictionaries, text, place, out)?;
    }
    assert!(rt;
        are_appended(out, &before, dictionaries, place, expected),
        "{text}"
    );
    Ok(())
}

/// A dictionary, a text and a position, and the words there.
type Row<'a> = (TestDictionary, (&'a str, usize), &'a [Expected]);

#[rattlefmt::skip]
static WORDS_OUT_OF_MEMORY: [Row<'static>; 6] = [
    // (dictionary, text and position, words)
    (Sample,  ("すもももも", 0), &[Known(0, 9, 100, "名詞,すもも")]),
    (Sample,  ("すもももも", 9), &[Known(9, 12, 20, "助詞,も"), Known(9, 15, 30, "名詞,もも")]),
    (Sample,  (SPACED, 0),       &[Known(1, 10, 100, "名詞,すもも")]),
    (Sample,  (SPACED, 10),      &[Known(12, 15, 20, "助詞,も"), Known(12, 18, 30, "名詞,もも")]),
    (Letters, ("ab", 0),         &[Known(0, 1, 10, "X"), Known(0, 2, 27, "X"), Unknown(0, 2)]),
    (Letters, ("ab", 1),         &[Known(1, 2, 10, "X"), Unknown(1, 2)]),
];

/// Appends the words of a test case, and checks them.
fn expect_row(
    rt: &(impl Abort + Alloc<A = Global> + Eprint),
    dicts: &TwoDicts,
    (requested, at, expected): &Row<'_>,
    out: &mut Vec<Word>,
) -> Result<(), Fail> {
    let dictionaries = overlay(dicts.of(*requested), &[])?;
    expect_words(rt, &dictionaries, *at, expected, out)
}

#[test]
fn words_out_of_memory(rt: HostRuntime) -> Result<(), Fail> {
    let dicts = TwoDicts::again(&rt)?;
    let mut out = Vec::new(rt.alloc());
    for row in &WORDS_OUT_OF_MEMORY {
        expect_row(&rt, &dicts, row, &mut out)?;
    }
    Ok(())
}
