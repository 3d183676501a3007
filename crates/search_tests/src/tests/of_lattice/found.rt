//! Best paths whose words are streamed.

use super::super::sample::{has_number, sample_of};
use super::BestRow;
use mj_model::Word;
use mj_model::paths::WordStream;
use std::alloc::{AllocError, Global};
use std::process::Abort;
use viterbi::search::Search;

/// Checks the best path that `search` finds, word by word.
pub fn expect_found(
    rt: &(impl Abort + Alloc<A = Global>),
    search: &mut Search,
    what: &str,
    ((length, words), (numbers, total)): BestRow<'_>,
) -> Result<(), AllocError> {
    let sample = sample_of(rt.alloc(), length, words)?;
    let found = search.find(&sample)?;
    assert_eq!(rt; found.total, total, "{what}");
    let mut left = found.words;
    for number in numbers {
        expect_word(rt, what, left.next_word(), number);
    }
    assert!(rt; left.next_word().is_none(), "{what}");
    Ok(())
}

/// Checks that `word` has the number `number`.
fn expect_word(rt: &impl Abort, what: &str, word: Option<Word>, number: &usize) {
    match word {
        Some(word) => assert!(rt; has_number(&word, number), "{what}"),
        None => panic!(rt; "{what}: no word is left"),
    }
}
