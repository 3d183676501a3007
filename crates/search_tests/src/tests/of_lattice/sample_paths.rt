//! Best paths of texts that are not too long.

use lattice::{Lattice, Path, best_path};
use mj_model::SENTENCE_MAX;
use std::alloc::{AllocError, Global};
use std::process::Abort;
use word_lookup::Dictionaries;

/// Returns the best path of `text`, or `None` if it is too long.
pub fn path_over(
    alloc: Global,
    dictionaries: &Dictionaries<'_>,
    text: &str,
) -> Result<Option<Path>, AllocError> {
    if text.len() > SENTENCE_MAX {
        return Ok(None);
    }
    let path = best_path(alloc, dictionaries, text)?;
    Ok(Some(path))
}

/// Returns the best path of `text` that `lattice` finds, or `None` if it is too long.
pub fn path_in(
    lattice: &mut Lattice,
    dictionaries: &Dictionaries<'_>,
    text: &str,
) -> Result<Option<Path>, AllocError> {
    if text.len() > SENTENCE_MAX {
        return Ok(None);
    }
    let path = lattice.best(dictionaries, text)?;
    Ok(Some(path))
}

/// Returns the total cost of `path` and the number of its words.
pub fn sums_of(path: &Option<Path>) -> Option<(i64, usize)> {
    match path {
        Some(path) => Some((path.total, path.words.len())),
        None => None,
    }
}

/// Checks the total cost of `path` and the number of its words.
pub fn expect_sums(rt: &impl Abort, path: &Option<Path>, total: i64, words: usize) {
    assert!(rt; sums_of(path) == Some((total, words)), "{words}");
}
