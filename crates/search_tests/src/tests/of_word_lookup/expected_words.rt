//! The expected words at a position.

ghost use Rattle.std.specs.Prelude.{IsTrue};
ghost use Rattle.mj_model.specs.Words.{is_place};

use dict_image::Dict;
use mj_model::{Origin, Word};
use std::alloc::{AllocError, Global};
use std::test::Fail;
use test_support::samples::overlay;
use word_lookup::Dictionaries;

/// A word, by the start and the end of its surface in bytes.
#[derive(Clone, Copy)]
pub enum Expected {
    /// A word of the system dictionary, with its cost and its feature.
    Known(usize, usize, i16, &'static str),
    /// A word of a user dictionary: its number, counted from 1, the start and end, its cost and its
    /// feature.
    User(usize, usize, usize, i16, &'static str),
    /// An unknown word of the sample, which has cost 1,000 and the feature 未知.
    Unknown(usize, usize),
}

impl Expected {
    /// Returns whether `word` is this one and lies at `place`.
    fn is(self, word: &Word, place: usize, feature: &str) -> bool {
        let (dict, start, end, cost, expected) = match self {
            Expected::Known(start, end, cost, feature) => (Some(0), start, end, cost, feature),
            Expected::User(user, start, end, cost, feature) => {
                (Some(user), start, end, cost, feature)
            }
            Expected::Unknown(start, end) => (None, start, end, 1000, "未知"),
        };
        let from = match word.origin {
            Origin::Known { dict, .. } => Some(dict),
            Origin::Unknown { .. } => None,
        };
        let lies = word.place == place && word.start == start && word.end == end;
        lies && from == dict && word.cost == cost && feature == expected
    }
}

/// Returns whether a character starts or the text ends at `place`.
pub fn is_at(text: &str, place: usize) -> bool
    ensures { IsTrue result → IsTrue (is_place text.now place) }
{
    text.is_char_boundary(place)
}

/// Returns whether `words`, which lie at `place`, are `expected`.
pub fn are_expected(
    words: &[Word],
    dictionaries: &Dictionaries<'_>,
    place: usize,
    expected: &[Expected],
) -> bool {
    let mut all = words.len() == expected.len();
    for (word, expected) in words.iter().zip(expected) {
        all = all && expected.is(word, place, dictionaries.feature(word));
    }
    all
}

/// Appends the words at `place`, if a character starts or the text ends there.
pub fn add_words(
    alloc: Global,
    dictionaries: &Dictionaries<'_>,
    text: &str,
    place: usize,
    out: &mut Vec<Word>,
) -> Result<(), AllocError> {
    if is_at(text, place) {
        dictionaries.words_at(alloc, text, place, out)?;
    }
    Ok(())
}

/// Returns whether `expected` are the words at `place`.
pub fn are_words(
    alloc: Global,
    dictionaries: &Dictionaries<'_>,
    text: &str,
    place: usize,
    expected: &[Expected],
) -> Result<bool, AllocError> {
    let mut words = Vec::new(alloc);
    add_words(alloc, dictionaries, text, place, &mut words)?;
    Ok(are_expected(&words, dictionaries, place, expected))
}

/// Returns whether `expected` are the words at `place`, over a system dictionary and user
/// dictionaries.
pub fn has_words(
    alloc: Global,
    (system, users): (&Dict, &[Dict]),
    text: &str,
    place: usize,
    expected: &[Expected],
) -> Result<bool, Fail> {
    let dictionaries = overlay(system, users)?;
    Ok(are_words(alloc, &dictionaries, text, place, expected)?)
}
