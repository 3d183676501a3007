//! The rivals of the words of the best paths of small texts.

use super::all_match;
use super::sample::{A, AB, B, C, WordRow, has_number, sample_of};
use mj_model::paths::Path;
use std::alloc::{AllocError, Global};
use std::test::Fail;
use viterbi::rivals::{PathStep, RivalPath, Rivals, STEPS_MAX, rivals_of};
use viterbi::search::Search;

/// Returns the rivals of the best path of a text of `length` bytes with the words `words`.
fn rivals_in(alloc: Global, length: u16, words: &[WordRow]) -> Result<Rivals, AllocError> {
    let sample = sample_of(alloc, length, words)?;
    let mut path = Path {
        words: Vec::new(alloc),
        total: 0,
    };
    Search::new(alloc).fill(&sample, &mut path)?;
    rivals_of(alloc, &sample, &path.words)
}

/// Returns the rival of word `number` of the best path.
fn rival_of(
    alloc: Global,
    rivals: &Rivals,
    number: usize,
) -> Result<Option<RivalPath>, AllocError> {
    rivals.rival(alloc, number)
}

/// A step by the number of its word, its connection cost and its forward cost.
type StepRow = (usize, i64, i64);

/// A rival by its cost, whether its steps start and end at the best path, and its steps.
type RivalRow = (i64, bool, bool, &'static [StepRow]);

fn is_step(step: &PathStep, (number, connection, total): &StepRow) -> bool {
    has_number(&step.word, number) && step.connection == *connection && step.total == *total
}

fn is_rival(rival: &RivalPath, (cost, begins, ends, steps): &RivalRow) -> bool {
    rival.cost == *cost
        && rival.begins == *begins
        && rival.ends == *ends
        && all_match(&rival.steps, steps, is_step)
}

const DEAR_AB: WordRow = (0, 2, 40);

const BC: WordRow = (1, 3, 10);

const DEAR_BC: WordRow = (1, 3, 40);

const ABC: WordRow = (0, 3, 10);

// A connection costs 10 after BOS, 7 between words and 5 before EOS. So `A` has the forward cost 10
// + 10 = 20, `B` after it 20 + 7 + 10 = 37, and the path of both costs 37 + 5 = 42.
#[rattlefmt::skip]
static RIVALS: [(&str, u16, &[WordRow], &[(StepRow, Option<RivalRow>)]); 9] = [
    // (what, length, words, each word of the best path and its rival)
    ("one word", 1, &[A], &[((0, 10, 20), None)]),
    // 10 + 27 = 37, and 37 + 5 = 42
    (
        "a rival at the same cost",
        2,
        &[A, B, AB],
        &[
            ((0, 10, 20), Some((42, true, true, &[(2, 10, 37)]))),
            ((1, 7, 37), Some((42, true, true, &[(2, 10, 37)]))),
        ],
    ),
    // 20 + 7 + 40 = 67, and 67 + 5 = 72
    (
        "the words before it are shared",
        3,
        &[A, B, C, DEAR_BC],
        &[
            ((0, 10, 20), None),
            ((1, 7, 37), Some((72, true, true, &[(3, 7, 67)]))),
            ((2, 7, 54), Some((72, true, true, &[(3, 7, 67)]))),
        ],
    ),
    // 10 + 40 = 50, and 50 + 7 + 10 + 5 = 72
    (
        "the words after it are shared",
        3,
        &[A, B, C, DEAR_AB],
        &[
            ((0, 10, 20), Some((72, true, true, &[(3, 10, 50)]))),
            ((1, 7, 37), Some((72, true, true, &[(3, 10, 50)]))),
            ((2, 7, 54), None),
        ],
    ),
    // 50 + 7 + 10 = 67, and 67 + 5 = 72
    (
        "no word is shared",
        3,
        &[A, BC, DEAR_AB, C],
        &[
            ((0, 10, 20), Some((72, true, true, &[(2, 10, 50), (3, 7, 67)]))),
            ((1, 7, 37), Some((72, true, true, &[(2, 10, 50), (3, 7, 67)]))),
        ],
    ),
    // 37 + 7 + 10 = 54, and 54 + 5 = 59
    (
        "three words in place of one",
        3,
        &[ABC, A, B, C],
        &[((0, 10, 20), Some((59, true, true, &[(1, 10, 20), (2, 7, 37), (3, 7, 54)])))],
    ),
    // 10 + 0 = 10, 10 + 7 + 0 = 17; 20, 37 and 54
    (
        "the word that replaces the last one is in the middle",
        4,
        &[(0, 2, 0), (2, 4, 0), A, BC, (3, 4, 10)],
        &[
            ((0, 10, 10), Some((59, true, true, &[(2, 10, 20), (3, 7, 37), (4, 7, 54)]))),
            ((1, 7, 17), Some((59, true, true, &[(2, 10, 20), (3, 7, 37), (4, 7, 54)]))),
        ],
    ),
    ("a dead end", 2, &[AB, A], &[((0, 10, 37), None)]),
    ("empty text", 0, &[], &[]),
];

/// Returns whether word `number` of the best path has the rival `wanted`, or none.
fn has_rival(
    alloc: Global,
    rivals: &Rivals,
    number: usize,
    wanted: Option<&RivalRow>,
) -> Result<bool, AllocError> {
    Ok(match (&rival_of(alloc, rivals, number)?, wanted) {
        (Some(found), Some(wanted)) => is_rival(found, wanted),
        (None, None) => true,
        _ => false,
    })
}

/// Returns whether `wanted` are the words of the best path with their rivals, and no rival follows
/// the last.
fn are_rivals(
    alloc: Global,
    rivals: &Rivals,
    wanted: &[(StepRow, Option<RivalRow>)],
) -> Result<bool, AllocError> {
    let steps = rivals.steps();
    if steps.len() != wanted.len() {
        return Ok(false);
    }
    for (number, (step, row)) in steps.iter().zip(wanted).enumerate() {
        if !is_step(step, &row.0) || !has_rival(alloc, rivals, number, row.1.as_ref())? {
            return Ok(false);
        }
    }
    has_rival(alloc, rivals, wanted.len(), None)
}

#[test]
fn rivals(rt: HostRuntime) -> Result<(), Fail> {
    for (what, length, words, wanted) in &RIVALS {
        let rivals = rivals_in(rt.alloc(), *length, words)?;
        assert!(rt; are_rivals(rt.alloc(), &rivals, wanted)?, "{what}");
    }
    Ok(())
}

/// Returns `count` words of one byte each, then `further`.
fn letters_with(
    alloc: Global,
    count: u16,
    further: &[WordRow],
) -> Result<Vec<WordRow>, AllocError> {
    let mut words = Vec::new(alloc);
    for place in 0..usize::from(count) {
        words.push((place, place + 1, 10))?;
    }
    words.extend_from_slice(further)?;
    Ok(words)
}

/// The cost of a rival, whether it starts and ends at the best path, the number of its steps, and
/// the forward costs of the first and the last.
type SumsRow = (i64, bool, bool, usize, i64, i64);

/// Returns whether `rival` has these sums.
fn has_sums(rival: &RivalPath, (cost, begins, ends, count, first, last): &SumsRow) -> bool {
    let (Some(of_first), Some(of_last)) = (rival.steps.first(), rival.steps.last()) else {
        return false;
    };
    let is_long = rival.steps.len() == *count && rival.steps.len() <= 2 * STEPS_MAX + 1;
    let is_cut = rival.begins == *begins && rival.ends == *ends && is_long;
    is_cut && rival.cost == *cost && of_first.total == *first && of_last.total == *last
}

/// A label, the length of a text, the number of its letters, further words, the number of a word,
/// and its rival.
type CutOffRow<'a> = (&'a str, u16, u16, &'a [WordRow], usize, SumsRow);

/// Returns whether a word in a text of letters has this rival.
fn is_cut_off(
    alloc: Global,
    (_what, length, letters, further, number, wanted): &CutOffRow<'_>,
) -> Result<bool, AllocError> {
    let words = letters_with(alloc, *letters, further)?;
    let rivals = rivals_in(alloc, *length, &words)?;
    Ok(match &rival_of(alloc, &rivals, *number)? {
        Some(rival) => has_sums(rival, wanted),
        None => false,
    })
}

// Letter k after the first has the forward cost 20 + 17 * k.
//
// First case: a word has 40 letters as its rival. The first letter and the 32 after it are listed.
//
// Second case: two words have 34 letters and two words as their rival. Listed are the two words and
// the 32 letters before them.
#[rattlefmt::skip]
static CUT_OFF: [CutOffRow<'static>; 3] = [
    // (what, length, letters, further words, the word's number,
    //     (the rival's cost, whether it starts and ends, steps, first and last forward cost))
    ("40 letters for a word", 40, 40, &[(0, 40, 10)], 0, (688, true,  false, 33, 20, 564)),
    ("34 letters before another word", 37, 34,
        &[(0, 35, 10), (35, 37, 10), (34, 36, 10), (36, 37, 10)], 1,
        (620, false, true, 34, 54, 615)),
    ("33 letters for a word", 33, 33, &[(0, 33, 10)], 0, (569, true,  true,  33, 20, 564)),
];

#[test]
fn rivals_cut_off(rt: HostRuntime) -> Result<(), Fail> {
    for row in &CUT_OFF {
        assert!(rt; is_cut_off(rt.alloc(), row)?, "{}", row.0);
    }
    Ok(())
}
