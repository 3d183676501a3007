//! The words of the best path, each with its costs there.

ghost use Rattle.std.specs.Prelude.{◌≡◌, ◌+ℤ◌, IfOk};
ghost use Rattle.viterbi.specs.Search.SearchedText.{CanBeSearched, IsBestIn};
ghost use Rattle.viterbi.specs.Rivals.PathSteps.{steps_of};
ghost use Rattle.viterbi.specs.Rivals.Totals.{IsSmall};

use crate::rivals::neighbor::BOUNDARY_ID;
use crate::rivals::step::PathStep;
use crate::rivals::total::{Total, next_step, total_of};
use crate::search::WordSource;
use mj_model::Word;
use std::alloc::{AllocError, Global};

/// Returns the words of the best path `path`, each with its connection cost and the cost of the
/// path up to and including it.
pub fn best_steps<S: WordSource>(
    alloc: Global,
    source: &S,
    path: &[Word],
) -> Result<Vec<PathStep>, AllocError>
    requires source { CanBeSearched (S.searched_text source.now) }
    requires best { IsBestIn (S.searched_text source.now) path.now }
    ensures { IfOk result (λ steps. steps.items
        ≡ steps_of (S.searched_text source.now).connection path.now) }
{
    let mut steps = Vec::new(alloc);
    let mut right = BOUNDARY_ID;
    let mut total = Total { cost: 0 };
    for word in path {
        let step = step_after(source, right, &total, word);
        steps.push(step)?;
        right = word.right;
        total = total_of(&step);
    }
    Ok(steps)
}

/// Returns the step of `word` after a word with right id `right`, up to which the path costs
/// `total`.
fn step_after<S: WordSource>(source: &S, right: u16, total: &Total, word: &Word) -> PathStep
    requires pair { (S.searched_text source.now).is_pair right word.now.left }
    requires total { IsSmall total.now }
    ensures word { result.word ≡ word.now }
    ensures connection { result.connection
        ≡ (S.searched_text source.now).connection right word.now.left }
    ensures total { result.total
        ≡ (total.now.cost +ℤ (S.searched_text source.now).connection right word.now.left)
        +ℤ word.now.cost }
{
    next_step(total, source.connection_cost(right, word.left), word)
}
