//! The best rivals of all words of a path.

ghost use Rattle.std.specs.Prelude.{◌≡◌, ℕ, ℤ, List, Option, IfOk, Some, None, length, slice_get};
ghost use Rattle.mj_model.specs.declared.word.Word.{Word as WordOf};
ghost use Rattle.viterbi.specs.Nodes.OnPath.{AreByPlace, HaveRisingPlaces, IsFirstAt};
ghost use Rattle.viterbi.specs.Rivals.AllRivals.{AreBestRivals, AreBetter};
ghost use Rattle.viterbi.specs.Rivals.Rivals.{AreOfLattice};
ghost use Rattle.viterbi.specs.declared.rivals.rival.Rival.{Rival as RivalOf};

use crate::nodes::{LatticeNode, first_word_from};
use crate::rivals::rival::{Rival, better};
use mj_model::Word;
use std::alloc::{AllocError, Global};

/// Returns the best rival of each word of `path`, as `best_rival` defines it.
///
/// Visits each node once, and for each node the words of `path` that start inside it.
pub fn best_rivals(
    alloc: Global,
    nodes: &[LatticeNode],
    path: &[Word],
) -> Result<Vec<Option<Rival>>, AllocError>
    requires nodes { AreByPlace nodes.now }
    requires path { HaveRisingPlaces path.now }
    ensures { IfOk result (λ bests. (words : ℕ → List WordOf) (conn : ℕ → ℕ → ℤ) (len : ℕ)
        → AreOfLattice words conn len nodes.now
        → AreBestRivals words conn nodes.now path.now bests.items) }
{
    let mut bests = Vec::new(alloc);
    bests.resize(path.len(), None)?;
    let mut first = 0;
    for number in 0..nodes.len() {
        first = first_word_from(path, first, nodes[number].word.place);
        update_best_rivals(number, &nodes[number], path, first, &mut bests);
    }
    Ok(bests)
}

/// Makes node `number` the best rival of each word of `path` for which it beats the best so far.
///
/// `first` is the index of the first word of `path` that starts at the position of `node` or later.
fn update_best_rivals(
    number: usize,
    node: &LatticeNode,
    path: &[Word],
    first: usize,
    bests: &mut [Option<Rival>],
)
    requires path { HaveRisingPlaces path.now }
    requires long { length bests.old ≡ length path.now }
    requires first { IsFirstAt path.now 0 node.now.word.place first }
    ensures { AreBetter path.now bests.old number node.now bests.new }
{
    let mut k = first;
    while k < path.len() {
        if node.word.end <= path[k].place {
            return;
        }
        bests[k] = better(bests[k], number, node, &path[k]);
        k += 1;
    }
}

/// Returns the rival at index `number`, if there is one.
pub fn rival_at(bests: &[Option<Rival>], number: usize) -> Option<Rival>
    ensures some { (rival : RivalOf) → result ≡ Some rival
        → slice_get bests.now number ≡ Some (Some rival) }
    ensures none { (best : Option RivalOf) → result ≡ None
        → slice_get bests.now number ≡ Some best → best ≡ None }
{
    match bests.get(number) {
        Some(best) => *best,
        None => None,
    }
}
