//! The best rival of a word.

ghost use Rattle.std.specs.Prelude.{◌≡◌, ◌↔◌, ℕ, ℤ, List, true};
ghost use Rattle.mj_model.specs.declared.word.Word.{Word as WordOf};
ghost use Rattle.viterbi.specs.Rivals.Rivals.{AreOfLattice, IsBestRival};
ghost use Rattle.viterbi.specs.Rivals.Steps.{IsBelow, IsBetter};

use crate::nodes::LatticeNode;
use crate::rivals::crossing::replaces;
use mj_model::Word;

/// The best rival of a word: the number of a node of the lattice that replaces the word, and the
/// least cost of the paths through that node.
#[derive(Clone, Copy, Debug, PartialEq, Eq, Drop)]
pub struct Rival {
    pub number: usize,
    pub cost: i64,
}

/// Returns the best rival of `word` in a lattice: the node that replaces it at the least cost, or
/// `None` if no path contains a node that replaces it.
///
/// A node replaces `word` if it contains the position of `word` and has other boundaries. Of nodes
/// with equal costs, the first is returned. Visits each node once.
pub fn best_rival(nodes: &[LatticeNode], word: &Word) -> Option<Rival>
    ensures { (words : ℕ → List WordOf) (conn : ℕ → ℕ → ℤ) (len : ℕ)
        → AreOfLattice words conn len nodes.now
        → IsBestRival words conn nodes.now word.now result }
{
    let mut best = None;
    for number in 0..nodes.len() {
        best = better(best, number, &nodes[number], word);
    }
    best
}

/// Returns node `number` if it replaces `word` at a lower cost than `best`; otherwise returns
/// `best`.
pub(crate) fn better(
    best: Option<Rival>,
    number: usize,
    node: &LatticeNode,
    word: &Word,
) -> Option<Rival>
    ensures { IsBetter best number node.now word.now result }
{
    let Some(cost) = node.through else {
        return best;
    };
    if replaces(&node.word, word) && is_below(cost, best) {
        Some(Rival { number, cost })
    } else {
        best
    }
}

/// Returns whether `cost` is less than the cost of the best rival so far.
fn is_below(cost: i64, best: Option<Rival>) -> bool
    ensures { (result ≡ true) ↔ IsBelow cost best }
{
    match best {
        Some(rival) => cost < rival.cost,
        None => true,
    }
}
