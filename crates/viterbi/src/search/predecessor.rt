//! The choice of the best predecessor of a word.

ghost use Rattle.std.specs.Prelude.{ℕ, ℤ, ◌<◌, List, length, All, IfOk, IsSome, OnOk};
ghost use Rattle.viterbi.specs.Search.EndNodes.{AreLeast, HasSmallTotal, IsFollowedBy, IsLeast, IsLesser};
ghost use Rattle.viterbi.specs.Search.Connections.{IsCandidate};
ghost use Rattle.viterbi.specs.declared.search.node.EndNode.{EndNode};

use crate::search::node::{Candidate, EndNode, Predecessor};
use crate::search::predecessor_cache::PredecessorCache;
use crate::search::source::WordSource;
use std::alloc::AllocError;

/// Up to this many end nodes, a linear scan is faster than the cache. (This project's own choice.)
pub const LINEAR_SCAN_MAX: usize = 16;

/// The best predecessor of a word, unless an allocation fails.
pub type Choice = Result<Predecessor, AllocError>;

/// A way to find the best predecessor of a word by its left id.
pub trait FindPredecessor {
    /// The cached predecessors belong to these end nodes and connection costs.
    ghost is_of: { Self → (ℕ → ℕ → ℤ) → List EndNode → Type 0 };

    /// Returns the best predecessor among `ends`, which must not be empty, of a word with left id
    /// `left`.
    fn predecessor<S: WordSource>(&mut self, source: &S, ends: &[EndNode], left: u16) -> Choice
        requires some { 0 < length ends.now }
        requires forward_costs { All HasSmallTotal ends.now }
        requires pairs { All (IsFollowedBy (S.searched_text source.now).is_pair left) ends.now }
        requires cached { is_of self.old (S.searched_text source.now).connection ends.now }
        ensures predecessor { IfOk result
            (IsLeast (S.searched_text source.now).connection ends.now left) }
        ensures cached { OnOk result
            (is_of self.new (S.searched_text source.now).connection ends.now) };
}

/// Scans all end nodes for each word: the choice for up to `LINEAR_SCAN_MAX` end nodes.
#[derive(Drop)]
pub struct LinearScan;

impl FindPredecessor for LinearScan {
    ghost is_of = { λ finder connection ends. Unit {0} };

    fn predecessor<S: WordSource>(&mut self, source: &S, ends: &[EndNode], left: u16) -> Choice {
        Ok(best_predecessor(source, ends, left))
    }
}

/// Scans all end nodes once for each left id: the choice for more than `LINEAR_SCAN_MAX` end nodes.
impl FindPredecessor for PredecessorCache {
    ghost is_of = { λ predecessors connection ends. AreLeast connection ends predecessors };

    fn predecessor<S: WordSource>(&mut self, source: &S, ends: &[EndNode], left: u16) -> Choice {
        match self.get(left) {
            Some(predecessor) => Ok(predecessor),
            None => {
                let predecessor = best_predecessor(source, ends, left);
                self.add(left, predecessor)?;
                Ok(predecessor)
            }
        }
    }
}

/// Returns the first end node of least cost in `ends` as the predecessor of a word with left id
/// `left`.
///
/// The loop keeps the rank of the best end node so far, so that the choice compiles to no branch: a
/// processor would often mispredict it.
pub fn best_predecessor<S: WordSource>(source: &S, ends: &[EndNode], left: u16) -> Predecessor
    requires some { 0 < length ends.now }
    requires forward_costs { All HasSmallTotal ends.now }
    requires pairs { All (IsFollowedBy (S.searched_text source.now).is_pair left) ends.now }
    ensures { IsLeast (S.searched_text source.now).connection ends.now left result }
{
    let costs = source.costs_before(left);
    let mut best = candidate(source, &costs, 0, &ends[0]);
    for rank in 1..ends.len() {
        best = lesser(best, candidate(source, &costs, rank, &ends[rank]));
    }
    Predecessor {
        before: ends[best.rank].before,
        cost: best.cost,
    }
}

/// Returns an end node as a candidate, with the connection cost before a word whose costs are
/// `costs`.
fn candidate<S: WordSource>(source: &S, costs: &S::Costs, rank: usize, end: &EndNode) -> Candidate
    requires total { HasSmallTotal end.now }
    requires cost { IsSome (S.costs_in costs.now end.now.right) }
    ensures { IsCandidate (S.costs_in costs.now) rank end.now result }
{
    Candidate {
        rank,
        cost: end.total + i64::from(source.cost_after(costs, end.right)),
    }
}

/// Returns the cheaper candidate, or `best` if the costs are equal.
fn lesser(best: Candidate, next: Candidate) -> Candidate
    ensures { IsLesser best next result }
{
    if next.cost < best.cost { next } else { best }
}
