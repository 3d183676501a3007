//! The rivals of the words of a text's best path.

ghost use Rattle.std.specs.Prelude.{◌≡◌, ℕ, ℤ, ◌≤◌, List, IfOk, None, Some, length, slice_get};
ghost use Rattle.mj_model.specs.declared.word.Word.{Word as WordOf};
ghost use Rattle.viterbi.specs.Search.SearchedText.{CanBeSearched, IsBestIn};
ghost use Rattle.viterbi.specs.Rivals.RivalsState.{AreRivals, AreRivalsIn};
ghost use Rattle.viterbi.specs.Rivals.PathSteps.{steps_of};
ghost use Rattle.viterbi.specs.Rivals.RivalPaths.{IsRivalOrNone};

use crate::nodes::{lattice_nodes, mark_nodes_on_path};
use crate::rivals::all_rivals::{best_rivals, rival_at};
use crate::rivals::best_steps::best_steps;
use crate::rivals::nodes_by_position::NodesByPosition;
use crate::rivals::nodes_with_neighbors::NodesWithNeighbors;
use crate::rivals::places::firsts_of;
use crate::rivals::rival::Rival;
use crate::rivals::rival_path::RivalPath;
use crate::rivals::step::PathStep;
use crate::rivals::walks::path_through;
use crate::search::WordSource;
use mj_model::Word;
use std::alloc::{AllocError, Global};
use std::marker::Model;

/// The words of a text's best path, with all that is needed to find the rival of each.
///
/// In contracts, its value is the nodes with their neighbors, the best rival of each word, and the
/// words with their costs.
#[derive(Debug, Drop)]
pub struct Rivals {
    linked: NodesWithNeighbors,
    bests: Vec<Option<Rival>>,
    steps: Vec<PathStep>,
}

impl Model for Rivals {
    ghost use Rattle.viterbi.specs.Rivals.RivalsState.{IsRivalsState, RivalsState};

    ghost Value = { RivalsState };

    ghost view = { λ r. record {
      linked = r.linked;
      bests = r.bests.items;
      steps = r.steps.items;
    } };

    ghost invariant = { λ r. IsRivalsState r.linked r.bests.items };
}

/// Prepares the search for the rivals of the words of `path`, the best path of a text.
///
/// The time is linear in the nodes, the connections between them, and the words of the path that
/// each node covers.
pub fn rivals_of<S: WordSource>(
    alloc: Global,
    source: &S,
    path: &[Word],
) -> Result<Rivals, AllocError>
    requires source { CanBeSearched (S.searched_text source.now) }
    requires best { IsBestIn (S.searched_text source.now) path.now }
    ensures { IfOk result (AreRivalsIn (S.searched_text source.now) path.now) }
{
    let nodes = lattice_nodes(alloc, source)?;
    let on_best = mark_nodes_on_path(alloc, &nodes, path)?;
    let bests = best_rivals(alloc, &nodes, path)?;
    let steps = best_steps(alloc, source, path)?;
    let firsts = firsts_of(alloc, &nodes)?;
    let placed = NodesByPosition {
        source,
        nodes: &nodes,
        firsts: &firsts,
    };
    let before = placed.find_predecessors(alloc)?;
    let after = placed.find_successors(alloc)?;
    let linked = NodesWithNeighbors {
        nodes,
        on_best,
        before,
        after,
    };
    Ok(Rivals {
        linked,
        bests,
        steps,
    })
}

impl Rivals {
    /// Returns the words of the best path with their costs.
    pub fn steps(&self) -> &[PathStep]
        ensures { (words : ℕ → List WordOf) (conn : ℕ → ℕ → ℤ) (len : ℕ) (path : List WordOf)
            → AreRivals words conn len path self.now
            → result.now ≡ steps_of conn path }
    {
        &self.steps
    }

    /// Returns the rival of word `number` of the best path, counted from 0. Returns `None` if there
    /// is no such word, or no path segments the text differently there.
    ///
    /// The time is at most linear in `STEPS_MAX`.
    pub fn rival(&self, alloc: Global, number: usize) -> Result<Option<RivalPath>, AllocError>
        ensures rival { (words : ℕ → List WordOf) (conn : ℕ → ℕ → ℤ) (len : ℕ) (path : List WordOf)
            (word : WordOf) → AreRivals words conn len path self.now
            → slice_get path number ≡ Some word
            → IfOk result (IsRivalOrNone words conn path word) }
        ensures none { (words : ℕ → List WordOf) (conn : ℕ → ℕ → ℤ) (len : ℕ) (path : List WordOf)
            → AreRivals words conn len path self.now → length path ≤ number
            → IfOk result (λ rival. rival ≡ None) }
    {
        match rival_at(&self.bests, number) {
            Some(best) => Ok(Some(path_through(alloc, &self.linked, &best)?)),
            None => Ok(None),
        }
    }
}
