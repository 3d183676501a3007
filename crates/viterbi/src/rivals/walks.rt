//! Builds the path of a rival: its words that are not on the best path.

ghost use Rattle.std.specs.Prelude.{◌≡◌, ◌<◌, ℕ, ℤ, List, Contains, Some, IfOk, length, slice_get};
ghost use Rattle.mj_model.specs.declared.word.Word.{Word as WordOf};
ghost use Rattle.viterbi.specs.declared.nodes.lattice_node.LatticeNode.{LatticeNode};
ghost use Rattle.viterbi.specs.Rivals.NodesWithNeighbors.{HaveNeighbors};
ghost use Rattle.viterbi.specs.Rivals.RivalsState.{AreWithNeighbors};
ghost use Rattle.viterbi.specs.Rivals.Rivals.{IsRivalOf};
ghost use Rattle.viterbi.specs.Rivals.RivalPaths.{IsRivalPath};
ghost use Rattle.viterbi.specs.Rivals.Walked.{IsWalkedBackward, IsWalkedForward};

use crate::rivals::nodes_with_neighbors::NodesWithNeighbors;
use crate::rivals::rival::Rival;
use crate::rivals::rival_path::{RivalPath, STEPS_MAX};
use crate::rivals::step::PathStep;
use crate::rivals::total::total_of;
use std::alloc::{AllocError, Global};

/// The steps on one side of a rival's word.
#[derive(Debug, Drop)]
struct Walk {
    steps: Vec<PathStep>,
    /// Whether the steps go all the way to the best path, to BOS or to EOS.
    reaches: bool,
}

/// Returns the path of the best rival of a word of the best path.
pub fn path_through(
    alloc: Global,
    linked: &NodesWithNeighbors,
    best: &Rival,
) -> Result<RivalPath, AllocError>
    requires neighbors { HaveNeighbors linked.now }
    requires node { best.now.number < length linked.now.nodes.items }
    ensures { (words : ℕ → List WordOf) (conn : ℕ → ℕ → ℤ) (len : ℕ) (path : List WordOf)
        (word : WordOf) → AreWithNeighbors words conn len path linked.now
        → Contains path word
        → IsRivalOf words conn linked.now.nodes.items word best.now
        → IfOk result (IsRivalPath words conn path word) }
{
    let before = walk_backward(alloc, linked, best.number)?;
    let after = walk_forward(alloc, linked, best.number)?;
    let mut steps = before.steps;
    steps.reverse();
    steps.extend_from_slice(&after.steps)?;
    Ok(RivalPath {
        cost: best.cost,
        begins: before.reaches,
        ends: after.reaches,
        steps,
    })
}

/// Walks back from node `from` along a chain of least cost until it meets the best path or BOS. The
/// first step is the word of node `from`, and at most `STEPS_MAX` steps follow it.
fn walk_backward(
    alloc: Global,
    linked: &NodesWithNeighbors,
    from: usize,
) -> Result<Walk, AllocError>
    requires neighbors { HaveNeighbors linked.now }
    requires node { from < length linked.now.nodes.items }
    ensures { IfOk result (λ walk. (words : ℕ → List WordOf) (conn : ℕ → ℕ → ℤ) (len : ℕ)
        (best : List WordOf) (node : LatticeNode) → AreWithNeighbors words conn len best linked.now
        → slice_get linked.now.nodes.items from ≡ Some node
        → IsWalkedBackward words conn best node walk.reaches walk.steps.items) }
{
    let mut steps = Vec::new(alloc);
    let mut at = from;
    steps.push(linked.step(at))?;
    while let Some(node) = linked.other(&linked.before[at]) {
        if STEPS_MAX < steps.len() {
            return Ok(Walk {
                steps,
                reaches: false,
            });
        }
        steps.push(linked.step(node))?;
        at = node;
    }
    Ok(Walk {
        steps,
        reaches: true,
    })
}

/// Walks forward from node `from` along a path of least cost through it until it meets the best
/// path or EOS. The word of node `from` is not a step. There are at most `STEPS_MAX` steps.
fn walk_forward(alloc: Global, linked: &NodesWithNeighbors, from: usize) -> Result<Walk, AllocError>
    requires neighbors { HaveNeighbors linked.now }
    requires node { from < length linked.now.nodes.items }
    ensures { IfOk result (λ walk. (words : ℕ → List WordOf) (conn : ℕ → ℕ → ℤ) (len : ℕ)
        (best : List WordOf) (node : LatticeNode) (cost : ℤ)
        → AreWithNeighbors words conn len best linked.now
        → slice_get linked.now.nodes.items from ≡ Some node
        → node.through ≡ Some cost
        → IsWalkedForward words conn best node cost walk.reaches walk.steps.items) }
{
    let mut steps = Vec::new(alloc);
    let mut at = from;
    let mut total = linked.total(from);
    while let Some(node) = linked.other(&linked.after[at]) {
        if STEPS_MAX <= steps.len() {
            return Ok(Walk {
                steps,
                reaches: false,
            });
        }
        let step = linked.step_on(&total, at, node);
        steps.push(step)?;
        total = total_of(&step);
        at = node;
    }
    Ok(Walk {
        steps,
        reaches: true,
    })
}
