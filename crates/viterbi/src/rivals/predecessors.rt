//! Tests whether a node is the predecessor of another one on a chain of least cost.

ghost use Rattle.std.specs.Prelude.{◌≡◌};
ghost use Rattle.viterbi.specs.Rivals.PredecessorSearch.{IsPredecessorFrom};
ghost use Rattle.viterbi.specs.Rivals.Places.{IsSmallNode};
ghost use Rattle.viterbi.specs.Rivals.Totals.{IsPredecessorCost};

use crate::nodes::LatticeNode;
use crate::rivals::neighbor::{BOUNDARY_ID, Neighbor, neighbor_between};
use crate::rivals::total::{is_same, next_step, total_at, total_of};
use crate::search::WordSource;

/// Returns BOS as the neighbor of `node`.
pub fn bos_neighbor<S: WordSource>(source: &S, node: &LatticeNode) -> Neighbor
    requires { (S.searched_text source.now).is_pair 0 node.now.word.left }
    ensures node { result.node ≡ None }
    ensures connection { result.connection
        ≡ (S.searched_text source.now).connection 0 node.now.word.left }
{
    Neighbor {
        node: None,
        connection: source.connection_cost(BOUNDARY_ID, node.word.left),
    }
}

/// Returns `node`, which has number `number`, as the predecessor of `next` if a chain of least cost
/// leads through both; otherwise returns `link`, the predecessor so far.
pub fn update_predecessor<S: WordSource>(
    source: &S,
    number: usize,
    node: &LatticeNode,
    next: &LatticeNode,
    link: Neighbor,
) -> Neighbor
    requires pair { (S.searched_text source.now).is_pair node.now.word.right next.now.word.left }
    requires small { IsSmallNode node.now }
    ensures { IsPredecessorFrom (S.searched_text source.now).connection number node.now next.now
        link result }
{
    let found = neighbor_between(source, number, node, next);
    if is_predecessor(node, &found, next) {
        return found;
    }
    link
}

/// Returns whether the forward cost of `next` is that of `node` plus the costs of the step to
/// `next`. `link` has the connection cost of the step.
fn is_predecessor(node: &LatticeNode, link: &Neighbor, next: &LatticeNode) -> bool
    requires { IsSmallNode node.now }
    ensures { IsPredecessorCost node.now link.now next.now result }
{
    let step = next_step(&total_at(node), link.connection, &next.word);
    is_same(&total_at(next), &total_of(&step))
}
