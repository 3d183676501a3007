//! Tests whether a node is the successor of another one on a path of least cost.

ghost use Rattle.std.specs.Prelude.{◌≡◌};
ghost use Rattle.viterbi.specs.Rivals.Successors.{IsFollower};
ghost use Rattle.viterbi.specs.Rivals.Places.{IsSmallNode};
ghost use Rattle.viterbi.specs.Rivals.Totals.{IsSuccessorCost, IsSmall};

use crate::nodes::LatticeNode;
use crate::rivals::neighbor::{BOUNDARY_ID, Neighbor, neighbor_between};
use crate::rivals::total::{Total, backward_cost_at, is_same, next_step, total_of};
use crate::search::WordSource;

/// Returns EOS as the neighbor of `node`.
pub fn eos_neighbor<S: WordSource>(source: &S, node: &LatticeNode) -> Neighbor
    requires { (S.searched_text source.now).is_pair node.now.word.right 0 }
    ensures node { result.node ≡ None }
    ensures connection { result.connection
        ≡ (S.searched_text source.now).connection node.now.word.right 0 }
{
    Neighbor {
        node: None,
        connection: source.connection_cost(node.word.right, BOUNDARY_ID),
    }
}

/// Returns `next`, which has number `number`, as the successor of `node` if a path of least cost
/// through `node` continues with it.
pub fn successor_to<S: WordSource>(
    source: &S,
    node: &LatticeNode,
    number: usize,
    next: &LatticeNode,
) -> Option<Neighbor>
    requires pair { (S.searched_text source.now).is_pair node.now.word.right next.now.word.left }
    requires node { IsSmallNode node.now }
    requires next { IsSmallNode next.now }
    ensures { IsFollower (S.searched_text source.now).connection node.now number next.now result }
{
    let backward = backward_cost_at(node)?;
    let further = backward_cost_at(next)?;
    let link = neighbor_between(source, number, node, next);
    if is_successor(&backward, &link, next, &further) {
        return Some(link);
    }
    None
}

/// Returns whether the backward cost `backward` of a node is `further`, the backward cost of
/// `next`, plus the costs of the step to `next`. `link` has the connection cost of the step.
fn is_successor(backward: &Total, link: &Neighbor, next: &LatticeNode, further: &Total) -> bool
    requires { IsSmall further.now }
    ensures { IsSuccessorCost backward.now link.now next.now further.now result }
{
    let step = next_step(further, link.connection, &next.word);
    is_same(backward, &total_of(&step))
}
