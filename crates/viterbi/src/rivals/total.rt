//! Sums of costs along a path.

ghost use Rattle.std.specs.Prelude.{◌≡◌, ◌↔◌, ◌+ℤ◌, true};
ghost use Rattle.viterbi.specs.Rivals.Places.{IsSmallNode};
ghost use Rattle.viterbi.specs.Rivals.Totals.{IsNearTotal, IsSmall, backward_cost_in};

use crate::nodes::LatticeNode;
use crate::rivals::step::PathStep;
use mj_model::Word;

/// The summed cost of some words of a path.
#[derive(Clone, Copy, Debug, PartialEq, Eq, Drop)]
pub struct Total {
    pub cost: i64,
}

/// Returns the cost of the path up to and including `step`.
pub fn total_of(step: &PathStep) -> Total
    ensures { result.cost ≡ step.now.total }
{
    Total { cost: step.total }
}

/// Returns the forward cost of a node.
pub fn total_at(node: &LatticeNode) -> Total
    ensures { result.cost ≡ node.now.total }
{
    Total { cost: node.total }
}

/// Returns the backward cost of a node: the least cost through it minus its forward cost. It is
/// `None` if no path contains the node.
pub fn backward_cost_at(node: &LatticeNode) -> Option<Total>
    requires { IsSmallNode node.now }
    ensures { result ≡ backward_cost_in node.now.total node.now.through }
{
    match node.through {
        Some(through) => Some(Total {
            cost: through - node.total,
        }),
        None => None,
    }
}

/// Returns whether two costs are equal.
pub fn is_same(total: &Total, other: &Total) -> bool
    ensures { (result ≡ true) ↔ (total.now ≡ other.now) }
{
    total == other
}

/// Returns the step of `word` after words that cost `total`, with connection cost `connection`.
pub fn next_step(total: &Total, connection: i16, word: &Word) -> PathStep
    requires { IsSmall total.now }
    ensures word { result.word ≡ word.now }
    ensures connection { result.connection ≡ connection }
    ensures total { result.total ≡ (total.now.cost +ℤ connection) +ℤ word.now.cost }
    ensures bounded { IsNearTotal total.now result.total }
{
    let connection = i64::from(connection);
    PathStep {
        word: *word,
        connection,
        total: total.cost + connection + i64::from(word.cost),
    }
}
