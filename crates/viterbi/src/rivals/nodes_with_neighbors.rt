//! The nodes of a lattice with their neighbors on paths of least cost.

ghost use Rattle.std.specs.Prelude.{◌<◌, length};
ghost use Rattle.viterbi.specs.Rivals.NodesWithNeighbors.{HaveNeighbors, IsNodeNumber, IsOther};
ghost use Rattle.viterbi.specs.Rivals.Totals.{IsNearTotal, IsSmall};
ghost use Rattle.viterbi.specs.Rivals.Walked.{IsStepAt, IsStepOn, IsTotalAt};

use crate::nodes::LatticeNode;
use crate::rivals::neighbor::Neighbor;
use crate::rivals::step::PathStep;
use crate::rivals::total::{Total, next_step};

/// The nodes of a text's lattice, whether each is on the best path, and the neighbors of each:
/// `before` on a chain of least cost up to it, `after` on a path of least cost through it.
#[derive(Debug, Drop)]
pub struct NodesWithNeighbors {
    pub nodes: Vec<LatticeNode>,
    pub on_best: Vec<bool>,
    pub before: Vec<Neighbor>,
    pub after: Vec<Neighbor>,
}

impl NodesWithNeighbors {
    /// Returns the node of neighbor `link`, unless that is on the best path, BOS or EOS.
    pub fn other(&self, link: &Neighbor) -> Option<usize>
        requires neighbors { HaveNeighbors self.now }
        requires link { IsNodeNumber (length self.now.nodes.items) link.now.node }
        ensures { IsOther self.now.on_best.items link.now.node result }
    {
        let node = link.node?;
        if self.on_best[node] { None } else { Some(node) }
    }

    /// Returns the word of node `number` as a step, with the node's forward cost.
    pub fn step(&self, number: usize) -> PathStep
        requires neighbors { HaveNeighbors self.now }
        requires number { number < length self.now.nodes.items }
        ensures { IsStepAt self.now number result }
    {
        let node = &self.nodes[number];
        PathStep {
            word: node.word,
            connection: i64::from(self.before[number].connection),
            total: node.total,
        }
    }

    /// Returns the forward cost of node `number`.
    pub fn total(&self, number: usize) -> Total
        requires neighbors { HaveNeighbors self.now }
        requires number { number < length self.now.nodes.items }
        ensures { IsTotalAt self.now number result.cost }
    {
        Total {
            cost: self.nodes[number].total,
        }
    }

    /// Returns the step from node `number` to its successor `next`. Up to the node, the path costs
    /// `total`.
    pub fn step_on(&self, total: &Total, number: usize, next: usize) -> PathStep
        requires neighbors { HaveNeighbors self.now }
        requires number { number < length self.now.nodes.items }
        requires next { next < length self.now.nodes.items }
        requires total { IsSmall total.now }
        ensures step { IsStepOn self.now total.now.cost number next result }
        ensures bounded { IsNearTotal total.now result.total }
    {
        next_step(total, self.after[number].connection, &self.nodes[next].word)
    }
}
