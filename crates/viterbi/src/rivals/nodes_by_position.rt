//! Finds the neighbors of each node of a lattice on paths of least cost.

ghost use Rattle.std.specs.Prelude.{◌+◌, ◌<◌, IfOk, length};
ghost use Rattle.viterbi.specs.Rivals.Successors.{IsSuccessorAt};
ghost use Rattle.viterbi.specs.Rivals.PredecessorSearch.{ArePropagated};
ghost use Rattle.viterbi.specs.Rivals.Neighbors.{AreAfter, AreBefore};
ghost use Rattle.viterbi.specs.Rivals.Places.{ArePlaced};

use crate::nodes::LatticeNode;
use crate::rivals::neighbor::Neighbor;
use crate::rivals::places::first_of;
use crate::rivals::predecessors::{bos_neighbor, update_predecessor};
use crate::rivals::successors::{eos_neighbor, successor_to};
use crate::search::WordSource;
use std::alloc::{AllocError, Global};

/// The nodes of a text's lattice with their source of words, and the number of the first node of
/// each position.
#[derive(Drop)]
pub struct NodesByPosition<'a, S> {
    pub source: &'a S,
    pub nodes: &'a [LatticeNode],
    pub firsts: &'a [usize],
}

impl<'a, S: WordSource> NodesByPosition<'a, S> {
    /// Returns for each node its predecessor on a chain of least cost, found by propagation from
    /// node to node.
    pub fn find_predecessors(&self, alloc: Global) -> Result<Vec<Neighbor>, AllocError>
        requires { ArePlaced (S.searched_text self.now.source.now)
            self.now.nodes.now self.now.firsts.now }
        ensures { IfOk result (λ links. AreBefore (S.searched_text self.now.source.now).connection
            self.now.nodes.now links.items) }
    {
        let mut links = self.bos_neighbors(alloc)?;
        for number in 0..self.nodes.len() {
            self.propagate(number, &mut links);
        }
        Ok(links)
    }

    /// Returns BOS as the neighbor of each node.
    fn bos_neighbors(&self, alloc: Global) -> Result<Vec<Neighbor>, AllocError>
        requires { ArePlaced (S.searched_text self.now.source.now)
            self.now.nodes.now self.now.firsts.now }
        ensures { IfOk result
            (λ links. ArePropagated (S.searched_text self.now.source.now).connection
            self.now.nodes.now 0 0 links.items) }
    {
        let mut links = Vec::new(alloc);
        for number in 0..self.nodes.len() {
            links.push(bos_neighbor(self.source, &self.nodes[number]))?;
        }
        Ok(links)
    }

    /// Sets node `number` as the predecessor of each node that it precedes on a chain of least
    /// cost. Earlier nodes are done.
    fn propagate(&self, number: usize, links: &mut [Neighbor])
        requires placed { ArePlaced (S.searched_text self.now.source.now)
            self.now.nodes.now self.now.firsts.now }
        requires number { number < length self.now.nodes.now }
        requires before { ArePropagated (S.searched_text self.now.source.now).connection
            self.now.nodes.now number 0 links.old }
        ensures { ArePropagated (S.searched_text self.now.source.now).connection self.now.nodes.now
            (number + 1) 0 links.new }
    {
        let node = self.nodes[number];
        let from = first_of(self.nodes, self.firsts, node.word.end);
        let to = first_of(self.nodes, self.firsts, node.word.end + 1);
        for next in from..to {
            links[next] = update_predecessor(
                self.source,
                number,
                &node,
                &self.nodes[next],
                links[next],
            );
        }
    }

    /// Returns for each node its successor on a path of least cost through it, or EOS if the path
    /// ends with it or no path contains it.
    pub fn find_successors(&self, alloc: Global) -> Result<Vec<Neighbor>, AllocError>
        requires { ArePlaced (S.searched_text self.now.source.now)
            self.now.nodes.now self.now.firsts.now }
        ensures { IfOk result (λ links. AreAfter (S.searched_text self.now.source.now).words
            (S.searched_text self.now.source.now).connection self.now.nodes.now links.items) }
    {
        let mut links = Vec::new(alloc);
        for number in 0..self.nodes.len() {
            links.push(self.successor_of(number))?;
        }
        Ok(links)
    }

    /// Returns the first successor of node `number` on a path of least cost through it, or EOS.
    fn successor_of(&self, number: usize) -> Neighbor
        requires placed { ArePlaced (S.searched_text self.now.source.now)
            self.now.nodes.now self.now.firsts.now }
        requires number { number < length self.now.nodes.now }
        ensures { IsSuccessorAt (S.searched_text self.now.source.now).words
            (S.searched_text self.now.source.now).connection self.now.nodes.now number result }
    {
        let node = self.nodes[number];
        let from = first_of(self.nodes, self.firsts, node.word.end);
        let to = first_of(self.nodes, self.firsts, node.word.end + 1);
        for next in from..to {
            if let Some(link) = successor_to(self.source, &node, next, &self.nodes[next]) {
                return link;
            }
        }
        eos_neighbor(self.source, &node)
    }
}
