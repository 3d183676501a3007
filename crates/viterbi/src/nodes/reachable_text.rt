//! The forward and backward costs of the reachable words of a text.

ghost use Rattle.std.specs.Prelude.{◌+◌, ◌<◌, length, IfOk};
ghost use Rattle.viterbi.specs.Nodes.ReachableWords.{IsReachedText};
ghost use Rattle.viterbi.specs.Nodes.BackwardCosts.{AreBackwardCostsFrom, AreBackwardCostsIn, IsBackwardCostAt};
ghost use Rattle.viterbi.specs.Nodes.ForwardCosts.{ArePropagatedIn, AreForwardCostsIn};

use crate::nodes::backward_costs::{eos_cost, last_end_position, least_with};
use crate::nodes::cost::{ChainCost, lesser, with_word};
use crate::nodes::forward_costs::first_forward_cost;
use crate::nodes::reachable_words::ReachableWords;
use crate::search::WordSource;
use std::alloc::{AllocError, Global};

/// A source of words with the words of its text that some chain reaches.
#[derive(Drop)]
pub struct ReachableText<'a, S> {
    pub source: &'a S,
    pub reached: &'a ReachableWords,
}

impl<'a, S: WordSource> ReachableText<'a, S> {
    /// Returns the forward cost of each word. Costs are propagated from each word to the words that
    /// follow it.
    pub fn compute_forward_costs(&self, alloc: Global) -> Result<Vec<Option<ChainCost>>, AllocError>
        requires { IsReachedText (S.searched_text self.now.source.now) self.now.reached.now }
        ensures { IfOk result (λ forward_costs.
            AreForwardCostsIn (S.searched_text self.now.source.now)
            self.now.reached.now forward_costs.items) }
    {
        let mut forward_costs = self.first_forward_costs(alloc)?;
        for i in 0..self.reached.words.len() {
            self.propagate(i, &mut forward_costs);
        }
        Ok(forward_costs)
    }

    /// Returns the costs of the words that follow BOS.
    fn first_forward_costs(&self, alloc: Global) -> Result<Vec<Option<ChainCost>>, AllocError>
        requires { IsReachedText (S.searched_text self.now.source.now) self.now.reached.now }
        ensures { IfOk result (λ forward_costs.
            ArePropagatedIn (S.searched_text self.now.source.now)
            self.now.reached.now 0 0 forward_costs.items) }
    {
        let mut forward_costs = Vec::new(alloc);
        for i in 0..self.reached.words.len() {
            forward_costs.push(first_forward_cost(self.source, &self.reached.words[i]))?;
        }
        Ok(forward_costs)
    }

    /// Propagates the forward cost of word `i` to the words that may follow it. Earlier words are
    /// done.
    fn propagate(&self, i: usize, forward_costs: &mut [Option<ChainCost>])
        requires text { IsReachedText (S.searched_text self.now.source.now) self.now.reached.now }
        requires word { i < length self.now.reached.now.words.items }
        requires before { ArePropagatedIn (S.searched_text self.now.source.now)
            self.now.reached.now i 0 forward_costs.old }
        ensures { ArePropagatedIn (S.searched_text self.now.source.now)
            self.now.reached.now (i + 1) 0 forward_costs.new }
    {
        let word = self.reached.words[i];
        let total = forward_costs[i].unwrap();
        let from = self.reached.first(word.end);
        let to = self.reached.first(word.end + 1);
        for next in from..to {
            let found = with_word(self.source, &total, word.right, &self.reached.words[next]);
            forward_costs[next] = Some(lesser(forward_costs[next], found));
        }
    }

    /// Returns the backward cost of each word: the least cost from the word to EOS, with the
    /// connection to EOS. It is `None` if no path contains the word.
    pub fn compute_backward_costs(
        &self,
        alloc: Global,
    ) -> Result<Vec<Option<ChainCost>>, AllocError>
        requires { IsReachedText (S.searched_text self.now.source.now) self.now.reached.now }
        ensures { IfOk result (λ backward_costs.
            AreBackwardCostsIn (S.searched_text self.now.source.now)
            self.now.reached.now backward_costs.items) }
    {
        let mut backward_costs = self.last_backward_costs(alloc)?;
        let mut i = self.reached.words.len();
        while 0 < i {
            i -= 1;
            backward_costs[i] = self.backward_cost(&backward_costs, i);
        }
        Ok(backward_costs)
    }

    /// Returns the connection cost to EOS of each word that can be the last of a path.
    fn last_backward_costs(&self, alloc: Global) -> Result<Vec<Option<ChainCost>>, AllocError>
        requires { IsReachedText (S.searched_text self.now.source.now) self.now.reached.now }
        ensures { IfOk result
            (λ backward_costs. AreBackwardCostsFrom (S.searched_text self.now.source.now)
            self.now.reached.now (length self.now.reached.now.words.items) backward_costs.items) }
    {
        let last = last_end_position(&self.reached.words);
        let mut backward_costs = Vec::new(alloc);
        for i in 0..self.reached.words.len() {
            backward_costs.push(eos_cost(self.source, &self.reached.words[i], last))?;
        }
        Ok(backward_costs)
    }

    /// Returns the backward cost of word `i`, given the backward costs of later words.
    fn backward_cost(&self, backward_costs: &[Option<ChainCost>], i: usize) -> Option<ChainCost>
        requires text { IsReachedText (S.searched_text self.now.source.now) self.now.reached.now }
        requires word { i < length self.now.reached.now.words.items }
        requires later { AreBackwardCostsFrom (S.searched_text self.now.source.now)
            self.now.reached.now (i + 1) backward_costs.now }
        ensures { IsBackwardCostAt (S.searched_text self.now.source.now)
            self.now.reached.now i result }
    {
        let before = self.reached.words[i];
        let mut least = backward_costs[i];
        let from = self.reached.first(before.end);
        let to = self.reached.first(before.end + 1);
        for next in from..to {
            least = least_with(
                self.source,
                least,
                &backward_costs[next],
                before.right,
                &self.reached.words[next],
            );
        }
        least
    }
}
