//! The lattice of a text.

ghost use Rattle.std.specs.Prelude.{◌≡◌, length, All, IfOk};
ghost use Rattle.viterbi.specs.Search.SearchedText.{CanBeSearched};
ghost use Rattle.viterbi.specs.Nodes.Assembled.{AreNodes, IsSmall, IsSmallIfSome, IsSmallTotal, sum_of};
ghost use Rattle.viterbi.specs.Nodes.LatticeNodes.{AreWordsOfLattice, HasLeastThrough, HasLeastForwardCost};

use crate::nodes::cost::ChainCost;
use crate::nodes::lattice_node::LatticeNode;
use crate::nodes::reachable_text::ReachableText;
use crate::nodes::reachable_words::reachable_words;
use crate::search::WordSource;
use mj_model::Word;
use std::alloc::{AllocError, Global};

/// Returns the nodes of the lattice of a text, by position and in the order of the words of a
/// position.
///
/// The time is linear in the bytes of the text, the nodes, and the connections between them. The
/// memory is linear in the bytes and the nodes.
pub fn lattice_nodes<S: WordSource>(
    alloc: Global,
    source: &S,
) -> Result<Vec<LatticeNode>, AllocError>
    requires { CanBeSearched (S.searched_text source.now) }
    // The words that some chain reaches, in their order, each once.
    ensures words { IfOk result
        (λ nodes. AreWordsOfLattice (S.searched_text source.now) nodes.items) }
    // The forward cost of each node.
    ensures forward_costs { IfOk result
        (λ nodes. All (HasLeastForwardCost (S.searched_text source.now)) nodes.items) }
    // The least cost of the paths that contain each node, or `None` if there are none.
    ensures through { IfOk result
        (λ nodes. All (HasLeastThrough (S.searched_text source.now)) nodes.items) }
{
    let reached = reachable_words(alloc, source)?;
    let text = ReachableText {
        source,
        reached: &reached,
    };
    let forward_costs = text.compute_forward_costs(alloc)?;
    let backward_costs = text.compute_backward_costs(alloc)?;
    nodes_of(alloc, &reached.words, &forward_costs, &backward_costs)
}

/// Returns the nodes of `words`, whose forward and backward costs have the same indices.
fn nodes_of(
    alloc: Global,
    words: &[Word],
    forward_costs: &[Option<ChainCost>],
    backward_costs: &[Option<ChainCost>],
) -> Result<Vec<LatticeNode>, AllocError>
    requires forward_long { length forward_costs.now ≡ length words.now }
    requires backward_long { length backward_costs.now ≡ length words.now }
    requires forward_costs { All IsSmallTotal forward_costs.now }
    requires backward_costs { All IsSmallIfSome backward_costs.now }
    ensures { IfOk result (λ nodes. AreNodes words.now forward_costs.now backward_costs.now
        (length words.now) nodes.items) }
{
    let mut nodes = Vec::new(alloc);
    for i in 0..words.len() {
        let total = forward_costs[i].unwrap();
        nodes.push(node_of(&words[i], &total, &backward_costs[i]))?;
    }
    Ok(nodes)
}

/// Returns the node of `word` with forward cost `total` and backward cost `backward`.
fn node_of(word: &Word, total: &ChainCost, backward: &Option<ChainCost>) -> LatticeNode
    requires total { IsSmall total.now }
    requires backward_cost { IsSmallIfSome backward.now }
    ensures word { result.word ≡ word.now }
    ensures total { result.total ≡ total.now.cost }
    ensures through { result.through ≡ sum_of total.now backward.now }
{
    let through = match backward {
        Some(backward) => Some(total.cost + backward.cost),
        None => None,
    };
    LatticeNode {
        word: *word,
        total: total.cost,
        through,
    }
}
