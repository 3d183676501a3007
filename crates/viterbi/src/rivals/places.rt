//! The first node of each position.

ghost use Rattle.std.specs.Prelude.{◌≤◌, IfOk, length};
ghost use Rattle.viterbi.specs.Nodes.OnPath.{AreByPlace};
ghost use Rattle.viterbi.specs.Nodes.ReachableWords.{AreIndexed, IsFirstFrom};
ghost use Rattle.viterbi.specs.Rivals.Places.{AreLow, words_in};

use crate::nodes::LatticeNode;
use std::alloc::{AllocError, Global};

/// Returns for each position, up to that of the last node, the number of the first node at it or
/// after it.
pub fn firsts_of(alloc: Global, nodes: &[LatticeNode]) -> Result<Vec<usize>, AllocError>
    requires nodes { AreByPlace nodes.now }
    requires low { AreLow nodes.now }
    ensures { IfOk result (λ firsts. AreIndexed (words_in nodes.now) firsts.items) }
{
    let mut firsts = Vec::new(alloc);
    for number in 0..nodes.len() {
        firsts.resize(nodes[number].word.place + 1, number)?;
    }
    Ok(firsts)
}

/// Returns the number of the first node at position `place` or later, or the number of nodes if
/// there is none.
pub fn first_of(nodes: &[LatticeNode], firsts: &[usize], place: usize) -> usize
    requires { AreIndexed (words_in nodes.now) firsts.now }
    ensures first { IsFirstFrom (words_in nodes.now) place result }
    ensures within { result ≤ length nodes.now }
{
    match firsts.get(place) {
        Some(first) => *first,
        None => nodes.len(),
    }
}
