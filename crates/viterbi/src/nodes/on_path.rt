//! The nodes of a lattice that are on a path.

ghost use Rattle.std.specs.Prelude.{◌≡◌, ◌↔◌, ◌≤◌, length, true, IfOk};
ghost use Rattle.viterbi.specs.Nodes.OnPath.{AreByPlace, AreOnPath, HaveRisingPlaces, IsFirstAt, IsWordAt};

use crate::nodes::lattice_node::LatticeNode;
use mj_model::Word;
use std::alloc::{AllocError, Global};

/// Returns for each node of a text's lattice whether its word is on `path`, which is a path of that
/// text.
///
/// The time is linear in the nodes and the words of the path.
pub fn mark_nodes_on_path(
    alloc: Global,
    nodes: &[LatticeNode],
    path: &[Word],
) -> Result<Vec<bool>, AllocError>
    requires nodes { AreByPlace nodes.now }
    requires path { HaveRisingPlaces path.now }
    ensures { IfOk result (λ on. AreOnPath nodes.now path.now on.items) }
{
    let mut on = Vec::new(alloc);
    let mut next = 0;
    for i in 0..nodes.len() {
        next = first_word_from(path, next, nodes[i].word.place);
        on.push(is_word_at(path, next, &nodes[i].word))?;
    }
    Ok(on)
}

/// Returns the index of the first word of `path` at `from` or later whose position is `place` or
/// later.
///
/// Returns the length of `path` if there is none.
pub fn first_word_from(path: &[Word], from: usize, place: usize) -> usize
    requires { from ≤ length path.now }
    ensures { IsFirstAt path.now from place result }
{
    let mut number = from;
    while number < path.len() {
        if place <= path[number].place {
            return number;
        }
        number += 1;
    }
    number
}

/// Returns whether the word of `path` at index `number` is `word`.
fn is_word_at(path: &[Word], number: usize, word: &Word) -> bool
    ensures { IsWordAt path.now number word.now result }
{
    match path.get(number) {
        Some(found) => is_same(found, word),
        None => false,
    }
}

/// Returns whether two words are equal.
fn is_same(word: &Word, other: &Word) -> bool
    ensures { (result ≡ true) ↔ (word.now ≡ other.now) }
{
    word == other
}
