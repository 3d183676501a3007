//! The words of the best path, read from its nodes.

ghost use Rattle.std.specs.Prelude.{◌≡◌, ◌-◌, ◌<◌, ◌≤◌, length, slice_get, take, nat_le, Some};
ghost use Rattle.viterbi.specs.Search.BestNodes.{HaveBestNodes, best_words};
ghost use Rattle.viterbi.specs.Search.Nodes.{AreSurfaceNodes, HasNode, node_words};

use crate::search::node::SurfaceNodes;
use crate::search::nodes::Nodes;
use crate::search::source::WordSource;
use mj_model::Word;
use mj_model::paths::WordStream;
use std::marker::Model;

/// The words of the best path that have not been returned yet. Each word is read from its
/// dictionary entry, so that the path does not allocate.
///
/// In contracts, its value is the list of these words.
#[derive(Drop)]
pub struct BestWords<'a, S: WordSource> {
    source: &'a S,
    by_surface: &'a [SurfaceNodes],
    /// The numbers of the nodes that are left, the last node of the path first.
    numbers: &'a [usize],
    /// The index of a group of nodes: no earlier group has a node that is left.
    first: usize,
}

impl<'a, S: WordSource> Model for BestWords<'a, S> {
    ghost use Rattle.std.specs.Prelude.{List};
    ghost use Rattle.mj_model.specs.declared.word.Word.{Word};
    ghost use Rattle.viterbi.specs.Search.BestNodes.{AreNodesFrom, words_of_numbers};
    ghost use Rattle.viterbi.specs.Search.Nodes.{node_words};

    ghost Value = { List Word };

    ghost view = { λ it. words_of_numbers
        (node_words (S.searched_text it.source.now).surface_words it.by_surface.now)
        it.numbers.now };

    ghost invariant = { λ it. AreNodesFrom (S.searched_text it.source.now).surface_words
        it.by_surface.now it.first it.numbers.now };
}

impl<'a, S: WordSource> BestWords<'a, S> {
    /// Returns the words of the best path of a text. `nodes.heads` holds the numbers of its nodes.
    pub(crate) fn new(source: &'a S, nodes: &'a Nodes) -> BestWords<'a, S>
        requires { HaveBestNodes (S.searched_text source.now) nodes.now }
        ensures { result ≡ best_words (S.searched_text source.now) nodes.now }
    {
        BestWords {
            source,
            by_surface: &nodes.by_surface,
            numbers: &nodes.heads,
            first: 0,
        }
    }
}

impl<'a, S: WordSource> WordStream for BestWords<'a, S> {
    ghost left = { λ words. words };

    #[inline(always)]
    fn next_word(&mut self) -> Option<Word> {
        let (node, before) = self.numbers.split_last()?;
        let number = surface_nodes_from(self.source, self.by_surface, self.first, *node);
        let word = node_word(self.source, self.by_surface, number, *node);
        self.numbers = before;
        self.first = number;
        Some(word)
    }
}

/// Returns the index of the group that has node `node`, which is in no group before `first`.
#[inline(always)]
fn surface_nodes_from<S: WordSource>(
    source: &S,
    by_surface: &[SurfaceNodes],
    first: usize,
    node: usize,
) -> usize
    requires by_surface { AreSurfaceNodes (S.searched_text source.now).surface_words
        by_surface.now }
    requires first { length (node_words (S.searched_text source.now).surface_words
        (take first by_surface.now)) ≤ node }
    requires node { node < length
        (node_words (S.searched_text source.now).surface_words by_surface.now) }
    ensures { HasNode by_surface.now result node }
{
    let mut number = first;
    while has_passed(&by_surface[number], node) {
        number += 1;
    }
    number
}

/// Returns whether `node` is after the nodes of this group. It must not be before them.
fn has_passed(surface_nodes: &SurfaceNodes, node: usize) -> bool
    requires { surface_nodes.now.from ≤ node }
    ensures { result ≡ nat_le surface_nodes.now.surface.count (node - surface_nodes.now.from) }
{
    surface_nodes.surface.count as usize <= node - surface_nodes.from
}

/// Returns the word of node `node`, which is in group `number`.
fn node_word<S: WordSource>(
    source: &S,
    by_surface: &[SurfaceNodes],
    number: usize,
    node: usize,
) -> Word
    requires by_surface { AreSurfaceNodes (S.searched_text source.now).surface_words
        by_surface.now }
    requires node { HasNode by_surface.now number node }
    ensures { slice_get (node_words (S.searched_text source.now).surface_words by_surface.now) node
        ≡ Some result }
{
    let surface_nodes = &by_surface[number];
    let after_it = surface_nodes.surface.count - 1 - (node - surface_nodes.from) as u32;
    source.word(&source.words_of(&surface_nodes.surface), after_it)
}
