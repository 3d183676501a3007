//! The nodes of a lattice: words, each with the predecessor on the best chain to it.

ghost use Rattle.std.specs.Prelude.{◌≡◌, ◌^◌};
ghost use Rattle.mj_model.specs.Bounds.{IsWithin};
ghost use Rattle.viterbi.specs.Search.Nodes.{stored_node, link_of};
ghost use Rattle.viterbi.specs.Search.Lattice.{node_of};

use mj_model::Word;
use mj_model::paths::Surface;

/// The context id of BOS and EOS, the start and the end of a sentence. (MeCab)
pub const BOUNDARY_ID: u16 = 0;

/// The nodes of the words of one surface at one position, the last word first.
///
/// `from` is the number of the first of these nodes, counted from 0. `next` is the number of the
/// latest earlier group with the same end, counted from 1, or 0 if there is none.
#[derive(Clone, Copy, Debug, Drop)]
pub struct SurfaceNodes {
    pub surface: Surface,
    pub from: usize,
    pub next: usize,
}

/// What is stored of a node. Its word is found through the group of nodes that it belongs to.
///
/// `total` is the forward cost: the cost of the best chain from BOS up to and including the word.
/// `before` is the number of the predecessor on that chain, counted from 1, or 0 for BOS. `right`
/// is the right id of the word, so that the word isn't read again when another one follows it.
/// `right` is a `usize` although ids have 16 bits, so that the struct has no padding to clear.
#[derive(Clone, Copy, Debug, Drop)]
pub struct Backpointer {
    pub total: i64,
    pub before: usize,
    pub right: usize,
}

impl Backpointer {
    /// Returns the backpointer of `word` after its predecessor `found`.
    pub fn after(found: &Predecessor, word: &Word) -> Backpointer
        requires { IsWithin (2 ^ 40) found.now.cost }
        ensures node { stored_node word.now result ≡ node_of word.now found.now }
        ensures right { result.right ≡ word.now.right }
    {
        Backpointer {
            total: found.cost + i64::from(word.cost),
            before: found.before,
            right: usize::from(word.right),
        }
    }

    /// Returns the number of the predecessor, counted from 0, or `None` for BOS.
    pub fn link(&self) -> Option<usize>
        ensures { result ≡ link_of self.now.before }
    {
        from_one_based(self.before)
    }
}

/// Returns `number`, which is counted from 1, as counted from 0; returns `None` for 0.
pub fn from_one_based(number: usize) -> Option<usize>
    ensures { result ≡ link_of number }
{
    number.checked_sub(1)
}

/// A node that ends at a position, or BOS: a possible predecessor of the words that start there.
///
/// `total` is the forward cost of the node, and `right` its right id. `before` is the number of the
/// node itself, because the node comes before the words that start at the position. It is counted
/// from 1, and 0 is BOS.
#[derive(Clone, Copy, Debug, Drop)]
pub struct EndNode {
    pub total: i64,
    pub before: usize,
    pub right: usize,
}

/// The best predecessor of a word, by the number of its node, counted from 1, or 0 for BOS.
///
/// `cost` is the forward cost of the predecessor plus the connection cost to the word.
#[derive(Clone, Copy, Debug, Drop)]
pub struct Predecessor {
    pub before: usize,
    pub cost: i64,
}

/// An end node by its rank in the list of end nodes of a position.
///
/// `cost` is its forward cost plus the connection cost to a following word.
#[derive(Clone, Copy, Debug, Drop)]
pub struct Candidate {
    pub rank: usize,
    pub cost: i64,
}
