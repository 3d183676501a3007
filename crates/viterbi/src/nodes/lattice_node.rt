//! A node of a lattice.

use mj_model::Word;

/// A word of a text that some chain of words from the start of the text reaches.
#[derive(Clone, Copy, Debug, PartialEq, Eq, Drop)]
pub struct LatticeNode {
    pub word: Word,
    /// The forward cost: the least cost of the chains from BOS up to and including this word.
    pub total: i64,
    /// The least cost of the paths of the whole text that contain this word, or `None` if no path
    /// contains it.
    pub through: Option<i64>,
}
