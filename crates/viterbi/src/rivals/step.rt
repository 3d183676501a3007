//! The words of a path, each with its costs there.

use mj_model::Word;

/// A word of a path with its costs there.
#[derive(Clone, Copy, Debug, PartialEq, Eq, Drop)]
pub struct PathStep {
    pub word: Word,
    /// The connection cost between the previous word of the path, or BOS, and this word.
    pub connection: i64,
    /// The cost of the path up to and including this word.
    pub total: i64,
}
