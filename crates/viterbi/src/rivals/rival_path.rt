//! The path of a rival.

use crate::rivals::step::PathStep;

/// The greatest number of steps before the rival's word in a `RivalPath`, and after it. The limit
/// keeps the time for all rivals of a line linear in its lattice. (This project's own choice.)
pub const STEPS_MAX: usize = 32;

/// The best path that segments a text differently at a word of the best path, by the words in which
/// the two paths differ.
#[derive(Debug, Drop)]
pub struct RivalPath {
    /// The cost of the whole path, with the connection to EOS.
    pub cost: i64,
    /// Whether the words before the first step are those of the best path. Otherwise more words
    /// differ, and were left out.
    pub begins: bool,
    /// Whether the words after the last step are those of the best path. Otherwise more words
    /// differ, and were left out.
    pub ends: bool,
    /// The words that are not on the best path, in order: the rival's word, and up to `STEPS_MAX`
    /// words on each side of it.
    pub steps: Vec<PathStep>,
}
