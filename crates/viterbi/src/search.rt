//! The Viterbi search for the best path of a text, over any source of words.

mod backtrace;
mod best_words;
mod build;
mod end_nodes;
mod end_pruning;
mod interchangeable;
mod node;
mod nodes;
mod predecessor;
mod predecessor_cache;
mod pruning;
mod search;
mod slots;
mod source;
mod start_position;

pub use best_words::BestWords;
pub use search::{BestPath, Search};
pub use source::WordSource;
