//! Finds the best path of a text over dictionaries, its lattice, and the rivals of the words of its
//! best path: the best alternative to each. Use it to find the best paths of texts.
//! It combines `word_lookup`, which looks up words, with `viterbi`, which searches.
//!
//! Example, with the sample dictionary of `mj_model`:
//!
//! ```text
//! let path = best_path(alloc, &dictionaries, "すもももも")?;   // すもも, もも; total 152
//! let path = best_path(alloc, &dictionaries, "東京都")?;       // 東京, 都; total 2022
//! ```
//! The test `best_paths` of `crates/search_tests` (`of_lattice/dictionaries.rt`) runs it.
#![tactic(auto)]

mod dictionary_text;
mod lattice;
mod line_buffers;
mod marking;
mod rivals;

pub use dictionary_text::{DictionaryText, best_path, lattice_of};
pub use lattice::Lattice;
pub use line_buffers::LineBuffers;
pub use marking::{MarkedLattice, marked_lattice};
pub use mj_model::paths::Path;
pub use rivals::rivals_over;
pub use viterbi::nodes::{LatticeNode, mark_nodes_on_path};
pub use viterbi::search::{BestPath, WordSource};
