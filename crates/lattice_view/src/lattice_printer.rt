//! Prints the lattice of each line, as a table of its nodes or as a graph for Graphviz.

mod dot;
mod escapes;
mod format;
mod formatted_lattice;
pub mod laws;
mod marked_node;
mod piece;
mod printer;
mod tsv;

pub use escapes::Escape;
pub use format::{LatticeForm, LatticeFormat};
pub use piece::{Piece, append_pieces};
pub use printer::{LatticeBuffers, LatticePrinter};
pub use tsv::{TAB, cost_or_none};
