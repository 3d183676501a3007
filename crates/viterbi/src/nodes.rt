//! The lattice of a text as a list of nodes with their forward costs and path costs, over any
//! source of words.

mod backward_costs;
mod cost;
mod forward_costs;
mod lattice_node;
mod nodes;
mod on_path;
mod reachable_text;
mod reachable_words;

pub use lattice_node::LatticeNode;
pub use nodes::lattice_nodes;
pub use on_path::{first_word_from, mark_nodes_on_path};
