//! The nodes of the lattice of a text, as the search stores them.

use crate::search::node::{Backpointer, SurfaceNodes};
use std::alloc::Global;

/// The nodes of the lattice of a text, grouped by surface.
#[derive(Debug, Drop)]
pub struct Nodes {
    pub by_surface: Vec<SurfaceNodes>,
    /// The backpointers of all nodes, group after group, in the order of `by_surface`.
    pub backpointers: Vec<Backpointer>,
    /// For each position, the number of the latest group of nodes that ends there, counted from 1,
    /// or 0 if none does. The backtrace replaces these by the numbers of the best path's nodes.
    pub heads: Vec<usize>,
}

impl Nodes {
    /// Returns a lattice without nodes. Does not allocate.
    pub fn new(alloc: Global) -> Nodes {
        Nodes {
            by_surface: Vec::new(alloc),
            backpointers: Vec::new(alloc),
            heads: Vec::new(alloc),
        }
    }
}
