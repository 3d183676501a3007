//! Forms of printed lattices.

/// The form of a printed lattice.
#[derive(Clone, Copy, Debug, PartialEq, Eq, Drop)]
pub enum LatticeForm {
    /// A table with a row for each node and tabs between columns
    Tsv,
    /// A graph in Graphviz's language DOT
    Dot,
}

/// A form, and the nodes that are left out.
#[derive(Clone, Copy, Debug, PartialEq, Eq, Drop)]
pub struct LatticeFormat {
    pub form: LatticeForm,
    /// The most that a node may have lost, or `None` for all nodes. With a limit, nodes on no
    /// complete path are left out too.
    pub within: Option<i64>,
}
