//! A node of a line's lattice, ready to be printed.

ghost use Rattle.std.specs.Prelude.{◌≡◌};
ghost use Rattle.mj_model.specs.Printed.{feature_of};
ghost use Rattle.mj_model.specs.Laws.{between};
ghost use Rattle.lattice_view.specs.LatticePrinter.MarkedNodes.{is_within, lost};
ghost use Rattle.lattice_view.specs.LatticePrinter.NodesInLine.{IsPrintable, overlay_in};

use viterbi::nodes::LatticeNode;
use word_lookup::Dictionaries;

/// A node of the lattice of a line.
#[derive(Clone, Copy)]
pub struct MarkedNode<'a> {
    pub dictionaries: &'a Dictionaries<'a>,
    pub text: &'a str,
    /// The cost of the line's best path.
    pub best: i64,
    /// The node's number in the lattice, counted from 0.
    pub number: usize,
    pub node: &'a LatticeNode,
    pub is_best: bool,
}

impl<'a> MarkedNode<'a> {
    /// Returns the bytes of the node's surface.
    pub fn surface(&self) -> &'a [u8]
        requires { IsPrintable self.now }
        ensures { result.now ≡ between self.now.text.now
            self.now.node.now.word.start self.now.node.now.word.end }
    {
        &self.text.as_bytes()[self.node.word.start..self.node.word.end]
    }

    /// Returns the node's feature.
    pub fn feature(&self) -> &'a str
        ensures { result.now ≡ feature_of (overlay_in self.now) self.now.node.now.word.origin }
    {
        self.dictionaries.feature(&self.node.word)
    }

    /// Returns by how much the node lost: the least cost of the paths through it minus the cost of
    /// the best path. `None` if no complete path has the node.
    pub fn lost(&self) -> Option<i64>
        requires { IsPrintable self.now }
        ensures { result ≡ lost self.now.best self.now.node.now }
    {
        match self.node.through {
            Some(through) => Some(through - self.best),
            None => None,
        }
    }

    /// Returns whether the node lost by at most `within`. Always true if `within` is `None`.
    pub fn is_within(&self, within: Option<i64>) -> bool
        requires { IsPrintable self.now }
        ensures { result ≡ is_within within (lost self.now.best self.now.node.now) }
    {
        match (within, self.lost()) {
            (Some(most), Some(by)) => by <= most,
            (Some(_), None) => false,
            (None, _) => true,
        }
    }
}
