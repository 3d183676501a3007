//! The neighbors of a word on a path.

ghost use Rattle.std.specs.Prelude.{◌≡◌, Some};

use crate::nodes::LatticeNode;
use crate::search::WordSource;

/// The context id of BOS and EOS, the start and the end of a sentence. (MeCab)
pub const BOUNDARY_ID: u16 = 0;

/// A neighbor of a word on a path of least cost, and the connection cost between the two.
#[derive(Clone, Copy, Debug, PartialEq, Eq, Drop)]
pub struct Neighbor {
    /// The number of the neighbor's node, or `None` for BOS and EOS.
    pub node: Option<usize>,
    pub connection: i16,
}

/// Returns the neighbor `number` with the connection cost from `node` to `next`.
pub fn neighbor_between<S: WordSource>(
    source: &S,
    number: usize,
    node: &LatticeNode,
    next: &LatticeNode,
) -> Neighbor
    requires { (S.searched_text source.now).is_pair node.now.word.right next.now.word.left }
    ensures node { result.node ≡ Some number }
    ensures connection { result.connection
        ≡ (S.searched_text source.now).connection node.now.word.right next.now.word.left }
{
    Neighbor {
        node: Some(number),
        connection: source.connection_cost(node.word.right, next.word.left),
    }
}
