//! Writes the nodes of the last line's lattice for C.

ghost use Rattle.std.specs.Prelude.{◌≡◌, ◌≤◌, length, drop, All, IsTrue};
ghost use Rattle.line_segmenter.specs.Faults.{IsLastLineError};
ghost use Rattle.capi.specs.Handles.{ItemsResult, segmenter_in};
ghost use Rattle.capi.specs.Nodes.{AreNodesWritten, StartsIn, c_node, c_nodes};
ghost use Rattle.capi.specs.Outputs.{with_front};
ghost use Rattle.mj_model.specs.Words.{is_place};
ghost use Rattle.word_lookup.specs.Overlays.{overlay_of};

use crate::handle::Handle;
use crate::items::CItem;
use crate::words::{CWord, word_for_c};
use line_segmenter::{LastWords, LatticeNode, SegmentFault, Segmenter};
use std::alloc::Global;

/// A node of the last line's lattice, in the layout of the C header.
///
/// `word.total` is the least cost of the paths from BOS up to and including the node. `through` is
/// the least cost of the complete paths through the node. `reaches_end` is 1 if there is such a
/// path. If it is 0, `through` is 0. `on_best` is 1 if the node is on the best path, otherwise 0.
#[repr(C)]
#[derive(Clone, Copy, Debug, PartialEq, Eq, Drop)]
pub struct CNode {
    pub word: CWord,
    pub through: i64,
    pub reaches_end: u8,
    pub on_best: u8,
}

/// Converts a node of the last line for C.
fn node_for_c(last: &LastWords<'_>, node: &LatticeNode, on_best: bool) -> CNode
    requires { IsTrue (is_place last.now.text.now node.now.word.start) }
    ensures { result ≡ c_node (overlay_of last.now.dictionaries) last.now.text.now
        node.now on_best }
{
    let feature = last.dictionaries.feature(&node.word);
    let category = last.category(&node.word);
    CNode {
        word: word_for_c(&node.word, category, node.total, feature.len()),
        through: node.through.unwrap_or(0),
        reaches_end: u8::from(node.through.is_some()),
        on_best: u8::from(on_best),
    }
}

/// Writes the nodes from index `from` into `out`, as many as fit. `on_best` holds for each node
/// whether it is on the best path.
fn fill_nodes(
    last: &LastWords<'_>,
    nodes: &[LatticeNode],
    on_best: &[bool],
    from: usize,
    out: &mut [CNode],
)
    requires from { from ≤ length nodes.now }
    requires marks { length on_best.now ≡ length nodes.now }
    requires starts { All (StartsIn last.now.text.now) nodes.now }
    ensures { out.new ≡ with_front (drop from (c_nodes (overlay_of last.now.dictionaries)
        last.now.text.now nodes.now on_best.now)) out.old }
{
    for i in 0..(nodes.len() - from).min(out.len()) {
        let number = from + i;
        out[i] = node_for_c(last, &nodes[number], on_best[number]);
    }
}

impl CItem for CNode {
    ghost use Rattle.capi.specs.Nodes.{AreNodesWritten};
    ghost use Rattle.line_segmenter.specs.Faults.{IsLastLineError};

    ghost written = { AreNodesWritten };

    ghost rejected = { IsLastLineError };

    fn write(
        segmenter: &Segmenter,
        first: usize,
        out: &mut [CNode],
        count: &mut usize,
    ) -> Result<(), SegmentFault> {
        let last = segmenter.last_words()?;
        let lattice = segmenter.lattice()?;
        *count = lattice.nodes.len();
        let from = first.min(lattice.nodes.len());
        fill_nodes(&last, &lattice.nodes, &lattice.on_best, from, out);
        Ok(())
    }
}

/// Writes the nodes of the last line's lattice from index `first` into `out`, as many as fit.
/// Stores the number of all nodes in `count`.
#[unsafe(no_mangle)]
pub extern "C" fn kumquatsieve_nodes(
    alloc: Global,
    segmenter: &mut Handle,
    first: usize,
    out: &mut [CNode],
    count: &mut usize,
) -> u32
    ensures { ItemsResult AreNodesWritten IsLastLineError first
        (segmenter_in segmenter.old) (segmenter_in segmenter.new)
        out.old out.new count.old count.new result }
{
    segmenter.write_items(alloc, first, out, count)
}
