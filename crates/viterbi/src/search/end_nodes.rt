//! The end nodes of a position.

ghost use Rattle.std.specs.Prelude.{◌≡◌, ◌+◌, ◌<◌, ◌≤◌, ◌^◌, Contains, OnOk};
ghost use Rattle.viterbi.specs.Search.EndNodes.{AreEndNodes, AreEndNodesOf};
ghost use Rattle.viterbi.specs.Search.Nodes.{AreSurfaceNodes};
ghost use Rattle.viterbi.specs.Search.SearchedText.{AreAllStored, AreStoredIn, AreRightsStored, stored_nodes, nodes_in};

use crate::search::node::{BOUNDARY_ID, Backpointer, EndNode, SurfaceNodes, from_one_based};
use crate::search::nodes::Nodes;
use crate::search::source::WordSource;
use std::alloc::AllocError;

/// BOS as an end node: the end of the empty chain.
const BOS_NODE: EndNode = EndNode {
    total: 0,
    before: 0,
    right: BOUNDARY_ID as usize,
};

/// Fills `ends` with the end nodes of position `place`, the latest node first. If costs are equal,
/// the one that comes first in `ends` is preferred.
#[inline(always)]
pub fn collect_end_nodes<S: WordSource>(
    source: &S,
    nodes: &Nodes,
    place: usize,
    ends: &mut Vec<EndNode>,
) -> Result<(), AllocError>
    requires stored { AreStoredIn (S.searched_text source.now) nodes.now }
    requires place { place ≤ (S.searched_text source.now).text_length }
    ensures { OnOk result
        (AreEndNodes (stored_nodes (S.searched_text source.now) nodes.now) place ends.new.items) }
{
    ends.clear();
    if place == 0 {
        ends.push(BOS_NODE)?;
        return Ok(());
    }
    let by_surface = nodes.by_surface.as_slice();
    let backpointers = nodes.backpointers.as_slice();
    let mut link = from_one_based(nodes.heads[place]);
    while let Some(i) = link {
        let surface_nodes = &by_surface[i];
        append_end_nodes(source, by_surface, backpointers, surface_nodes, ends)?;
        link = from_one_based(surface_nodes.next);
    }
    Ok(())
}

/// Appends the nodes of one group, the latest node first, so that its words are in their order.
fn append_end_nodes<S: WordSource>(
    source: &S,
    by_surface: &[SurfaceNodes],
    backpointers: &[Backpointer],
    surface_nodes: &SurfaceNodes,
    ends: &mut Vec<EndNode>,
) -> Result<(), AllocError>
    requires by_surface { AreSurfaceNodes (S.searched_text source.now).surface_words
        by_surface.now }
    requires all { AreAllStored (S.searched_text source.now) by_surface.now backpointers.now }
    requires rights { AreRightsStored (S.searched_text source.now) by_surface.now backpointers.now }
    requires surface_nodes { Contains by_surface.now surface_nodes.now }
    requires later { AreEndNodesOf
        (nodes_in (S.searched_text source.now) by_surface.now backpointers.now)
        surface_nodes.now.surface.end (surface_nodes.now.from + surface_nodes.now.surface.count)
        ends.old.items }
    ensures { OnOk result
        (AreEndNodesOf (nodes_in (S.searched_text source.now) by_surface.now backpointers.now)
        surface_nodes.now.surface.end surface_nodes.now.from ends.new.items) }
{
    let from = surface_nodes.from;
    let mut number = from + surface_nodes.surface.count as usize;
    while from < number {
        number -= 1;
        ends.push(node_end_node(number, &backpointers[number]))?;
    }
    Ok(())
}

/// Returns node `number` as an end node.
fn node_end_node(number: usize, back: &Backpointer) -> EndNode
    requires { number + 1 < 2 ^ 64 }
    ensures { result
        ≡ record { total = back.now.total; before = number + 1; right = back.now.right } }
{
    EndNode {
        total: back.total,
        before: number + 1,
        right: back.right,
    }
}
