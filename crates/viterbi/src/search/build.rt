//! Builds the lattice of a text, position by position.

ghost use Rattle.std.specs.Prelude.{◌≡◌, ◌+◌, ◌<◌, ◌≤◌, OnOk};
ghost use Rattle.viterbi.specs.Search.Nodes.{reached};
ghost use Rattle.viterbi.specs.Search.SearchedText.{AreStoredIn, CanBeSearched, IsLatticeTo, IsReachedIn, stored_nodes};

use crate::search::end_nodes::collect_end_nodes;
use crate::search::end_pruning::EndPruning;
use crate::search::node::EndNode;
use crate::search::nodes::Nodes;
use crate::search::predecessor::{LINEAR_SCAN_MAX, LinearScan};
use crate::search::predecessor_cache::PredecessorCache;
use crate::search::pruning::Pruning;
use crate::search::source::WordSource;
use crate::search::start_position::StartPosition;
use mj_model::paths::Surface;
use std::alloc::{AllocError, Global};

/// Buffers that are reused from position to position and from text to text: the surfaces and end
/// nodes of a position, what prunes both, and the predecessor cache.
#[derive(Debug, Drop)]
pub struct SearchBuffers {
    pub surfaces: Vec<Surface>,
    pub ends: Vec<EndNode>,
    pub end_pruning: EndPruning,
    pub pruning: Pruning,
    pub predecessors: PredecessorCache,
}

impl SearchBuffers {
    /// Returns empty buffers. Does not allocate.
    pub fn new(alloc: Global) -> SearchBuffers {
        SearchBuffers {
            surfaces: Vec::new(alloc),
            ends: Vec::new(alloc),
            end_pruning: EndPruning::new(alloc),
            pruning: Pruning::new(alloc),
            predecessors: PredecessorCache::new(alloc),
        }
    }
}

/// Fills `nodes` with the nodes of all words that some chain reaches, except those that are pruned.
/// `buffers` are reused.
pub fn build<S: WordSource>(
    source: &S,
    nodes: &mut Nodes,
    buffers: &mut SearchBuffers,
) -> Result<(), AllocError>
    requires source { CanBeSearched (S.searched_text source.now) }
    ensures stored { OnOk result (AreStoredIn (S.searched_text source.now) nodes.new) }
    ensures lattice { OnOk result (IsLatticeTo (S.searched_text source.now)
        (stored_nodes (S.searched_text source.now) nodes.new)
        (S.searched_text source.now).text_length) }
{
    let length = source.length();
    nodes.by_surface.clear();
    nodes.backpointers.clear();
    nodes.heads.clear();
    nodes.heads.resize(length + 1, 0)?;
    let mut cursor = source.cursor();
    let mut place = next_reachable(source, nodes, 0);
    while place < length {
        add_place(source, nodes, buffers, place, &mut cursor)?;
        place = next_reachable(source, nodes, place + 1);
    }
    Ok(())
}

/// Returns the first position at `from` or later that some chain reaches, or the length of the
/// text.
fn next_reachable<S: WordSource>(source: &S, nodes: &Nodes, from: usize) -> usize
    requires source { CanBeSearched (S.searched_text source.now) }
    requires from { from ≤ (S.searched_text source.now).text_length }
    requires stored { AreStoredIn (S.searched_text source.now) nodes.now }
    requires lattice { IsLatticeTo (S.searched_text source.now)
        (stored_nodes (S.searched_text source.now) nodes.now) from }
    ensures from { from ≤ result }
    ensures within { result ≤ (S.searched_text source.now).text_length }
    ensures reached { result < (S.searched_text source.now).text_length
        → IsReachedIn nodes.now result }
    ensures lattice { IsLatticeTo (S.searched_text source.now)
        (stored_nodes (S.searched_text source.now) nodes.now) result }
{
    let length = source.length();
    let heads = nodes.heads.as_slice();
    for place in from..length {
        if is_reached(place, heads[place]) {
            return place;
        }
    }
    length
}

/// Adds the nodes of the words that start at position `place`, which some chain reaches.
///
/// `buffers` are reused, and `cursor` is the cursor of this search.
fn add_place<S: WordSource>(
    source: &S,
    nodes: &mut Nodes,
    buffers: &mut SearchBuffers,
    place: usize,
    cursor: &mut S::Cursor,
) -> Result<(), AllocError>
    requires source { CanBeSearched (S.searched_text source.now) }
    requires place { place < (S.searched_text source.now).text_length }
    requires reached { IsReachedIn nodes.old place }
    requires cursor { S.is_cursor source.now cursor.old }
    requires stored { AreStoredIn (S.searched_text source.now) nodes.old }
    requires lattice { IsLatticeTo (S.searched_text source.now)
        (stored_nodes (S.searched_text source.now) nodes.old) place }
    ensures stored { OnOk result (AreStoredIn (S.searched_text source.now) nodes.new) }
    ensures lattice { OnOk result (IsLatticeTo (S.searched_text source.now)
        (stored_nodes (S.searched_text source.now) nodes.new) (place + 1)) }
    ensures cursor { S.is_cursor source.now cursor.new }
    ensures scanned { S.is_scanned source.now place cursor.new }
{
    buffers.surfaces.clear();
    source.surfaces_at(place, cursor, &mut buffers.surfaces)?;
    collect_end_nodes(source, nodes, place, &mut buffers.ends)?;
    buffers.end_pruning.prune_ends(&mut buffers.ends)?;
    buffers
        .pruning
        .prune(source, &buffers.ends, &mut buffers.surfaces)?;
    let reached = StartPosition {
        start: place,
        surfaces: &buffers.surfaces,
        ends: &buffers.ends,
    };
    if reached.ends.len() <= LINEAR_SCAN_MAX {
        return reached.add_surfaces(source, nodes, &mut LinearScan);
    }
    buffers.predecessors.clear();
    reached.add_surfaces(source, nodes, &mut buffers.predecessors)
}

/// Returns whether some chain reaches position `place`, whose entry in `heads` is `head`.
fn is_reached(place: usize, head: usize) -> bool
    ensures { result ≡ reached place head }
{
    match head {
        0 => place == 0,
        _ => true,
    }
}
