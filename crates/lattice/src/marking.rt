//! The lattice of a text with its best path marked.

ghost use Rattle.std.specs.Prelude.{◌≤◌, length, IfOk};
ghost use Rattle.mj_model.specs.declared.limits.TheConstants.{SENTENCE_MAX};
ghost use Rattle.mj_model.specs.BestOver.{IsBestPathOver};
ghost use Rattle.word_lookup.specs.Overlays.{overlay_of};
ghost use Rattle.lattice.specs.TextOver.{IsMarkedOver};

use crate::dictionary_text::lattice_of;
use mj_model::Word;
use std::alloc::{AllocError, Global};
use viterbi::nodes::{LatticeNode, mark_nodes_on_path};
use word_lookup::Dictionaries;

/// The nodes of the lattice of a text, by position and in the order of the words of a position, and
/// for each node whether it is on the best path.
#[derive(Debug, Drop)]
pub struct MarkedLattice {
    pub nodes: Vec<LatticeNode>,
    pub on_best: Vec<bool>,
}

/// Returns the lattice of a text of at most `SENTENCE_MAX` bytes. `best` are the words of its best
/// path.
pub fn marked_lattice(
    alloc: Global,
    dictionaries: &Dictionaries<'_>,
    text: &str,
    best: &[Word],
) -> Result<MarkedLattice, AllocError>
    requires short { length text.now ≤ SENTENCE_MAX }
    requires best { IsBestPathOver (overlay_of dictionaries.now) text.now best.now }
    ensures { IfOk result (IsMarkedOver (overlay_of dictionaries.now) text.now best.now) }
{
    let nodes = lattice_of(alloc, dictionaries, text)?;
    let on_best = mark_nodes_on_path(alloc, &nodes, best)?;
    Ok(MarkedLattice { nodes, on_best })
}
