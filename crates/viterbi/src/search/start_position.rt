//! Adds the words that start at one position to the lattice.

ghost use Rattle.std.specs.Prelude.{◌≡◌, ◌+◌, ◌<◌, ◌++◌, ◌∷◌, [], slice_set, length, OnOk};
ghost use Rattle.viterbi.specs.Search.Interchangeable.{EndsWith, EndsWithAny, FollowsNext};
ghost use Rattle.viterbi.specs.Search.StartPositions.{AreAddedIn, AreKeptFrom};
ghost use Rattle.viterbi.specs.Search.SearchedText.{AreStoredIn, IsLatticeTo, stored_nodes, word_count};

use crate::search::node::{Backpointer, EndNode, SurfaceNodes};
use crate::search::nodes::Nodes;
use crate::search::predecessor::FindPredecessor;
use crate::search::source::WordSource;
use mj_model::paths::Surface;
use std::alloc::AllocError;

/// A position that some chain reaches, with the surfaces that start there and the end nodes that
/// are left after pruning. `start` is its byte offset.
#[derive(Clone, Copy, Drop)]
pub struct StartPosition<'a> {
    pub start: usize,
    pub surfaces: &'a [Surface],
    pub ends: &'a [EndNode],
}

impl StartPosition<'_> {
    /// Adds the nodes of all words that start here, the last word first, each with its best
    /// predecessor.
    pub fn add_surfaces<S: WordSource, F: FindPredecessor>(
        &self,
        source: &S,
        nodes: &mut Nodes,
        predecessors: &mut F,
    ) -> Result<(), AllocError>
        requires stored { AreStoredIn (S.searched_text source.now) nodes.old }
        requires none_added { AreAddedIn (S.searched_text source.now) self.now
            (length self.now.surfaces.now) nodes.old }
        requires predecessors { F.is_of predecessors.old (S.searched_text source.now).connection
            self.now.ends.now }
        ensures stored { OnOk result (AreStoredIn (S.searched_text source.now) nodes.new) }
        ensures lattice { OnOk result (IsLatticeTo (S.searched_text source.now)
            (stored_nodes (S.searched_text source.now) nodes.new) (self.now.start + 1)) }
    {
        let mut number = self.surfaces.len();
        while 0 < number {
            number -= 1;
            self.add_surface(source, nodes, number, predecessors)?;
        }
        Ok(())
    }

    /// Adds the nodes of the words of surface `number`, the last word first.
    fn add_surface<S: WordSource, F: FindPredecessor>(
        &self,
        source: &S,
        nodes: &mut Nodes,
        number: usize,
        predecessors: &mut F,
    ) -> Result<(), AllocError>
        requires number { number < length self.now.surfaces.now }
        requires previous { EndsWithAny (S.searched_text source.now)
            self.now.surfaces.now (number + 1) nodes.old.by_surface.items }
        requires stored { AreStoredIn (S.searched_text source.now) nodes.old }
        requires added { AreAddedIn (S.searched_text source.now) self.now (number + 1) nodes.old }
        requires predecessors { F.is_of predecessors.old (S.searched_text source.now).connection
            self.now.ends.now }
        ensures following { OnOk result
            (EndsWith (S.searched_text source.now) self.now.surfaces.now number
            nodes.new.by_surface.items) }
        ensures stored { OnOk result (AreStoredIn (S.searched_text source.now) nodes.new) }
        ensures added { OnOk result
            (AreAddedIn (S.searched_text source.now) self.now number nodes.new) }
        ensures predecessors { OnOk result
            (F.is_of predecessors.new (S.searched_text source.now).connection self.now.ends.now) }
    {
        let surface = self.surfaces[number];
        let surface_nodes = SurfaceNodes {
            surface,
            from: nodes.backpointers.len(),
            next: nodes.heads[surface.end],
        };
        add_surface_nodes(&mut nodes.by_surface, &mut nodes.heads, surface_nodes)?;
        self.add_words(
            source,
            &nodes.by_surface,
            &mut nodes.backpointers,
            number,
            predecessors,
        )?;
        Ok(())
    }

    /// Adds the nodes of the words of surface `number`, whose group is the last of `by_surface`.
    /// The last word is first, each with its best predecessor.
    ///
    /// If the words are interchangeable with those of the next surface, their backpointers are
    /// copied.
    fn add_words<S: WordSource, F: FindPredecessor>(
        &self,
        source: &S,
        by_surface: &[SurfaceNodes],
        backpointers: &mut Vec<Backpointer>,
        number: usize,
        predecessors: &mut F,
    ) -> Result<(), AllocError>
        requires number { number < length self.now.surfaces.now }
        requires last { EndsWith (S.searched_text source.now)
            self.now.surfaces.now number by_surface.now }
        requires follows { FollowsNext (S.searched_text source.now) self.now.surfaces.now number
            by_surface.now }
        requires added { AreKeptFrom (S.searched_text source.now) self.now number
            (word_count self.now.surfaces.now number) by_surface.now backpointers.old.items }
        requires predecessors { F.is_of predecessors.old (S.searched_text source.now).connection
            self.now.ends.now }
        ensures added { OnOk result (AreKeptFrom (S.searched_text source.now) self.now number
            0 by_surface.now backpointers.new.items) }
        ensures predecessors { OnOk result
            (F.is_of predecessors.new (S.searched_text source.now).connection self.now.ends.now) }
    {
        let surface = &self.surfaces[number];
        if self.matches_next(source, number) {
            let from = backpointers.len() - surface.count as usize;
            backpointers.extend_from_within(from..)?;
            return Ok(());
        }
        let words = source.words_of(surface);
        let mut i = surface.count;
        while 0 < i {
            i -= 1;
            let word = source.word(&words, i);
            let found = predecessors.predecessor(source, self.ends, word.left)?;
            backpointers.push(Backpointer::after(&found, &word))?;
        }
        Ok(())
    }
}

/// Adds a group of nodes and makes it the head of its end position.
fn add_surface_nodes(
    by_surface: &mut Vec<SurfaceNodes>,
    heads: &mut [usize],
    surface_nodes: SurfaceNodes,
) -> Result<(), AllocError>
    requires end { surface_nodes.surface.end < length heads.old }
    ensures by_surface { OnOk result
        (by_surface.new.items ≡ by_surface.old.items ++ surface_nodes ∷ []) }
    ensures heads { OnOk result
        (heads.new ≡ slice_set heads.old surface_nodes.surface.end (length by_surface.new.items)) }
{
    let end = surface_nodes.surface.end;
    by_surface.push(surface_nodes)?;
    heads[end] = by_surface.len();
    Ok(())
}
