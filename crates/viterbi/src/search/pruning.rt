//! Prunes the words of a surface that can't be on a best path.
//!
//! All words of a surface end at one position. Among those with one right id, only the first with
//! the least forward cost can be on a best path, because whatever follows costs the same after each
//! of them. A surface of more than `MANY_WORDS` words (32) is replaced by surfaces of one word
//! each, if that takes less memory. So at most 32 words of a surface are left, or at most four for
//! each right id. The contract promises 64 instead of 32 (`few_words`).

ghost use Rattle.std.specs.Prelude.{◌≡◌, ◌^◌, ◌+ℤ◌, ◌<◌, OnOk, length};
ghost use Rattle.mj_model.specs.Bounds.{IsWithin};
ghost use Rattle.mj_model.specs.Lists.{GrowsBy};
ghost use Rattle.mj_model.specs.Surfaces.{IsWhole};
ghost use Rattle.viterbi.specs.Search.EndNodes.{AreLeast};
ghost use Rattle.viterbi.specs.Search.Pruning.{AreAlone, AreForwardCosts, ArePrunedOf, ArePrunedSurfaces, CanBePruned, CanBePrunedAll, HaveNumbersBelow};

use crate::search::end_pruning::EndPruning;
use crate::search::node::{EndNode, Predecessor};
use crate::search::predecessor::FindPredecessor;
use crate::search::predecessor_cache::PredecessorCache;
use crate::search::source::WordSource;
use mj_model::Word;
use mj_model::paths::Surface;
use std::alloc::{AllocError, Global};
use std::mem;

/// Surfaces with up to this many words are not pruned. It is a power of two, as `have_many_words`
/// needs. (This project's own choice.)
const MANY_WORDS: u32 = 32;

/// Prunes the surfaces of a position. Its buffers are reused from position to position.
#[derive(Debug, Drop)]
pub struct Pruning {
    predecessors: PredecessorCache,
    end_pruning: EndPruning,
    /// The words of a surface as end nodes: `total` is the forward cost of a word, and `before` its
    /// number in the surface, counted from 0.
    words: Vec<EndNode>,
    kept: Vec<Surface>,
}

impl Pruning {
    /// Returns a pruner with empty buffers. Does not allocate.
    pub fn new(alloc: Global) -> Pruning {
        Pruning {
            predecessors: PredecessorCache::new(alloc),
            end_pruning: EndPruning::new(alloc),
            words: Vec::new(alloc),
            kept: Vec::new(alloc),
        }
    }

    /// Removes words from `surfaces` that no best path needs. `ends` are the end nodes of the
    /// surfaces' position.
    #[inline(always)]
    pub fn prune<S: WordSource>(
        &mut self,
        source: &S,
        ends: &[EndNode],
        surfaces: &mut Vec<Surface>,
    ) -> Result<(), AllocError>
        requires { CanBePrunedAll (S.searched_text source.now) ends.now surfaces.old.items }
        ensures { OnOk result (ArePrunedSurfaces (S.searched_text source.now) ends.now
            surfaces.old.items surfaces.new.items) }
    {
        if !have_many_words(surfaces) {
            return Ok(());
        }
        self.prune_all(source, ends, surfaces)?;
        mem::swap(surfaces, &mut self.kept);
        Ok(())
    }

    /// Fills `kept` with the pruned surfaces.
    fn prune_all<S: WordSource>(
        &mut self,
        source: &S,
        ends: &[EndNode],
        surfaces: &[Surface],
    ) -> Result<(), AllocError>
        requires { CanBePrunedAll (S.searched_text source.now) ends.now surfaces.now }
        ensures { OnOk result (ArePrunedSurfaces (S.searched_text source.now) ends.now
            surfaces.now self.new.kept.items) }
    {
        self.predecessors.clear();
        self.kept.clear();
        for number in 0..surfaces.len() {
            self.add_pruned(source, ends, &surfaces[number])?;
        }
        Ok(())
    }

    /// Appends `surface` to `kept`, or a surface for each of its words that are kept.
    fn add_pruned<S: WordSource>(
        &mut self,
        source: &S,
        ends: &[EndNode],
        surface: &Surface,
    ) -> Result<(), AllocError>
        requires surface { IsWhole (S.searched_text source.now).surface_words surface.now }
        requires words { CanBePruned (S.searched_text source.now) ends.now
            ((S.searched_text source.now).surface_words surface.now) }
        requires predecessors { AreLeast (S.searched_text source.now).connection ends.now
            self.old.predecessors }
        ensures predecessors { OnOk result
            (AreLeast (S.searched_text source.now).connection ends.now self.new.predecessors) }
        ensures appended { OnOk result (GrowsBy (ArePrunedOf (S.searched_text source.now) ends.now
            ((S.searched_text source.now).surface_words surface.now))
            self.old.kept.items self.new.kept.items) }
    {
        if surface.count <= MANY_WORDS {
            self.kept.push(*surface)?;
            return Ok(());
        }
        list_words(
            source,
            ends,
            surface,
            &mut self.predecessors,
            &mut self.words,
        )?;
        self.end_pruning.prune_ends(&mut self.words)?;
        // A surface of one word takes almost four times the memory of a word.
        if surface.count as usize / 4 < self.words.len() {
            self.kept.push(*surface)?;
            return Ok(());
        }
        add_single_word_surfaces(source, *surface, &self.words, &mut self.kept)?;
        Ok(())
    }
}

/// Returns whether one of `surfaces` has at least `MANY_WORDS` words. If it has exactly that many,
/// `add_pruned` keeps it whole.
///
/// Few positions have such a surface, so the loop has no early exit: it only combines the bits of
/// all counts. They reach a power of two if and only if one of the counts does.
fn have_many_words(surfaces: &[Surface]) -> bool {
    let mut all = 0;
    for surface in surfaces {
        all |= surface.count;
    }
    MANY_WORDS <= all
}

/// Fills `words` with the words of `surface` as end nodes, with their forward costs.
fn list_words<S: WordSource>(
    source: &S,
    ends: &[EndNode],
    surface: &Surface,
    predecessors: &mut PredecessorCache,
    words: &mut Vec<EndNode>,
) -> Result<(), AllocError>
    requires surface { IsWhole (S.searched_text source.now).surface_words surface.now }
    requires words { CanBePruned (S.searched_text source.now) ends.now
        ((S.searched_text source.now).surface_words surface.now) }
    requires predecessors { AreLeast (S.searched_text source.now).connection ends.now
        predecessors.old }
    ensures predecessors { OnOk result
        (AreLeast (S.searched_text source.now).connection ends.now predecessors.new) }
    ensures words { OnOk result (AreForwardCosts (S.searched_text source.now).connection ends.now
        ((S.searched_text source.now).surface_words surface.now)
        surface.now.count words.new.items) }
{
    words.clear();
    let its_words = source.words_of(surface);
    for i in 0..surface.count {
        let word = source.word(&its_words, i);
        let found = predecessors.predecessor(source, ends, word.left)?;
        words.push(word_end(i, &word, &found))?;
    }
    Ok(())
}

/// Returns word `number` of a surface as an end node, after its best predecessor `found`.
fn word_end(number: u32, word: &Word, found: &Predecessor) -> EndNode
    requires { IsWithin (2 ^ 41) found.now.cost }
    ensures { result ≡ record {
      total = found.now.cost +ℤ word.now.cost;
      before = number;
      right = word.now.right;
    } }
{
    EndNode {
        total: found.cost + i64::from(word.cost),
        before: number as usize,
        right: usize::from(word.right),
    }
}

/// Appends a surface of one word to `kept` for each of `words`.
fn add_single_word_surfaces<S: WordSource>(
    source: &S,
    surface: Surface,
    words: &[EndNode],
    kept: &mut Vec<Surface>,
) -> Result<(), AllocError>
    requires surface { IsWhole (S.searched_text source.now).surface_words surface }
    requires numbers { HaveNumbersBelow surface.count words.now }
    ensures { OnOk result (GrowsBy (AreAlone (S.searched_text source.now).surface_words surface
        words.now (length words.now)) kept.old.items kept.new.items) }
{
    for rank in 0..words.len() {
        let number = words[rank].before as u32;
        kept.push(source.single_word_surface(&surface, number))?;
    }
    Ok(())
}
