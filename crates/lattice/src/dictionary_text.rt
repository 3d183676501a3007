//! A text over dictionaries: its best path and its lattice.

ghost use Rattle.std.specs.Prelude.{◌≡◌, ◌≤◌, length, slice_get, All, IfOk, IsUtf8};
ghost use Rattle.std.proofs.Props.{props};
ghost use Rattle.mj_model.specs.declared.limits.TheConstants.{SENTENCE_MAX};
ghost use Rattle.mj_model.specs.BestOver.{IsBestPathOver, cost_over};
ghost use Rattle.word_lookup.specs.Overlays.{overlay_of};
ghost use Rattle.viterbi.specs.Nodes.LatticeNodes.{AreWordsOfLattice, HasLeastThrough, HasLeastForwardCost};
ghost use Rattle.lattice.specs.TextOver.{text_over};

use crate::lattice::Lattice;
use mj_model::Word;
use mj_model::paths::{Path, Surface};
use std::alloc::{AllocError, Global};
use viterbi::nodes::{LatticeNode, lattice_nodes};
use viterbi::search::WordSource;
use word_lookup::{CostsBefore, Dictionaries, ScanCache, SurfaceWords, have_same_unknown_entries};

/// A text with the dictionaries that its words are looked up in: the source of words for the
/// search.
#[derive(Drop)]
pub struct DictionaryText<'a> {
    pub dictionaries: &'a Dictionaries<'a>,
    pub text: &'a str,
    ghost is_text: { IsUtf8 text.now } by { Prim.hlevel props },
}

impl<'a> WordSource for DictionaryText<'a> {
    ghost use Rattle.word_lookup.specs.ScanCaches.{AreScansOver, IsScannedAt};

    type Words = SurfaceWords<'a>;

    ghost words_in = { λ words. words };

    ghost searched_text = { λ s. text_over (overlay_of s.dictionaries.now) s.text.now };

    // The runs of blanks and of characters that were scanned last.
    type Cursor = ScanCache;

    ghost is_cursor = { λ s cursor.
        AreScansOver (overlay_of s.dictionaries.now) s.text.now cursor };

    ghost is_scanned = { λ s place cursor.
        IsScannedAt (overlay_of s.dictionaries.now) s.text.now place cursor };

    fn length(&self) -> usize {
        self.text.len()
    }

    fn cursor(&self) -> ScanCache {
        ScanCache::none()
    }

    #[inline(always)]
    fn surfaces_at(
        &self,
        place: usize,
        cursor: &mut ScanCache,
        out: &mut Vec<Surface>,
    ) -> Result<(), AllocError> {
        self.dictionaries.surfaces_at(self.text, place, cursor, out)
    }

    fn words_of(&self, surface: &Surface) -> SurfaceWords<'a> {
        self.dictionaries.words_of(surface)
    }

    fn word(&self, words: &SurfaceWords<'a>, i: u32) -> Word {
        words.word(i)
    }

    fn single_word_surface(&self, surface: &Surface, i: u32) -> Surface {
        self.dictionaries.single_word_surface(surface, i)
    }

    fn are_interchangeable(&self, one: &Surface, other: &Surface) -> bool {
        have_same_unknown_entries(one, other)
    }

    type Costs = CostsBefore<'a>;

    ghost costs_in = { λ costs. slice_get costs };

    fn costs_before(&self, left: u16) -> CostsBefore<'a> {
        self.dictionaries.costs_before(left)
    }

    fn cost_after(&self, costs: &CostsBefore<'a>, right: usize) -> i16 {
        costs.after(right)
    }
}

/// Returns the best path of a text of at most `SENTENCE_MAX` bytes, with a new `Lattice`.
///
/// For more than one text, use `Lattice::best`, which reuses its buffers.
pub fn best_path(
    alloc: Global,
    dictionaries: &Dictionaries<'_>,
    text: &str,
) -> Result<Path, AllocError>
    requires { length text.now ≤ SENTENCE_MAX }
    ensures best { IfOk result
        (λ path. IsBestPathOver (overlay_of dictionaries.now) text.now path.words.items) }
    ensures total { IfOk result
        (λ path. path.total ≡ cost_over (overlay_of dictionaries.now) path.words.items) }
{
    let mut lattice = Lattice::new(alloc);
    lattice.best(dictionaries, text)
}

/// Returns the nodes of the lattice of a text of at most `SENTENCE_MAX` bytes, by position and in
/// the order of the words of a position.
pub fn lattice_of(
    alloc: Global,
    dictionaries: &Dictionaries<'_>,
    text: &str,
) -> Result<Vec<LatticeNode>, AllocError>
    requires { length text.now ≤ SENTENCE_MAX }
    // The words that some chain reaches, in their order, each once.
    ensures words { IfOk result (λ nodes.
        AreWordsOfLattice (text_over (overlay_of dictionaries.now) text.now) nodes.items) }
    // The forward cost of each node.
    ensures forward_costs { IfOk result (λ nodes.
        All (HasLeastForwardCost (text_over (overlay_of dictionaries.now) text.now)) nodes.items) }
    // The least cost of the paths that contain each node, or `None` if there are none.
    ensures through { IfOk result (λ nodes.
        All (HasLeastThrough (text_over (overlay_of dictionaries.now) text.now)) nodes.items) }
{
    lattice_nodes(alloc, &DictionaryText { dictionaries, text })
}
