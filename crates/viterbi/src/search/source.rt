//! The source of words and connection costs that the search reads.

ghost use Rattle.std.specs.Prelude.{◌≡◌, ℕ, ℤ, ◌<◌, List, length, slice_get, IsTrue, IsSome, OnOk, OnErr, Option, Some};
ghost use Rattle.mj_model.specs.declared.word.Word.{Word};
ghost use Rattle.mj_model.specs.Lists.{GrowsBy};
ghost use Rattle.mj_model.specs.Surfaces.{IsWhole, IsWordOf};
ghost use Rattle.viterbi.specs.Search.Interchangeable.{AreInterchangeable};
ghost use Rattle.viterbi.specs.Search.Connections.{AreCostsBefore, IsLeftId};
ghost use Rattle.viterbi.specs.Search.SearchedText.{AreSurfacesAt, SearchedText};

use mj_model::Word;
use mj_model::paths::Surface;
use std::alloc::AllocError;

/// A text with its words by position, grouped by surface, and the connection cost of each pair of
/// context ids.
///
/// Each search requires `CanBeSearched`. The text has at most 2^20 bytes. Each word is not empty,
/// ends at a position within the text, and is listed once, at the position where it starts. Every
/// word and EOS may follow BOS and every word.
pub trait WordSource {
    /// The words of one surface, in a form from which each can be read.
    type Words: Drop;

    /// The words of a surface, in their order.
    ghost words_in: { Self.Words → List Word };

    /// The text in contracts: its length, words, connection costs, and valid positions and id
    /// pairs.
    ghost searched_text: { Self → SearchedText };

    /// What the source keeps from position to position of one search. The search passes it on
    /// unread.
    type Cursor: Drop;

    /// The cursor belongs to this text.
    ghost is_cursor: { Self → Self.Cursor → Type 0 };

    /// The cursor keeps what was scanned of the text at this position, so that a later position
    /// does not scan it again.
    ghost is_scanned: { Self → ℕ → Self.Cursor → Type 0 };

    /// Returns the length of the text in bytes.
    fn length(&self) -> usize
        ensures { result ≡ (searched_text self.now).text_length };

    /// Returns the cursor for the start of a search.
    fn cursor(&self) -> Self::Cursor
        ensures { is_cursor self.now result };

    /// Appends the words that start at position `place` to `out`, grouped by surface.
    ///
    /// `cursor` is the cursor of this search. Positions may come in any order. On an allocation
    /// failure `out` is unchanged.
    fn surfaces_at(
        &self,
        place: usize,
        cursor: &mut Self::Cursor,
        out: &mut Vec<Surface>,
    ) -> Result<(), AllocError>
        requires place { (searched_text self.now).is_place place }
        requires cursor { is_cursor self.now cursor.old }
        ensures appended { OnOk result
            (GrowsBy (AreSurfacesAt (searched_text self.now) place) out.old.items out.new.items) }
        ensures unchanged { OnErr result (out.new.items ≡ out.old.items) }
        ensures cursor { is_cursor self.now cursor.new }
        ensures scanned { is_scanned self.now place cursor.new };

    /// Returns the words of `surface`. Whatever the words have in common is looked up once, here.
    fn words_of(&self, surface: &Surface) -> Self::Words
        requires { IsWhole (searched_text self.now).surface_words surface.now }
        ensures { words_in result ≡ (searched_text self.now).surface_words surface.now };

    /// Returns word `i` of `words`, counted from 0.
    fn word(&self, words: &Self::Words, i: u32) -> Word
        requires { i < length (words_in words.now) }
        ensures { slice_get (words_in words.now) i ≡ Some result };

    /// Returns word `i` of `surface` as a surface of its own.
    fn single_word_surface(&self, surface: &Surface, i: u32) -> Surface
        requires surface { IsWhole (searched_text self.now).surface_words surface.now }
        requires within { i < surface.now.count }
        ensures { IsWordOf (searched_text self.now).surface_words surface.now i result };

    /// Returns whether the words of two surfaces are known to be interchangeable: pairwise, they
    /// have the same context ids and the same word cost. The search then reuses the predecessors
    /// that it found for one surface for the other. The default is `false`.
    fn are_interchangeable(&self, one: &Surface, other: &Surface) -> bool
        ensures { IsTrue result
            → AreInterchangeable ((searched_text self.now).surface_words one.now)
            ((searched_text self.now).surface_words other.now) }
    {
        false
    }

    /// The connection costs before words with one left id.
    type Costs: Drop;

    /// The connection costs by the right id of the preceding word.
    ghost costs_in: { Self.Costs → ℕ → Option ℤ };

    /// Returns the connection costs before words with left id `left`. Whatever all right ids have
    /// in common is looked up once, here.
    fn costs_before(&self, left: u16) -> Self::Costs
        requires { IsLeftId (searched_text self.now) left }
        ensures { AreCostsBefore (searched_text self.now) left (costs_in result) };

    /// Returns the connection cost in `costs` of a preceding word with right id `right`.
    fn cost_after(&self, costs: &Self::Costs, right: usize) -> i16
        requires { IsSome (costs_in costs.now right) }
        ensures { costs_in costs.now right ≡ Some result };

    /// Returns the connection cost of a word with right id `right` and a following word with left
    /// id `left`.
    fn connection_cost(&self, right: u16, left: u16) -> i16
        requires { (searched_text self.now).is_pair right left }
        ensures { result ≡ (searched_text self.now).connection right left }
    {
        let costs = self.costs_before(left);
        self.cost_after(&costs, usize::from(right))
    }
}
