//! The words of a text that some chain reaches.

ghost use Rattle.std.specs.Prelude.{◌≡◌, ◌+◌, ◌++◌, ◌<◌, length, IfOk, OnOk};
ghost use Rattle.mj_model.specs.Surfaces.{IsWhole};
ghost use Rattle.viterbi.specs.Search.SearchedText.{AreSurfacesAt, CanBeSearched};
ghost use Rattle.viterbi.specs.Nodes.ReachableWords.{AreIndexed, AreMarked, AreReachedIn, IsFirstFrom, IsReachedTo};

use crate::search::WordSource;
use mj_model::Word;
use mj_model::paths::Surface;
use std::alloc::{AllocError, Global};

/// The words of a text that some chain reaches, by position and in the order of the words of a
/// position.
#[derive(Debug, Drop)]
pub struct ReachableWords {
    pub words: Vec<Word>,
    /// For each position before the end of the text, the number of the first word at it or after
    /// it.
    pub firsts: Vec<usize>,
}

impl ReachableWords {
    /// Returns the number of the first word at position `place` or later, or the number of words if
    /// there is none.
    pub fn first(&self, place: usize) -> usize
        requires { AreIndexed self.now.words.items self.now.firsts.items }
        ensures { IsFirstFrom self.now.words.items place result }
    {
        match self.firsts.get(place) {
            Some(first) => *first,
            None => self.words.len(),
        }
    }

    /// Adds the words of position `place` if `marks[place]` is set: some chain reaches it. `cursor`
    /// is the cursor of this search, and `surfaces` is a buffer.
    fn add_place<S: WordSource>(
        &mut self,
        source: &S,
        place: usize,
        cursor: &mut S::Cursor,
        surfaces: &mut Vec<Surface>,
        marks: &mut [bool],
    ) -> Result<(), AllocError>
        requires source { CanBeSearched (S.searched_text source.now) }
        requires place { place < (S.searched_text source.now).text_length }
        requires cursor { S.is_cursor source.now cursor.old }
        requires reached { IsReachedTo (S.searched_text source.now) place
            self.old.words.items self.old.firsts.items marks.old }
        ensures cursor { S.is_cursor source.now cursor.new }
        ensures reached { OnOk result (IsReachedTo (S.searched_text source.now) (place + 1)
            self.new.words.items self.new.firsts.items marks.new) }
    {
        self.firsts.push(self.words.len())?;
        let is_reachable = marks[place];
        if !is_reachable {
            return Ok(());
        }
        surfaces.clear();
        source.surfaces_at(place, cursor, surfaces)?;
        add_surfaces(source, place, surfaces, &mut self.words, marks)?;
        Ok(())
    }
}

/// Returns the words of a text that some chain reaches.
pub fn reachable_words<S: WordSource>(
    alloc: Global,
    source: &S,
) -> Result<ReachableWords, AllocError>
    requires { CanBeSearched (S.searched_text source.now) }
    ensures { IfOk result (AreReachedIn (S.searched_text source.now)) }
{
    let length = source.length();
    let mut reached = ReachableWords {
        words: Vec::new(alloc),
        firsts: Vec::new(alloc),
    };
    let mut reachable = Vec::new(alloc);
    reachable.resize(length + 1, false)?;
    let marks = reachable.as_mut_slice();
    marks[0] = true;
    let mut surfaces = Vec::new(alloc);
    let mut cursor = source.cursor();
    for place in 0..length {
        reached.add_place(source, place, &mut cursor, &mut surfaces, marks)?;
    }
    Ok(reached)
}

/// Appends the words of `surfaces`, which start at position `place`, and marks the positions where
/// they end.
fn add_surfaces<S: WordSource>(
    source: &S,
    place: usize,
    surfaces: &[Surface],
    words: &mut Vec<Word>,
    marks: &mut [bool],
) -> Result<(), AllocError>
    requires source { CanBeSearched (S.searched_text source.now) }
    requires surfaces { AreSurfacesAt (S.searched_text source.now) place surfaces.now }
    requires long { length marks.old ≡ (S.searched_text source.now).text_length + 1 }
    requires marks { AreMarked words.old.items marks.old }
    ensures words { OnOk result
        (words.new.items ≡ words.old.items ++ (S.searched_text source.now).words place) }
    ensures marks { OnOk result (AreMarked words.new.items marks.new) }
{
    for number in 0..surfaces.len() {
        let surface = surfaces[number];
        add_words(source, &surface, words)?;
        marks[surface.end] = true;
    }
    Ok(())
}

/// Appends the words of a surface.
fn add_words<S: WordSource>(
    source: &S,
    surface: &Surface,
    words: &mut Vec<Word>,
) -> Result<(), AllocError>
    requires { IsWhole (S.searched_text source.now).surface_words surface.now }
    ensures { OnOk result (words.new.items
        ≡ words.old.items ++ (S.searched_text source.now).surface_words surface.now) }
{
    let its_words = source.words_of(surface);
    for i in 0..surface.count {
        words.push(source.word(&its_words, i))?;
    }
    Ok(())
}
