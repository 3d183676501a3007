//! The lattice whose buffers are reused from text to text.

ghost use Rattle.std.specs.Prelude.{◌≡◌, ◌≤◌, length, IfOk, OnOk, OnErr};
ghost use Rattle.mj_model.specs.declared.limits.TheConstants.{SENTENCE_MAX};
ghost use Rattle.mj_model.specs.BestOver.{IsBestPathOver, cost_over};
ghost use Rattle.word_lookup.specs.Overlays.{overlay_of};

use crate::dictionary_text::DictionaryText;
use mj_model::paths::Path;
use std::alloc::{AllocError, Global};
use viterbi::search::{BestPath, Search};
use word_lookup::Dictionaries;

/// Finds the best path of one text after another, and reuses its buffers. Each call starts from
/// scratch, so a `Lattice` can be used again after an allocation failure.
#[derive(Debug, Drop)]
pub struct Lattice {
    alloc: Global,
    search: Search,
}

impl Lattice {
    /// Returns a lattice with empty buffers. Does not allocate.
    pub fn new(alloc: Global) -> Lattice {
        Lattice {
            alloc,
            search: Search::new(alloc),
        }
    }

    /// Returns the best path of a text of at most `SENTENCE_MAX` bytes. Its words are read from the
    /// buffers of this lattice.
    pub fn find_best<'a>(
        &'a mut self,
        line: &'a DictionaryText<'a>,
    ) -> Result<BestPath<'a, DictionaryText<'a>>, AllocError>
        requires { length line.now.text.now ≤ SENTENCE_MAX }
        ensures best { IfOk result (λ found.
            IsBestPathOver (overlay_of line.now.dictionaries.now) line.now.text.now found.words) }
        ensures total { IfOk result (λ found.
            found.total ≡ cost_over (overlay_of line.now.dictionaries.now) found.words) }
    {
        self.search.find(line)
    }

    /// Sets `path` to the best path of a text of at most `SENTENCE_MAX` bytes. The memory of `path`
    /// and of this lattice is reused.
    pub fn fill_best(
        &mut self,
        dictionaries: &Dictionaries<'_>,
        text: &str,
        path: &mut Path,
    ) -> Result<(), AllocError>
        requires { length text.now ≤ SENTENCE_MAX }
        ensures best { OnOk result
            (IsBestPathOver (overlay_of dictionaries.now) text.now path.new.words.items) }
        ensures total { OnOk result
            (path.new.total ≡ cost_over (overlay_of dictionaries.now) path.new.words.items) }

        // On an error the path is unchanged.
        ensures words_unchanged { OnErr result (path.new.words.items ≡ path.old.words.items) }
        ensures total_unchanged { OnErr result (path.new.total ≡ path.old.total) }
    {
        self.search
            .fill(&DictionaryText { dictionaries, text }, path)
    }

    /// Returns the best path of a text of at most `SENTENCE_MAX` bytes. The buffers of this lattice
    /// are reused, and the path is a new one.
    pub fn best(&mut self, dictionaries: &Dictionaries<'_>, text: &str) -> Result<Path, AllocError>
        requires { length text.now ≤ SENTENCE_MAX }
        ensures best { IfOk result
            (λ path. IsBestPathOver (overlay_of dictionaries.now) text.now path.words.items) }
        ensures total { IfOk result
            (λ path. path.total ≡ cost_over (overlay_of dictionaries.now) path.words.items) }
    {
        let mut path = Path {
            words: Vec::new(self.alloc),
            total: 0,
        };
        self.fill_best(dictionaries, text, &mut path)?;
        Ok(path)
    }
}
