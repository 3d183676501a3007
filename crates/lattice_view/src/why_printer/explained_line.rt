//! A line with its best path.

ghost use Rattle.std.specs.Prelude.{◌≡◌, reverse};
ghost use Rattle.mj_model.specs.Printed.{feature_of};
ghost use Rattle.mj_model.specs.ReversedChains.{last_right};
ghost use Rattle.mj_model.specs.Laws.{between};
ghost use Rattle.lattice.specs.TextOver.{SurfaceLiesIn};
ghost use Rattle.lattice_view.specs.WhyPrinter.ExplainedLines.{IsExplained, best_of_line, overlay_of_line};
ghost use Rattle.lattice_view.specs.WhyPrinter.LineExplanations.{eos_connection};

use mj_model::Word;
use mj_model::paths::Path;
use word_lookup::Dictionaries;

/// A line, its best path, and the dictionaries that segmented it.
#[derive(Clone, Copy)]
pub struct ExplainedLine<'a> {
    pub dictionaries: &'a Dictionaries<'a>,
    pub text: &'a str,
    pub path: &'a Path,
}

impl<'a> ExplainedLine<'a> {
    /// Returns the bytes of a word's surface.
    pub fn surface(&self, word: &Word) -> &'a [u8]
        requires { SurfaceLiesIn self.now.text.now word.now }
        ensures { result.now ≡ between self.now.text.now word.now.start word.now.end }
    {
        &self.text.as_bytes()[word.start..word.end]
    }

    /// Returns a word's feature.
    pub fn feature(&self, word: &Word) -> &'a str
        ensures { result.now ≡ feature_of (overlay_of_line self.now) word.now.origin }
    {
        self.dictionaries.feature(word)
    }

    /// Returns the cost of connecting the last word, or BOS, with EOS.
    pub fn eos_connection(&self) -> i64
        requires { IsExplained self.now }
        ensures { result ≡ eos_connection (overlay_of_line self.now) (best_of_line self.now) }
    {
        let right = last_right(&self.path.words);
        i64::from(self.dictionaries.cost(right, 0))
    }
}

/// Returns the right id of the last of `words`, or 0, that of BOS.
fn last_right(words: &[Word]) -> u16
    ensures { result ≡ last_right (reverse words.now) }
{
    match words.last() {
        Some(word) => word.right,
        None => 0,
    }
}
