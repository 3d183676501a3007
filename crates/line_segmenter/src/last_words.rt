//! The last words, borrowed with their text and dictionaries.

ghost use Rattle.std.specs.Prelude.{◌≡◌, IsTrue};
ghost use Rattle.line_segmenter.specs.Segmenters.{first_category_at};
ghost use Rattle.mj_model.specs.Words.{is_place};
ghost use Rattle.word_lookup.specs.Overlays.{overlay_of};

use crate::categories::category_at;
use mj_model::Word;
use word_lookup::Dictionaries;

/// The words that were segmented last, with their text and their dictionaries.
#[derive(Clone, Copy)]
pub struct LastWords<'a> {
    pub dictionaries: Dictionaries<'a>,
    pub text: &'a str,
    pub words: &'a [Word],
}

impl<'a> LastWords<'a> {
    /// Returns the number of the first category of the first character of `word` (MeCab's
    /// `char_type`). Categories are numbered from 0 in the order of `char.def`.
    pub fn category(&self, word: &Word) -> u8
        requires { IsTrue (is_place self.now.text.now word.now.start) }
        ensures { result ≡ first_category_at (overlay_of self.now.dictionaries)
            self.now.text.now word.now.start }
    {
        category_at(&self.dictionaries, self.text, word.start)
    }
}
