//! The end of a path: its last right id and its cost. Callers extend it word by word, to get the
//! cost of the path up to each word.

ghost use Rattle.std.specs.Prelude.{◌≡◌};
ghost use Rattle.line_segmenter.specs.PathEnds.{CanFollow, path_end_after};
ghost use Rattle.word_lookup.specs.Overlays.{overlay_of};

use crate::last_words::LastWords;
use mj_model::Word;
use out_format::cost_with;

/// The end of a path: the right id of its last word, and the cost of the path up to and including
/// that word. Both are 0 before the first word.
#[derive(Clone, Copy, Debug, PartialEq, Eq, Drop)]
pub struct PathEnd {
    pub right: u16,
    pub total: i64,
}

impl LastWords<'_> {
    /// Returns the end of a path that ends with `before`, extended by `word`.
    pub fn path_end_after(&self, before: PathEnd, word: &Word) -> PathEnd
        requires { CanFollow (overlay_of self.now.dictionaries) before word.now }
        ensures { result ≡ path_end_after (overlay_of self.now.dictionaries) before word.now }
    {
        PathEnd {
            right: word.right,
            total: cost_with(&self.dictionaries, before.right, before.total, word),
        }
    }
}
