//! Surfaces whose words have the context ids and word costs of the words of the next surface. The
//! surfaces of unknown words that start at one position are examples.

ghost use Rattle.std.specs.Prelude.{◌<◌, IsTrue, length};
ghost use Rattle.viterbi.specs.Search.Interchangeable.{MatchesNext};

use crate::search::source::WordSource;
use crate::search::start_position::StartPosition;

impl StartPosition<'_> {
    /// Returns whether the words of surface `number` are interchangeable with those of the next
    /// surface.
    pub(crate) fn matches_next<S: WordSource>(&self, source: &S, number: usize) -> bool
        requires { number < length self.now.surfaces.now }
        ensures { IsTrue result
            → MatchesNext (S.searched_text source.now) self.now.surfaces.now number }
    {
        if number + 1 == self.surfaces.len() {
            return false;
        }
        let next = &self.surfaces[number + 1];
        let surface = &self.surfaces[number];
        next.count == surface.count && source.are_interchangeable(next, surface)
    }
}
