//! Words that replace another word in a segmentation.

ghost use Rattle.std.specs.Prelude.{◌≡◌, ◌↔◌, true};
ghost use Rattle.viterbi.specs.Rivals.Crossing.{Covers, HasBoundariesOf, Replaces};

use mj_model::Word;

/// Returns whether `word`, with the blanks before it, contains position `place`.
fn covers(word: &Word, place: usize) -> bool
    ensures { (result ≡ true) ↔ Covers word.now place }
{
    word.place <= place && place < word.end
}

/// Returns whether two words, with the blanks before them, start and end at the same positions.
fn has_boundaries_of(word: &Word, other: &Word) -> bool
    ensures { (result ≡ true) ↔ HasBoundariesOf word.now other.now }
{
    word.place == other.place && word.end == other.end
}

/// Returns whether `word` contains the position of `other` and has other boundaries. No path
/// contains both words.
pub fn replaces(word: &Word, other: &Word) -> bool
    ensures { (result ≡ true) ↔ Replaces word.now other.now }
{
    covers(word, other.place) && !has_boundaries_of(word, other)
}
