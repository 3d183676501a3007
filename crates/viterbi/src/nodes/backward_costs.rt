//! Backward costs: the least cost from a word to EOS.

ghost use Rattle.viterbi.specs.Nodes.Assembled.{IsSmallIfSome};
ghost use Rattle.viterbi.specs.Nodes.BackwardCosts.{IsEosCost, IsLastEnd, IsLeastWith};

use crate::nodes::cost::{BOUNDARY_ID, ChainCost, lesser, with_word};
use crate::search::WordSource;
use mj_model::Word;

/// Returns the greatest end of `words`, or 0 if there are none.
pub fn last_end_position(words: &[Word]) -> usize
    ensures { IsLastEnd words.now result }
{
    let mut last = 0;
    for word in words {
        if last < word.end {
            last = word.end;
        }
    }
    last
}

/// Returns the connection cost from `word` to EOS if the word ends at `last`, the end of every
/// path.
pub fn eos_cost<S: WordSource>(source: &S, word: &Word, last: usize) -> Option<ChainCost>
    requires { (S.searched_text source.now).is_pair word.now.right 0 }
    ensures { IsEosCost (S.searched_text source.now) last word.now result }
{
    if word.end != last {
        return None;
    }
    Some(ChainCost {
        cost: i64::from(source.connection_cost(word.right, BOUNDARY_ID)),
    })
}

/// Returns the lesser of `least` and the cost of continuing with `word` after right id `right`.
///
/// `backward` is the backward cost of `word`, or `None` if no path continues after it.
pub fn least_with<S: WordSource>(
    source: &S,
    least: Option<ChainCost>,
    backward: &Option<ChainCost>,
    right: u16,
    word: &Word,
) -> Option<ChainCost>
    requires small { IsSmallIfSome backward.now }
    requires pair { (S.searched_text source.now).is_pair right word.now.left }
    ensures { IsLeastWith (S.searched_text source.now) least backward.now right word.now result }
{
    match backward {
        Some(backward) => Some(lesser(least, with_word(source, backward, right, word))),
        None => least,
    }
}
