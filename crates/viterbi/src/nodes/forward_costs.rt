//! The forward costs of words that follow BOS.

ghost use Rattle.viterbi.specs.Nodes.ForwardCosts.{IsFirstForwardCost};

use crate::nodes::cost::{BOUNDARY_ID, ChainCost, with_word};
use crate::search::WordSource;
use mj_model::Word;

/// Returns the forward cost of `word` after BOS, or `None` if the word doesn't start at position 0.
pub fn first_forward_cost<S: WordSource>(source: &S, word: &Word) -> Option<ChainCost>
    requires { (S.searched_text source.now).is_pair 0 word.now.left }
    ensures { IsFirstForwardCost (S.searched_text source.now) word.now result }
{
    if word.place != 0 {
        return None;
    }
    let bos = ChainCost { cost: 0 };
    Some(with_word(source, &bos, BOUNDARY_ID, word))
}
