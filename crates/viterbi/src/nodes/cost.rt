//! Costs of chains of words.

ghost use Rattle.std.specs.Prelude.{◌≡◌, ◌+ℤ◌, ◌^◌};
ghost use Rattle.viterbi.specs.Nodes.Least.{IsLesser};
ghost use Rattle.mj_model.specs.Bounds.{IsWithin};

use crate::search::WordSource;
use mj_model::Word;

/// The context id of BOS and EOS, the start and the end of a sentence. (MeCab)
pub const BOUNDARY_ID: u16 = 0;

/// The cost of a chain of words.
#[derive(Clone, Copy, Debug, Drop)]
pub struct ChainCost {
    pub cost: i64,
}

/// Returns the cost of `chain` with `word` added at its end or at its start. `right` is the right
/// id before `word`.
pub fn with_word<S: WordSource>(source: &S, chain: &ChainCost, right: u16, word: &Word) -> ChainCost
    requires small { IsWithin (2 ^ 40) chain.now.cost }
    requires pair { (S.searched_text source.now).is_pair right word.now.left }
    ensures { result ≡ record {
      cost = (chain.now.cost
          +ℤ (S.searched_text source.now).connection right word.now.left) +ℤ word.now.cost;
    } }
{
    let connection = source.connection_cost(right, word.left);
    ChainCost {
        cost: chain.cost + i64::from(connection) + i64::from(word.cost),
    }
}

/// Returns the lesser of `least`, if there is one, and `next`. If they are equal, returns `least`.
pub fn lesser(least: Option<ChainCost>, next: ChainCost) -> ChainCost
    ensures { IsLesser least next result }
{
    let Some(least) = least else {
        return next;
    };
    if next.cost < least.cost { next } else { least }
}
