//! The ids and cost of an entry.
ghost use Rattle.std.specs.Prelude.{◌≡◌, ◌+◌, ◌*◌, ◌≤◌, length};
ghost use Rattle.dict_image.specs.EntryRows.{stored_ids};

use image_format::{i16_at, u16_at};

/// The ids and the word cost of an entry, without its feature. (MeCab, dic-detail)
#[derive(Clone, Copy, Debug, PartialEq, Eq, Drop)]
pub struct IdsAndCost {
    /// Left id.
    pub left: u16,
    /// Right id.
    pub right: u16,
    /// Word cost.
    pub cost: i16,
}

/// Returns the ids and the cost of token `i` of the section `tokens`.
#[inline(always)]
pub(crate) fn ids_and_cost_at(tokens: &[u8], i: u32) -> IdsAndCost
    requires { 16 * (i + 1) ≤ length tokens.now }
    ensures { result ≡ stored_ids tokens.now i }
{
    let at = 16 * i as usize;
    IdsAndCost {
        left: u16_at(tokens, at),
        right: u16_at(tokens, at + 2),
        cost: i16_at(tokens, at + 4),
    }
}
