//! The iterator over entries with consecutive numbers.
ghost use Rattle.std.specs.Prelude.{◌≡◌, ◌+◌, ◌*◌, ◌≤◌, [], suc, length, map};
ghost use Rattle.std.specs.Iterator.{YieldsFirstBy, item_count};
ghost use Rattle.std.specs.List.{range_with_len};
ghost use Rattle.image_format.specs.ImageMeaning.{tokens_in};
ghost use Rattle.image_format.specs.ImageSections.{index_at};
ghost use Rattle.dict_image.specs.Views.{token_view};
ghost use Rattle.dict_image.specs.LookupState.{HoldTokens};
ghost use Rattle.dict_image.specs.Tokens.{tokens_from};

use crate::entry_range::EntryRange;
use crate::entry_ref::{EntryRef, token_at};
use image_format::u32_at;
use std::marker::Model;

/// An iterator over entries with consecutive numbers, in the order of their numbers.
#[derive(Drop)]
pub struct Entries<'a> {
    tokens: &'a [u8],
    features: &'a [u8],
    next: u32,
    end: u32,
}

impl<'a> Model for Entries<'a> {
    ghost use Rattle.std.specs.Prelude.{◌≤◌, List};
    ghost use Rattle.mj_model.specs.Tables.{Token};
    ghost use Rattle.dict_image.specs.LookupState.{HoldTokens};
    ghost use Rattle.dict_image.specs.Tokens.{tokens_from};

    ghost Value = { List Token };

    ghost view = { λ it. tokens_from it.tokens.now it.features.now it.next it.end };

    ghost invariant = { λ it. record {
      order : it.next ≤ it.end;
      hold : HoldTokens it.tokens.now it.features.now it.end;
    } };
}

impl<'a> Entries<'a> {
    /// Returns an iterator over no entries.
    pub(crate) fn none() -> Entries<'a>
        ensures { result ≡ [] }
    {
        Entries {
            tokens: &[],
            features: &[],
            next: 0,
            end: 0,
        }
    }

    /// Returns the entries of list `i` of `index`, the section of groups or of unknown tokens.
    /// `tokens` and `features` are the sections of tokens and of features.
    #[inline(always)]
    pub(crate) fn of_list(
        index: &[u8],
        tokens: &'a [u8],
        features: &'a [u8],
        i: usize,
    ) -> Entries<'a>
        requires index { 4 * (i + 2) ≤ length index.now }
        requires order { index_at index.now i ≤ index_at index.now (suc i) }
        requires hold { HoldTokens tokens.now features.now (index_at index.now (suc i)) }
        ensures { result ≡ tokens_in tokens.now features.now index.now i }
    {
        let at = 4 * i;
        Entries {
            tokens,
            features,
            next: u32_at(index, at),
            end: u32_at(index, at + 4),
        }
    }

    /// Returns the numbers of the remaining entries.
    #[inline(always)]
    pub fn row(&self) -> EntryRange
        ensures { map (λ t. t.number) self.now ≡ range_with_len result.first result.count }
    {
        EntryRange {
            first: self.next,
            count: self.end - self.next,
        }
    }
}

impl<'a> Iterator for Entries<'a> {
    type Item = EntryRef<'a>;

    ghost next_gives = { YieldsFirstBy token_view (λ rest. rest) };

    ghost remaining = { item_count (λ rest. rest) };

    fn next(&mut self) -> Option<EntryRef<'a>> {
        next_token(self.tokens, self.features, &mut self.next, self.end)
    }
}

/// Returns the entry of the next token and advances `next`. Returns None at `end`.
fn next_token<'a>(
    tokens: &'a [u8],
    features: &'a [u8],
    next: &mut u32,
    end: u32,
) -> Option<EntryRef<'a>>
    requires order { next.old ≤ end }
    requires hold { HoldTokens tokens.now features.now end }
    ensures order { next.new ≤ end }
    ensures entries { YieldsFirstBy token_view (λ n. tokens_from tokens.now features.now n end)
        next.old result next.new }
{
    let i = *next;
    if i == end {
        return None;
    }
    *next += 1;
    Some(token_at(tokens, features, i))
}
