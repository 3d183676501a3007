//! The iterator over the listed keys that are prefixes of a text.
ghost use Rattle.std.specs.Prelude.{◌≡◌, option_map};
ghost use Rattle.std.specs.Iterator.{YieldsFirstBy, item_count};
ghost use Rattle.mj_model.specs.Walking.{walked_to};
ghost use Rattle.dict_image.specs.ListedHits.{IsKeyRange, listed_hits_after};

use crate::key_range::KeyRange;
use crate::listed_keys::ListedKeys;
use mj_model::cell_walk::Hit;
use std::marker::Model;

/// An iterator over the listed keys that are prefixes of a text, the shortest first. It keeps the
/// range of keys that share the bytes walked so far, so that one more byte costs two binary
/// searches for that byte alone.
#[derive(Drop)]
pub(crate) struct ListedHits<'a> {
    keys: ListedKeys<'a>,
    text: &'a [u8],
    started: KeyRange,
}

impl<'a> Model for ListedHits<'a> {
    ghost use Rattle.dict_image.specs.ListedHits.{IsKeyRange, ListedHitsView, listed_hits_after};

    ghost Value = { ListedHitsView };

    ghost view = { λ it. record {
      hits = listed_hits_after it.keys it.text.now it.started.length;
      text = it.text.now;
      walked = it.started.length;
    } };

    ghost invariant = { λ it. IsKeyRange it.keys it.text.now it.started };
}

impl<'a> ListedKeys<'a> {
    /// Returns the keys that are prefixes of `text`.
    pub(crate) fn hits(self, text: &'a [u8]) -> ListedHits<'a>
        ensures hits { result.hits ≡ listed_hits_after self.entry text.now 0 }
        ensures text { result.text ≡ text.now }
        ensures walked { result.walked ≡ 0 }
    {
        let started = self.all(text);
        ListedHits {
            keys: self,
            text,
            started,
        }
    }
}

impl<'a> Iterator for ListedHits<'a> {
    type Item = Hit;

    ghost next_gives = { λ old found new.
        YieldsFirstBy (λ hit. (hit.length, hit.value)) (λ it. it.hits) old found new
        × (new.text ≡ old.text)
        × (new.walked ≡ walked_to old.text (option_map (λ hit. hit.length) found)) };

    ghost remaining = { item_count (λ it. it.hits) };

    fn next(&mut self) -> Option<Hit> {
        next_listed(&self.keys, self.text, &mut self.started)
    }
}

/// Returns the next listed key that is a prefix of `text`, and narrows `started`.
fn next_listed(keys: &ListedKeys<'_>, text: &[u8], started: &mut KeyRange) -> Option<Hit>
    requires key_range { IsKeyRange keys.now text.now started.old }
    ensures key_range { IsKeyRange keys.now text.now started.new }
    ensures hits { YieldsFirstBy (λ hit. (hit.length, hit.value))
        (λ b. listed_hits_after keys.now text.now b.length) started.old result started.new }
    ensures walked { started.new.length
        ≡ walked_to text.now (option_map (λ hit. hit.length) result) }
{
    while started.length < text.len() {
        *started = keys.narrow(*started, text);
        if let Some(value) = keys.whole(*started, text) {
            let length = started.length;
            return Some(Hit { length, value });
        }
        if started.low == started.high {
            started.length = text.len();
        }
    }
    None
}
