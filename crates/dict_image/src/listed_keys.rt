//! Listed keys, looked up in the bytes of the image.
ghost use Rattle.std.specs.Prelude.{◌≡◌, ℕ, ◌^◌, ◌<◌, ◌≤◌, length};
ghost use Rattle.image_format.specs.OlderSections.{StartWithKey, IsListedKey, first_key_in, listed_key, listed_number};
ghost use Rattle.dict_image.specs.Validation.KeyPlaces.{AreStarts};
ghost use Rattle.dict_image.specs.KeyLists.{IsFirstNotBelow};

use image_format::u16_at;
use std::marker::Model;

/// Keys in rising byte order, each after its length in 2 bytes. `starts` are the byte offsets of
/// these lengths.
#[derive(Drop)]
pub(crate) struct ListedKeys<'a> {
    bytes: &'a [u8],
    starts: &'a [usize],
}

impl<'a> Model for ListedKeys<'a> {
    ghost use Rattle.std.specs.Prelude.{◌≤◌, ◌^◌, length};
    ghost use Rattle.dict_image.specs.Validation.KeyPlaces.{AreStarts};
    ghost use Rattle.dict_image.specs.KeyLists.{KeyList};

    ghost Value = { KeyList };

    ghost view = { λ list. record { bytes = list.bytes.now; count = length list.starts.now } };

    ghost invariant = { λ list. AreStarts (length list.starts.now) list.bytes.now list.starts.now
        × (length list.starts.now ≤ 2 ^ 32) };
}

impl<'a> ListedKeys<'a> {
    /// Returns the keys of the section `bytes`, whose lengths are stored at the offsets `starts`.
    pub(crate) fn new(bytes: &'a [u8], starts: &'a [usize]) -> ListedKeys<'a>
        requires starts { AreStarts (length starts.now) bytes.now starts.now }
        requires few { length starts.now ≤ 2 ^ 32 }
        ensures { result ≡ record { bytes = bytes.now; count = length starts.now } }
    {
        ListedKeys { bytes, starts }
    }

    /// Returns the number of keys. Its contract also states that each key is greater than the one
    /// before it.
    pub(crate) fn len(&self) -> usize
        ensures count { result ≡ self.now.count }
        ensures few { result ≤ 2 ^ 32 }
        ensures listed { (i : ℕ) → i < self.now.count → IsListedKey self.now.bytes i }
    {
        self.starts.len()
    }

    /// Returns key `i`.
    pub(crate) fn key(&self, i: usize) -> &'a [u8]
        requires { i < self.now.count }
        ensures { result.now ≡ listed_key self.now.bytes i }
    {
        first_key(&self.bytes[self.starts[i]..])
    }

    /// Returns the number of the first key that is not less than `text`. Runs a binary search.
    pub(crate) fn first_not_below(&self, text: &[u8]) -> usize
        ensures { IsFirstNotBelow self.now text.now result }
    {
        let mut low = 0;
        let mut high = self.starts.len();
        while low < high {
            let middle = low + (high - low) / 2;
            if self.key(middle).cmp(text).is_lt() {
                low = middle + 1;
            } else {
                high = middle;
            }
        }
        low
    }

    /// Returns the number of a key, if it is there.
    pub(crate) fn number_of(&self, key: &[u8]) -> Option<u32>
        ensures { result ≡ listed_number self.now.count self.now.bytes key.now }
    {
        let at = self.first_not_below(key);
        if at < self.starts.len() && self.key(at) == key {
            Some(at as u32)
        } else {
            None
        }
    }
}

/// Returns the key at the start of the bytes, after its length.
fn first_key(bytes: &[u8]) -> &[u8]
    requires { StartWithKey bytes.now }
    ensures { result.now ≡ first_key_in bytes.now }
{
    let length = u16_at(bytes, 0) as usize;
    &bytes[2..2 + length]
}
