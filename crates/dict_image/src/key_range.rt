//! The listed keys that share a prefix with a text, narrowed byte by byte.
ghost use Rattle.std.specs.Prelude.{◌≡◌, ◌+◌, ◌<◌, ◌≤◌, length, take, slice_index};
ghost use Rattle.mj_model.specs.CellMap.{codes_of};
ghost use Rattle.image_format.specs.OlderSections.{listed_number};
ghost use Rattle.dict_image.specs.ListedHits.{CodesRise, IsKeyRange, IsFirstFrom};

use crate::listed_keys::ListedKeys;

/// The keys that start with the first `length` bytes of a text: numbers `low` to before `high`.
#[derive(Clone, Copy, Drop)]
pub(crate) struct KeyRange {
    pub length: usize,
    pub low: usize,
    pub high: usize,
}

impl<'a> ListedKeys<'a> {
    /// Returns all keys, which start with the empty prefix of `text`.
    pub(crate) fn all(&self, text: &[u8]) -> KeyRange
        ensures key_range { IsKeyRange self.now text.now result }
        ensures none { result.length ≡ 0 }
    {
        // Only the contract uses `text`.
        let _ = text;
        KeyRange {
            length: 0,
            low: 0,
            high: self.len(),
        }
    }

    /// Returns the keys among `started` whose next byte is that of `text`. Runs two binary searches
    /// for this byte.
    pub(crate) fn narrow(&self, started: KeyRange, text: &[u8]) -> KeyRange
        requires key_range { IsKeyRange self.now text.now started }
        requires more { started.length < length text.now }
        ensures key_range { IsKeyRange self.now text.now result }
        ensures longer { result.length ≡ started.length + 1 }
    {
        // For the proof: the contract of `len` states that the keys are in rising order.
        let _ = self.len();
        let place = started.length;
        let code = text[place] as usize + 1;
        let low = self.first_from(started.low, started.high, place, code);
        let high = self.first_from(low, started.high, place, code + 1);
        KeyRange {
            length: place + 1,
            low,
            high,
        }
    }

    /// Returns the number of the key that equals the prefix itself, if there is one. It sorts
    /// before longer keys.
    pub(crate) fn whole(&self, started: KeyRange, text: &[u8]) -> Option<u32>
        requires { IsKeyRange self.now text.now started }
        ensures { result
            ≡ listed_number self.now.count self.now.bytes (take started.length text.now) }
    {
        // `len` is called for its contract, which the proof uses. Only the contract uses `text`.
        let (_, _) = (self.len(), text.len());
        if started.low < started.high && self.key(started.low).len() == started.length {
            Some(started.low as u32)
        } else {
            None
        }
    }

    /// Returns the first of the keys from `low` to before `high` whose code at `place` is at least
    /// `code`. Runs a binary search.
    fn first_from(&self, low: usize, high: usize, place: usize, code: usize) -> usize
        requires order { low ≤ high }
        requires within { high ≤ self.now.count }
        requires rise { CodesRise self.now place low high }
        ensures { IsFirstFrom self.now place code low high result }
    {
        let mut low = low;
        let mut high = high;
        while low < high {
            let middle = low + (high - low) / 2;
            if code_at(self.key(middle), place) < code {
                low = middle + 1;
            } else {
                high = middle;
            }
        }
        low
    }
}

/// Returns the code of a key at a byte offset: the byte plus 1, or 0 from the key's end on.
fn code_at(key: &[u8], place: usize) -> usize
    ensures code { result ≡ slice_index (codes_of key.now) place }
    ensures bounded { result ≤ 256 }
{
    match key.get(place) {
        Some(byte) => *byte as usize + 1,
        None => 0,
    }
}
