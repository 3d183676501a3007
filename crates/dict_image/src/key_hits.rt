//! The iterator over the keys that are prefixes of a text, for each layout.
ghost use Rattle.std.specs.Prelude.{◌≡◌, ◌+◌, ◌*◌, ◌≤◌, length, option_map};
ghost use Rattle.std.specs.Iterator.{YieldsFirstBy};
ghost use Rattle.mj_model.specs.Reads.{walk_reads};
ghost use Rattle.mj_model.specs.Walking.{walked_to};
ghost use Rattle.dict_image.specs.KeyHits.{hits_view};

use crate::listed_hits::ListedHits;
use image_format::ImageCells;
use mj_model::cell_walk::{Hit, Prefixes as Hits};

/// An iterator over the keys that are prefixes of a text, the shortest first, with their groups.
#[derive(Drop)]
pub(crate) enum KeyHits<'a> {
    Listed(ListedHits<'a>),
    Cells(Hits<'a, ImageCells<'a>>),
}

impl<'a> KeyHits<'a> {
    /// Returns the next key.
    #[inline(always)]
    pub(crate) fn next_hit(&mut self) -> Option<Hit>
        ensures hits { YieldsFirstBy (λ hit. (hit.length, hit.value))
            (λ it. (hits_view it).hits) self.old result self.new }
        ensures cells { (hits_view self.new).cells ≡ (hits_view self.old).cells }
        ensures text { (hits_view self.new).text ≡ (hits_view self.old).text }
        ensures walked { (hits_view self.new).walked
            ≡ walked_to (hits_view self.old).text (option_map (λ hit. hit.length) result) }
    {
        match self {
            KeyHits::Listed(hits) => hits.next(),
            KeyHits::Cells(hits) => hits.next(),
        }
    }

    /// Returns the number of cells read so far.
    pub(crate) fn reads(&self) -> u64
        ensures reads { result ≡ walk_reads (hits_view self.now).cells
            (hits_view self.now).text (hits_view self.now).walked }
        ensures few { result ≤ 2 * length (hits_view self.now).text + 1 }
    {
        match self {
            KeyHits::Listed(_) => 0,
            KeyHits::Cells(hits) => hits.reads(),
        }
    }
}
