//! The iterator over the keys that are prefixes of a text.
ghost use Rattle.std.specs.Prelude.{◌≡◌, ◌+◌, ◌*◌, ◌≤◌, length, option_map};
ghost use Rattle.std.specs.Iterator.{YieldsFirstBy, item_count};
ghost use Rattle.mj_model.specs.CellMap.{prefixes_of};
ghost use Rattle.mj_model.specs.CellRules.{AreCells};
ghost use Rattle.mj_model.specs.Reads.{walk_reads};
ghost use Rattle.mj_model.specs.Walking.{walked_to};

use crate::cell_walk::cell_read::CellRead;
use crate::cell_walk::hit::Hit;
use crate::cell_walk::walk::{Walk, next_hit, start_walk};
use std::marker::Model;

/// An iterator over the keys of a map that are prefixes of a text, shortest first.
///
/// Its view holds the remaining hits, the cells, the text, and the number of bytes already walked
/// over.
#[derive(Drop)]
pub struct Prefixes<'a, C: CellRead + Copy> {
    cells: C,
    text: &'a [u8],
    walk: Walk,
}

impl<'a, C: CellRead + Copy> Model for Prefixes<'a, C> {
    ghost use Rattle.mj_model.specs.HitsView.{HitsView};

    ghost Value = { HitsView };

    ghost use Rattle.mj_model.specs.Hits.{hits_left};
    ghost use Rattle.mj_model.specs.Walking.{IsWalking, bytes_walked};

    ghost view = { λ it. record {
      hits = hits_left (C.cells it.cells) it.text.now it.walk;
      cells = C.cells it.cells;
      text = it.text.now;
      walked = bytes_walked it.text.now it.walk;
    } };

    ghost invariant = { λ it. IsWalking (C.cells it.cells) it.text.now it.walk };
}

impl<'a, C: CellRead + Copy> Prefixes<'a, C> {
    /// Starts a walk over `text` by reading the root.
    #[inline(always)]
    pub(crate) fn new(cells: C, text: &'a [u8]) -> Prefixes<'a, C>
        requires { AreCells (C.cells cells) }
        ensures hits { result.hits ≡ prefixes_of (C.cells cells) text.now }
        ensures cells { result.cells ≡ C.cells cells }
        ensures text { result.text ≡ text.now }
        ensures walked { result.walked ≡ 0 }
    {
        let walk = start_walk(&cells, text);
        Prefixes { cells, text, walk }
    }

    /// Returns the number of cells that the walk has read so far.
    pub fn reads(&self) -> u64
        ensures reads { result ≡ walk_reads self.now.cells self.now.text self.now.walked }
        ensures few { result ≤ 2 * length self.now.text + 1 }
    {
        self.walk.reads
    }
}

impl<'a, C: CellRead + Copy> Iterator for Prefixes<'a, C> {
    type Item = Hit;

    ghost next_gives = { λ old found new.
        YieldsFirstBy (λ hit. (hit.length, hit.value)) (λ it. it.hits) old found new
        × (new.cells ≡ old.cells) × (new.text ≡ old.text)
        × (new.walked ≡ walked_to old.text (option_map (λ hit. hit.length) found)) };

    ghost remaining = { item_count (λ it. it.hits) };

    #[inline(always)]
    fn next(&mut self) -> Option<Hit> {
        next_hit(&self.cells, self.text, &mut self.walk)
    }
}
