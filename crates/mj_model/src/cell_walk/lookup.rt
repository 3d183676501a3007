//! Lookups in any cells: the value of a key, and the keys that are prefixes of a text.
ghost use Rattle.std.specs.Prelude.{◌≡◌};
ghost use Rattle.mj_model.specs.CellMap.{value_of, prefixes_of};
ghost use Rattle.mj_model.specs.CellRules.{AreCells};

use crate::cell_walk::cell_read::CellRead;
use crate::cell_walk::common_prefixes::Prefixes;
use crate::cell_walk::steps::{root, step, value_at};

/// Returns the value of `key`, or `None` if the map does not contain it. No map contains the empty
/// key.
pub fn get<C: CellRead>(cells: &C, key: &[u8]) -> Option<u32>
    requires { AreCells (C.cells cells.now) }
    ensures { result ≡ value_of (C.cells cells.now) key.now }
{
    if key.is_empty() {
        return None;
    }
    let mut reads = 0;
    let mut place = root(cells, &mut reads);
    for byte in key {
        place = step(cells, place, *byte, &mut reads)?;
    }
    value_at(cells, place, &mut reads)
}

/// Returns an iterator over the keys that are prefixes of `text`, shortest first, each with its
/// value.
#[inline(always)]
pub fn prefixes<'a, C: CellRead + Copy>(cells: C, text: &'a [u8]) -> Prefixes<'a, C>
    requires { AreCells (C.cells cells) }
    ensures hits { result.hits ≡ prefixes_of (C.cells cells) text.now }
    ensures cells { result.cells ≡ C.cells cells }
    ensures text { result.text ≡ text.now }
    ensures walked { result.walked ≡ 0 }
{
    Prefixes::new(cells, text)
}
