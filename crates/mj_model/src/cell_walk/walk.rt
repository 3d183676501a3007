//! A walk over the bytes of a text, from hit to hit.
ghost use Rattle.std.specs.Prelude.{◌≡◌, ◌+◌, ◌*◌, ◌≤◌, Some, IfSome, IfNone, length, option_map};
ghost use Rattle.std.specs.Iterator.{YieldsFirstBy};
ghost use Rattle.mj_model.specs.Hits.{IsStepOfWalk, hits_left};
ghost use Rattle.mj_model.specs.Walking.{IsWalkingWithUnread, IsWalking, value_reads, bytes_walked, walked_to};
ghost use Rattle.mj_model.specs.CellMap.{prefixes_of};
ghost use Rattle.mj_model.specs.CellRules.{AreCells};

use crate::cell_walk::cell_read::CellRead;
use crate::cell_walk::hit::Hit;
use crate::cell_walk::steps::{WalkState, root, step, value_at};

/// The progress of a walk.
///
/// `length` is the number of bytes walked over and `reads` the number of cells read. `place` is the
/// current state, or `None` after a byte had no edge.
#[derive(Clone, Copy, Debug, Drop)]
pub(crate) struct Walk {
    pub length: usize,
    pub place: Option<WalkState>,
    pub reads: u64,
}

/// Starts a walk over `text` at the root.
#[inline(always)]
pub(crate) fn start_walk<C: CellRead>(cells: &C, text: &[u8]) -> Walk
    requires { AreCells (C.cells cells.now) }
    ensures walking { IsWalking (C.cells cells.now) text.now result }
    ensures hits { hits_left (C.cells cells.now) text.now result
        ≡ prefixes_of (C.cells cells.now) text.now }
    ensures walked { bytes_walked text.now result ≡ 0 }
{
    let mut reads = 0;
    let place = root(cells, &mut reads);
    Walk {
        length: 0,
        place: Some(place),
        reads,
    }
}

/// Moves `walk` to its next hit and returns the hit, or `None` if no hit remains.
#[inline(always)]
pub(crate) fn next_hit<C: CellRead>(cells: &C, text: &[u8], walk: &mut Walk) -> Option<Hit>
    requires { IsWalking (C.cells cells.now) text.now walk.old }
    ensures walking { IsWalking (C.cells cells.now) text.now walk.new }
    ensures hits { YieldsFirstBy (λ hit. (hit.length, hit.value))
        (hits_left (C.cells cells.now) text.now) walk.old result walk.new }
    ensures walked { bytes_walked text.now walk.new
        ≡ walked_to text.now (option_map (λ hit. hit.length) result) }
{
    while let Some(place) = advance(cells, text, walk) {
        if let Some(value) = value_at(cells, place, &mut walk.reads) {
            return Some(Hit {
                length: walk.length,
                value,
            });
        }
    }
    None
}

/// Moves `walk` by one byte and returns its new state, or `None` if the text ends or the byte has
/// no edge.
#[inline(always)]
fn advance<C: CellRead>(cells: &C, text: &[u8], walk: &mut Walk) -> Option<WalkState>
    requires { IsWalking (C.cells cells.now) text.now walk.old }
    ensures walking { IsWalkingWithUnread (value_reads (C.cells cells.now) result)
        (C.cells cells.now) text.now walk.new }
    ensures hits { IsStepOfWalk (C.cells cells.now) text.now walk.old walk.new result }
    ensures place { IfSome result (λ place. walk.new.place ≡ Some place) }
    ensures further { IfSome result (λ place. walk.new.length ≡ walk.old.length + 1) }
    ensures room { IfSome result (λ place. walk.new.reads ≤ 2 * walk.new.length) }
    ensures ended { IfNone result (bytes_walked text.now walk.new ≡ length text.now) }
{
    let place = walk.place?;
    let byte = *text.get(walk.length)?;
    walk.place = step(cells, place, byte, &mut walk.reads);
    walk.length += 1;
    walk.place
}
