//! Steps from state to state. All cells are read through one function, which counts the reads.
ghost use Rattle.std.specs.Prelude.{◌≡◌, ◌+◌, ◌<◌, ◌^◌, pos, None, Some, slice_get};
ghost use Rattle.mj_model.specs.CellRules.{AreCells};
ghost use Rattle.mj_model.specs.Hits.{value_here};
ghost use Rattle.mj_model.specs.Reads.{reads_at, step_reads};
ghost use Rattle.mj_model.specs.Steps.{IsAt, IsChildAt, IsSmall, IsStepTo};

use crate::cell_walk::cell_read::CellRead;

/// A state, as the index of its cell, with its base.
#[derive(Clone, Copy, Debug, Drop)]
pub(crate) struct WalkState {
    pub state: usize,
    pub base: u32,
}

/// Returns cell `i`, or `None` past the end. A walk reads every cell through this call, which adds
/// one to `reads` for each cell.
#[inline(always)]
fn read<C: CellRead>(cells: &C, i: usize, reads: &mut u64) -> Option<(i32, i32)>
    requires { reads.old + 1 < 2 ^ 64 }
    ensures cell { result ≡ slice_get (C.cells cells.now) i }
    ensures reads { reads.new ≡ reads.old + reads_at (C.cells cells.now) (pos i) }
{
    if i >= cells.len() {
        return None;
    }
    *reads += 1;
    Some(cells.cell(i))
}

/// A child of a state, as the index of its cell, with its base.
#[derive(Clone, Copy, Debug, Drop)]
struct ChildCell {
    number: usize,
    base: i32,
}

/// Returns cell `i` if it is a child of `state`.
#[inline(always)]
fn child<C: CellRead>(cells: &C, state: usize, i: usize, reads: &mut u64) -> Option<ChildCell>
    requires cells { AreCells (C.cells cells.now) }
    requires state { IsSmall state }
    requires reads { reads.old + 1 < 2 ^ 64 }
    ensures child { IsChildAt (C.cells cells.now) state i result }
    ensures reads { reads.new ≡ reads.old + reads_at (C.cells cells.now) (pos i) }
{
    let (base, check) = read(cells, i, reads)?;
    // Checks are at least -2. The bits of a negative check are a number above every state.
    if check.cast_unsigned() == state as u32 {
        Some(ChildCell { number: i, base })
    } else {
        None
    }
}

/// Returns the state at which every walk starts.
#[inline(always)]
pub(crate) fn root<C: CellRead>(cells: &C, reads: &mut u64) -> WalkState
    requires cells { AreCells (C.cells cells.now) }
    requires reads { reads.old + 1 < 2 ^ 64 }
    ensures root { result.state ≡ 0 }
    ensures base { IsAt (C.cells cells.now) result }
    ensures reads { reads.new ≡ reads.old + reads_at (C.cells cells.now) (pos 0) }
{
    match read(cells, 0, reads) {
        Some((base, _)) => WalkState {
            state: 0,
            base: base as u32,
        },
        None => unreachable!(),
    }
}

/// Returns the state after `from` on `byte`, or `None` if there is no such edge.
#[inline(always)]
pub(crate) fn step<C: CellRead>(
    cells: &C,
    from: WalkState,
    byte: u8,
    reads: &mut u64,
) -> Option<WalkState>
    requires cells { AreCells (C.cells cells.now) }
    requires from { IsAt (C.cells cells.now) from }
    requires reads { reads.old + 1 < 2 ^ 64 }
    ensures step { IsStepTo (C.cells cells.now) from.state (byte + 1) result }
    ensures reads { reads.new
        ≡ reads.old + step_reads (C.cells cells.now) from.state (byte + 1) }
{
    let state = from.base as usize + byte as usize + 1;
    let found = child(cells, from.state, state, reads)?;
    Some(WalkState {
        state: found.number,
        base: found.base as u32,
    })
}

/// Returns the value of the key that ends at `from`, or `None` if no key ends there.
#[inline(always)]
pub(crate) fn value_at<C: CellRead>(cells: &C, from: WalkState, reads: &mut u64) -> Option<u32>
    requires cells { AreCells (C.cells cells.now) }
    requires from { IsAt (C.cells cells.now) from }
    requires reads { reads.old + 1 < 2 ^ 64 }
    ensures value { result ≡ value_here (C.cells cells.now) from.state }
    ensures reads { reads.new ≡ reads.old + step_reads (C.cells cells.now) from.state 0 }
{
    let found = child(cells, from.state, from.base as usize, reads)?;
    Some(-(found.base + 1) as u32)
}
