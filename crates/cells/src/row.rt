//! Runs of slots of a block: filled with one value, or moved to a larger block.
ghost use Rattle.std.specs.Prelude.{◌≡◌, ◌-◌, ◌≤◌, ◌<◌, ◌++◌, take, replicate, IfOk, OnErr};
ghost use Rattle.core.specs.Mem.Slots.Ownership.{Filled};
ghost use Rattle.core.specs.Mem.Slots.{slots_len, slots_items, slots_filled, SamePlaces};
ghost use Rattle.cells.specs.CellBlock.{IsTokenOf};
ghost use Rattle.cells.specs.declared.cells.TheConstants.{CELLS_MAX as CellsMax};

use crate::block::allocate_block;
use crate::token::FreeToken;
use core::slots::Slots;
use std::alloc::{AllocError, Global};

/// Stores `pair` in the slots from `from` to `to`.
pub(crate) fn fill(row: &mut Slots<(i32, i32)>, from: usize, to: usize, pair: (i32, i32))
    requires { (from ≤ to) × (to ≤ slots_len row.old) × Filled (slots_filled row.old) 0 from }
    ensures items { take to (slots_items row.new)
        ≡ take from (slots_items row.old) ++ replicate (to - from) pair }
    ensures filled { Filled (slots_filled row.new) 0 to }
    ensures places { SamePlaces row.old row.new }
{
    let mut at = from;
    while at < to {
        row.put(at, pair);
        at += 1;
    }
}

/// Allocates a block of `places` slots, and moves the first `count` pairs of `row` to its start.
pub(crate) fn move_to_block(
    alloc: &Global,
    row: &mut Slots<(i32, i32)>,
    count: usize,
    places: usize,
) -> Result<(Slots<(i32, i32)>, FreeToken<(i32, i32), Global>), AllocError>
    requires row { (count ≤ slots_len row.old) × Filled (slots_filled row.old) 0 count }
    requires places { (count ≤ places) × (places ≤ CellsMax) }
    ensures items { IfOk result (λ block. take count (slots_items block.0)
        ≡ take count (slots_items row.old)) }
    ensures filled { IfOk result (λ block. Filled (slots_filled block.0) 0 count) }
    ensures block { IfOk result (λ block. (slots_len block.0 ≡ places)
        × IsTokenOf block.1 block.0 alloc.now) }
    ensures same { SamePlaces row.old row.new }
    ensures unchanged { OnErr result (row.new ≡ row.old) }
{
    let (mut block, token) = allocate_block(alloc, places, &(0, 0))?;
    row.move_run(0, &mut block, 0, count);
    Ok((block, token))
}
