//! Tables of numbers indexed by context id.

ghost use Rattle.std.specs.Prelude.{◌<◌, length, OnOk};
ghost use Rattle.viterbi.specs.Search.Slots.{KeepsSlots};

use std::alloc::AllocError;

/// Grows `slots` with zeros until index `id` exists.
pub fn ensure_slot(slots: &mut Vec<usize>, id: usize) -> Result<(), AllocError>
    ensures there { OnOk result (id < length slots.new.items) }
    ensures unchanged { KeepsSlots slots.old.items slots.new.items }
{
    if slots.len() <= id {
        let count = id.checked_add(1).ok_or(AllocError)?;
        slots.resize(count, 0)?;
    }
    Ok(())
}
