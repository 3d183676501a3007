//! Section 1: connection costs.
ghost use Rattle.std.specs.Prelude.{◌≡◌, ◌++◌, OnOk};
ghost use Rattle.image_writer.specs.StoredTables.{cost_section};

use byteorder::{ByteOrder, LittleEndian};
use std::alloc::AllocError;

/// Appends `costs` to `image`, 2 bytes each. Fails only if an allocation fails.
pub(crate) fn append_costs(costs: &[i16], image: &mut Vec<u8>) -> Result<(), AllocError>
    ensures { OnOk result (image.new.items ≡ image.old.items ++ cost_section costs.now) }
{
    let front = image.len();
    image.resize(front + 2 * costs.len(), 0)?;
    LittleEndian::write_i16_into(costs, &mut image[front..]);
    Ok(())
}
