//! The bytes of the group index.
ghost use Rattle.std.specs.Prelude.{◌≡◌, ◌<◌, ◌*◌, ◌+◌, ℕ, length, slice_index_or, IfOk};
ghost use Rattle.image_format.specs.ImageSections.{index_at};

use std::alloc::{AllocError, Global};

/// Returns the first entry of each group and, after them, the number of entries, 4 bytes each.
pub(crate) fn write_starts(
    alloc: Global,
    starts: &[u32],
    entries: u32,
) -> Result<Vec<u8>, AllocError>
    ensures fill { IfOk result (λ bytes. length bytes.items ≡ 4 * (length starts.now + 1)) }
    ensures numbers { IfOk result (λ bytes. (g : ℕ) → g < length starts.now + 1
        → index_at bytes.items g ≡ slice_index_or starts.now g entries) }
{
    let mut bytes = Vec::new(alloc);
    for start in starts {
        bytes.extend_from_slice(&start.to_le_bytes())?;
    }
    bytes.extend_from_slice(&entries.to_le_bytes())?;
    Ok(bytes)
}
