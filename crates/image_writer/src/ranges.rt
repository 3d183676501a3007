//! Section 3: the categories of code points.
ghost use Rattle.std.specs.Prelude.{◌≡◌, ◌<◌, ◌^◌, ◌++◌, IfOk, OnOk};
ghost use Rattle.char_def.specs.Categories.{IsCategoryTable};
ghost use Rattle.image_writer.specs.StoredTables.{HoldRangesOf};
ghost use Rattle.image_writer.specs.Ranges.{range_bytes};

use byteorder::{ByteOrder, LittleEndian};
use char_def::{CategoryRange, CharTable};
use std::alloc::{AllocError, Global};

/// Returns the ranges of code points with equal categories, 8 bytes each: the first code point, and
/// the entry of categories. Fails only if an allocation fails.
pub(crate) fn write_ranges(alloc: Global, chars: &CharTable) -> Result<Vec<u8>, AllocError>
    requires { IsCategoryTable chars.now }
    ensures { IfOk result (λ bytes. HoldRangesOf chars.now bytes.items) }
{
    let ranges = chars.ranges(alloc)?;
    let mut bytes = Vec::new(alloc);
    for range in &ranges {
        append_range(*range, &mut bytes)?;
    }
    Ok(bytes)
}

/// Appends the bytes of a range.
fn append_range(range: CategoryRange, bytes: &mut Vec<u8>) -> Result<(), AllocError>
    requires { range.info.bits < 2 ^ 18 }
    ensures { OnOk result (bytes.new.items ≡ bytes.old.items ++ range_bytes range) }
{
    let CategoryRange { first, info } = range;
    let mut stored = [0; 8];
    LittleEndian::write_u32(&mut stored[..4], first);
    LittleEndian::write_u32(&mut stored[4..], info.bits + (u32::from(info.head) << 18));
    bytes.extend_from_slice(&stored)
}
