//! The bytes of the double array.
ghost use Rattle.std.specs.Prelude.{◌≡◌, ◌≤◌, ◌*◌, length, IfOk, OnOk};
ghost use Rattle.mj_model.specs.CellRules.{AreCells, AreOnKeys};
ghost use Rattle.image_format.specs.ImageBounds.{cells_max};
ghost use Rattle.image_format.specs.ImageSections.{stored_cells};
ghost use Rattle.image_writer.specs.TokenBytes.{cell_bytes_of};

use byteorder::{ByteOrder, LittleEndian};
use double_array::DoubleArray;
use mj_model::cell_walk::CellRead;
use std::alloc::{AllocError, Global};

/// Returns the bytes of the cells, 8 for each.
pub(crate) fn write_cells(alloc: Global, array: &DoubleArray) -> Result<Vec<u8>, AllocError>
    ensures cells { IfOk result (λ bytes. stored_cells bytes.items ≡ array.now) }
    ensures fill { IfOk result (λ bytes. length bytes.items ≡ 8 * length array.now) }
    ensures most { OnOk result (length array.now ≤ cells_max) }
    ensures rules { OnOk result (AreCells array.now) }
    ensures keys { OnOk result (AreOnKeys array.now) }
{
    let mut bytes = Vec::with_capacity(alloc, 8 * array.len())?;
    for i in 0..array.len() {
        let (base, check) = array.cell(i);
        bytes.extend_from_slice(&cell_bytes(base, check))?;
    }
    Ok(bytes)
}

/// Returns the bytes of a cell's BASE and CHECK.
fn cell_bytes(base: i32, check: i32) -> [u8; 8]
    ensures { result ≡ cell_bytes_of (base, check) }
{
    let mut bytes = [0; 8];
    LittleEndian::write_i32(&mut bytes, base);
    LittleEndian::write_i32(&mut bytes[4..], check);
    bytes
}
