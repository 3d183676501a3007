//! The double array in an image.
ghost use Rattle.std.specs.Prelude.{◌≡◌, ◌≤◌, ◌+◌, ◌*◌, length};
ghost use Rattle.image_format.specs.ImageSections.{stored_cell, stored_cells};

use crate::numbers::i32_at;
use mj_model::cell_walk::CellRead;

/// A double array whose cells, BASE and CHECK of 4 bytes each, are read from `bytes` in place.
#[derive(Clone, Copy, Debug, Drop)]
pub struct ImageCells<'a> {
    /// The cells, 8 bytes each.
    pub bytes: &'a [u8],
}

impl<'a> CellRead for ImageCells<'a> {
    ghost cells = { λ c. stored_cells c.bytes.now };

    fn len(&self) -> usize {
        self.bytes.len() / 8
    }

    fn cell(&self, i: usize) -> (i32, i32) {
        cell_at(self.bytes, i)
    }
}

/// Returns BASE and CHECK of cell `i`.
fn cell_at(bytes: &[u8], i: usize) -> (i32, i32)
    requires { 8 * i + 8 ≤ length bytes.now }
    ensures { result ≡ stored_cell bytes.now i }
{
    (i32_at(bytes, 8 * i), i32_at(bytes, 8 * i + 4))
}
