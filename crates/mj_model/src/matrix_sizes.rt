//! The sizes of a connection table.

ghost use Rattle.std.specs.Prelude.{◌≡◌, ◌↔◌, IsTrue};
ghost use Rattle.mj_model.specs.Connection.{AreMatrixSizes, is_pair};

use crate::limits::{MATRIX_CELLS_MAX, MATRIX_SIZE_MAX};

/// The sizes of a connection table: the number of right ids of the preceding word, and the number
/// of left ids of the following word. (MeCab, `matrix.def`)
#[derive(Clone, Copy, Debug, PartialEq, Eq, Drop)]
pub struct MatrixSizes {
    pub right: u32,
    pub left: u32,
}

impl MatrixSizes {
    /// Returns whether a connection table may have these sizes: 1 to `MATRIX_SIZE_MAX` ids each,
    /// and at most `MATRIX_CELLS_MAX` pairs of ids.
    pub fn are_allowed(self) -> bool
        ensures { IsTrue result ↔ AreMatrixSizes self }
    {
        (1..=MATRIX_SIZE_MAX).contains(&self.right)
            && (1..=MATRIX_SIZE_MAX).contains(&self.left)
            && u64::from(self.right) * u64::from(self.left) <= MATRIX_CELLS_MAX
    }

    /// Returns whether `right` and `left` both lie within the sizes.
    pub fn contains(self, right: u16, left: u16) -> bool
        ensures { result ≡ is_pair self right left }
    {
        u32::from(right) < self.right && u32::from(left) < self.left
    }
}
