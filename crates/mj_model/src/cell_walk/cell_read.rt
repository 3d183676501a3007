//! Read access to the cells of a double array.
ghost use Rattle.std.specs.Prelude.{◌≡◌, ◌<◌, List, length, slice_get, Some};
ghost use Rattle.mj_model.specs.CellMap.{Cell};

/// Cells that can be read, such as those of a builder or of an image. No call allocates.
pub trait CellRead {
    /// The cells. They stay the same from call to call as long as the value does not change.
    ghost cells: { Self → List Cell };

    /// Returns the number of cells.
    fn len(&self) -> usize
        ensures { result ≡ length (cells self.now) };

    /// Returns the base and the check of cell `i`.
    fn cell(&self, i: usize) -> (i32, i32)
        requires { i < length (cells self.now) }
        ensures { slice_get (cells self.now) i ≡ Some result };
}

/// Reads borrowed cells through the reference.
impl<'a, C: CellRead> CellRead for &'a C {
    ghost cells = { λ lent. C.cells lent.now };

    #[inline(always)]
    fn len(&self) -> usize {
        C::len(*self)
    }

    #[inline(always)]
    fn cell(&self, i: usize) -> (i32, i32) {
        C::cell(*self, i)
    }
}
