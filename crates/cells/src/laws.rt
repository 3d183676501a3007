//! Laws of the cells.

ghost use Rattle.std.specs.Prelude.{◌≡◌, ◌^◌};
ghost use Rattle.cells.specs.declared.cells.TheConstants as limits;

/// The value of the limit that definitions name.
pub fn constants()
    ensures cells { limits.CELLS_MAX ≡ 2 ^ 30 }
{}
