//! Costs in rows of equal width.
ghost use Rattle.std.specs.Prelude.{◌≡◌, ◌+◌, ◌*◌, ◌≤◌, length, slice_range};

/// Returns row `number` of a table whose rows have `width` costs.
#[inline(always)]
pub(crate) fn row_of(rows: &[i16], width: usize, number: usize) -> &[i16]
    requires { number * width + width ≤ length rows.now }
    ensures { result.now ≡ slice_range rows.now (number * width) (number * width + width) }
{
    let from = number * width;
    &rows[from..from + width]
}
