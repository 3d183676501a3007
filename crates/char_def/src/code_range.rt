//! Ranges of code points.
ghost use Rattle.std.specs.Prelude.{◌≤◌};
ghost use Rattle.mj_model.specs.CharDef.{code_point_max};

/// The code points from `low` to `high`, both included.
#[derive(Clone, Copy)]
pub(crate) struct CodeRange {
    pub(crate) low: u32,
    pub(crate) high: u32,
    ghost in_order: { low ≤ high },
    ghost in_unicode: { high ≤ code_point_max },
}
