//! Mappings from code points to categories.

use crate::code_range::CodeRange;
use mj_model::CharInfo;

/// A range of code points with its categories.
#[derive(Clone, Copy)]
pub(crate) struct MappedRange {
    pub(crate) range: CodeRange,
    pub(crate) info: CharInfo,
}
