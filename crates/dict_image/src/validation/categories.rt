//! Tests of the character categories in section 2.
ghost use Rattle.std.specs.Prelude.{◌↔◌, IsTrue};
ghost use Rattle.image_format.specs.ImageSections.{AreCategories};
ghost use Rattle.dict_image.specs.Validation.Checks.{IsPastCategory};

use mj_model::CATEGORY_LENGTH_MAX;
use simdutf8::is_utf8;

/// Returns whether `bytes` are exactly `count` well-formed categories.
pub(crate) fn are_categories(count: u32, bytes: &[u8]) -> bool
    ensures { IsTrue result ↔ AreCategories count bytes.now }
{
    let mut rest = bytes;
    for _left in 0..count {
        match past_category(rest) {
            Some(following) => rest = following,
            None => return false,
        }
    }
    rest.is_empty()
}

/// Returns the bytes that follow the first category, or None if `bytes` do not start with a
/// well-formed one.
fn past_category(bytes: &[u8]) -> Option<&[u8]>
    ensures { IsPastCategory bytes.now result }
{
    let &[invoke, group, length, name_length, ..] = bytes else {
        return None;
    };
    let end = 4 + usize::from(name_length);
    if invoke <= 1
        && group <= 1
        && length <= CATEGORY_LENGTH_MAX
        && name_length >= 1
        && end <= bytes.len()
        && is_utf8(&bytes[4..end])
    {
        Some(&bytes[end..])
    } else {
        None
    }
}
