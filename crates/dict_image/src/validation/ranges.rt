//! Tests of the categories of code points in ranges.
ghost use Rattle.std.specs.Prelude.{◌≤◌, ◌↔◌, IsTrue};
ghost use Rattle.image_format.specs.ImageSections.{AreRanges, FirstsRise};
ghost use Rattle.mj_model.specs.declared.limits.TheConstants.{CATEGORIES_MAX as CategoriesMax};
ghost use Rattle.dict_image.specs.Validation.Checks.{AreRangesOf};

use crate::validation::infos::is_char_info;
use image_format::u32_at;
use mj_model::CODE_POINT_MAX;

/// Returns whether `ranges` are ranges of 8 bytes with increasing first code points from 0 on,
/// whose entries have categories below `categories`. `categories` is at most `CATEGORIES_MAX`.
pub(crate) fn are_ranges(categories: u32, ranges: &[u8]) -> bool
    requires { categories ≤ CategoriesMax }
    ensures { IsTrue result ↔ AreRanges categories ranges.now }
{
    ranges.len() % 8 == 0
        && !ranges.is_empty()
        && u32_at(ranges, 0) == 0
        && is_rising(ranges)
        && are_within(categories, ranges)
}

/// Returns whether the first code points increase.
fn is_rising(ranges: &[u8]) -> bool
    ensures { IsTrue result ↔ FirstsRise ranges.now }
{
    for i in 1..ranges.len() / 8 {
        if u32_at(ranges, 8 * (i - 1)) >= u32_at(ranges, 8 * i) {
            return false;
        }
    }
    true
}

/// Returns whether each range starts at a code point, and its categories are below `categories`.
fn are_within(categories: u32, ranges: &[u8]) -> bool
    requires { categories ≤ CategoriesMax }
    ensures { IsTrue result ↔ AreRangesOf categories ranges.now }
{
    for i in 0..ranges.len() / 8 {
        if u32_at(ranges, 8 * i) > CODE_POINT_MAX
            || !is_char_info(categories, u32_at(ranges, 8 * i + 4))
        {
            return false;
        }
    }
    true
}
