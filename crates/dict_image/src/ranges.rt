//! Access to the ranges of the section of code points.
ghost use Rattle.std.specs.Prelude.{◌≡◌, ◌+◌, ◌*◌, ◌<◌, IsTrue};
ghost use Rattle.image_format.specs.ImageSections.{stored_info};
ghost use Rattle.dict_image.specs.Ranges.{AreInOrder, IsLastUpTo};

use crate::infos::info_of;
use image_format::u32_at;
use mj_model::CharInfo;

/// Returns the categories of a code point. `hint` is the number of the range that is tried first,
/// and is set to that of the range found. Runs a binary search if the code point is in another one.
pub(crate) fn info_at(ranges: &[u8], code: u32, hint: &mut usize) -> CharInfo
    requires { AreInOrder ranges.now }
    ensures info { result ≡ stored_info ranges.now code }
    ensures hinted { IsLastUpTo ranges.now code hint.new }
{
    let i = last_with_hint(ranges, code, *hint);
    *hint = i;
    info_of(u32_at(ranges, 8 * i + 4))
}

/// Returns the number of the last range that starts at or before a code point. Does not search if
/// it is `hint`.
fn last_with_hint(ranges: &[u8], code: u32, hint: usize) -> usize
    requires { AreInOrder ranges.now }
    ensures { IsLastUpTo ranges.now code result }
{
    if is_last_up_to(ranges, code, hint) {
        hint
    } else {
        last_up_to(ranges, code)
    }
}

/// Returns whether range `i` exists and contains the code point.
fn is_last_up_to(ranges: &[u8], code: u32, i: usize) -> bool
    ensures { IsTrue result → IsLastUpTo ranges.now code i }
{
    let count = ranges.len() / 8;
    i < count
        && u32_at(ranges, 8 * i) <= code
        && (count - i == 1 || code < u32_at(ranges, 8 * (i + 1)))
}

/// Returns the number of the last range that starts at or before a code point. Runs a binary
/// search.
fn last_up_to(ranges: &[u8], code: u32) -> usize
    requires { AreInOrder ranges.now }
    ensures { IsLastUpTo ranges.now code result }
{
    let mut low = 0;
    let mut high = ranges.len() / 8;
    while 1 < high - low {
        let middle = low + (high - low) / 2;
        if u32_at(ranges, 8 * middle) <= code {
            low = middle;
        } else {
            high = middle;
        }
    }
    low
}
