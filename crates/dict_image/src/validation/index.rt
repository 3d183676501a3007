//! Tests of an index, which maps each list to its tokens.
ghost use Rattle.std.specs.Prelude.{◌≡◌, ◌+◌, ◌*◌, ◌↔◌, length, IsTrue};
ghost use Rattle.image_format.specs.ImageSections.{IsIndex, NumbersRise};

use image_format::u32_at;

/// Returns whether `index` divides the tokens from `low` to before `high` into `lists` lists, none
/// of them empty.
pub(crate) fn is_index(lists: u32, low: u32, high: usize, index: &[u8]) -> bool
    ensures { IsTrue result ↔ IsIndex lists low high index.now }
{
    let lists = lists as usize;
    index.len() == 4 * (lists + 1)
        && u32_at(index, 0) == low
        && is_rising(lists, index)
        && u32_at(index, 4 * lists) as usize == high
}

/// Returns whether each number of the index is below the next one.
fn is_rising(lists: usize, index: &[u8]) -> bool
    requires { length index.now ≡ 4 * (lists + 1) }
    ensures { IsTrue result ↔ NumbersRise lists index.now }
{
    for i in 0..lists {
        if u32_at(index, 4 * i) >= u32_at(index, 4 * (i + 1)) {
            return false;
        }
    }
    true
}
