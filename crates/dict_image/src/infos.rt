//! The categories of code points by their 32-bit entries in section 3.
ghost use Rattle.std.specs.Prelude.{◌≡◌, ◌/◌, ◌^◌, ◌<◌};
ghost use Rattle.image_format.specs.ImageSections.{info_of_entry};
ghost use Rattle.image_format.specs.OlderSections.{listed_info};
ghost use Rattle.dict_image.specs.Infos.{AreWhole};

use image_format::{OWN_ENTRIES, u32_at};
use mj_model::CharInfo;

/// Returns the categories of a code point from the list of entries of layouts 1 and 2. Code points
/// from U+FFFF on have the entry of U+0000.
pub(crate) fn listed_at(entries: &[u8], code: u32) -> CharInfo
    requires { AreWhole entries.now }
    ensures { result ≡ listed_info entries.now code }
{
    let number = if code < OWN_ENTRIES { code } else { 0 };
    info_of(u32_at(entries, 4 * number as usize))
}

/// Returns the categories in an entry: bits 0 to 17 are their set, the higher bits the first
/// category.
#[inline(always)]
pub(crate) fn info_of(entry: u32) -> CharInfo
    requires { entry / 2 ^ 18 < 256 }
    ensures { result ≡ info_of_entry entry }
{
    CharInfo {
        bits: entry % (1 << 18),
        head: (entry >> 18) as u8,
    }
}
