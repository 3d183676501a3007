//! The categories of code points, in a table of the basic plane.
ghost use Rattle.std.specs.Prelude.{◌≡◌, ◌+◌, ◌<◌, IfOk};
ghost use Rattle.image_format.specs.ImageBytes.{kind_of};
ghost use Rattle.image_format.specs.ImageSections.{range_count, stored_info};
ghost use Rattle.image_format.specs.Layouts.{info_form};
ghost use Rattle.mj_model.specs.Tables.{System};
ghost use Rattle.dict_image.specs.Infos.{AreReadable};
ghost use Rattle.dict_image.specs.InfoTables.{AreOfPlane, IsInfoTable, plane_start};
ghost use Rattle.dict_image.specs.Ranges.{AreInOrder};

use crate::infos::info_of;
use crate::ranges::info_at;
use image_format::{Header, InfoForm, u32_at};
use mj_model::CharInfo;
use std::alloc::{AllocError, Global};

/// The number of code points in the basic plane, U+0000 to U+FFFF. (Unicode)
pub(crate) const BASIC_PLANE: usize = 0x1_0000;

/// The table of the categories of code points.
#[derive(Drop)]
pub(crate) enum InfoTable {
    /// Section 3 itself, which has an entry for each code point up to U+FFFE in layouts 1 and 2,
    /// and is empty in a user dictionary.
    InSection,
    /// An entry for each code point of the basic plane. Higher code points are searched in the
    /// ranges of section 3.
    OfPlane(Vec<u32>),
}

/// Returns the table of the categories of code points for an image. For a system dictionary with
/// ranges it allocates 4 bytes for each code point of the basic plane.
pub(crate) fn info_table_of(
    alloc: Global,
    header: &Header,
    infos: &[u8],
) -> Result<InfoTable, AllocError>
    requires { kind_of header.now ≡ System → AreReadable (info_form header.now.layout) infos.now }
    ensures { IfOk result
        (λ table. IsInfoTable (kind_of header.now) (info_form header.now.layout) infos.now table) }
{
    if header.is_user() {
        return Ok(InfoTable::InSection);
    }
    match header.info_form() {
        InfoForm::Listed => Ok(InfoTable::InSection),
        InfoForm::Ranges => Ok(InfoTable::OfPlane(plane_entries(alloc, infos)?)),
    }
}

/// Returns the entries of the basic plane, filled range by range.
fn plane_entries(alloc: Global, ranges: &[u8]) -> Result<Vec<u32>, AllocError>
    requires { AreInOrder ranges.now }
    ensures { IfOk result (λ entries. AreOfPlane ranges.now entries.items) }
{
    let mut entries = Vec::with_capacity(alloc, BASIC_PLANE)?;
    for i in 0..ranges.len() / 8 {
        entries.resize(end_in_plane(ranges, i), u32_at(ranges, 8 * i + 4))?;
    }
    Ok(entries)
}

/// Returns the end of range `i` in the basic plane: the start of the next range, or the end of the
/// plane.
fn end_in_plane(ranges: &[u8], i: usize) -> usize
    requires { i < range_count ranges.now }
    ensures { result ≡ plane_start ranges.now (i + 1) }
{
    if i + 1 < ranges.len() / 8 {
        (u32_at(ranges, 8 * (i + 1)) as usize).min(BASIC_PLANE)
    } else {
        BASIC_PLANE
    }
}

/// Returns the categories of a code point from the table of the plane or, beyond the plane, from
/// its range. `hint` is the number of the range that is tried first; any value is allowed.
#[inline(always)]
pub(crate) fn plane_info(entries: &[u32], ranges: &[u8], code: u32, hint: &mut usize) -> CharInfo
    requires order { AreInOrder ranges.now }
    requires entries { AreOfPlane ranges.now entries.now }
    ensures { result ≡ stored_info ranges.now code }
{
    let at = code as usize;
    if at < BASIC_PLANE {
        info_of(entries[at])
    } else {
        info_at(ranges, code, hint)
    }
}
