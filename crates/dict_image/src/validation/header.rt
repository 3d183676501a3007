//! Bounds of the header fields.
ghost use Rattle.std.specs.Prelude.{◌↔◌, IsTrue};
ghost use Rattle.image_format.specs.ImageBytes.{kind_of};
ghost use Rattle.image_format.specs.ImageFaults.{AreCounts, IsHeader};
ghost use Rattle.dict_image.specs.Validation.Checks.{PassOrFault};
ghost use Rattle.image_format.specs.ImageFaults.{header_tests};

use image_format::Header;
use mj_model::{CATEGORIES_MAX, ENTRIES_MAX, ImageFault};

/// Returns `BadSection(0)` if a header field is out of bounds.
pub(crate) fn check_header(header: &Header) -> Result<(), ImageFault>
    ensures { PassOrFault (header_tests header.now) result }
{
    if is_header(header) {
        Ok(())
    } else {
        Err(ImageFault::BadSection(0))
    }
}

/// Returns whether each header field is within its bounds.
fn is_header(header: &Header) -> bool
    ensures { IsTrue result ↔ IsHeader header.now }
{
    let Header {
        kind,
        sizes,
        groups,
        tokens,
        unknown,
        ..
    } = *header;
    kind.is_known()
        && sizes.are_allowed()
        && are_counts(header)
        && groups <= tokens
        && tokens as usize <= ENTRIES_MAX
        && unknown as usize <= ENTRIES_MAX
}

/// Returns whether the numbers of categories and unknown tokens suit the kind of the dictionary.
fn are_counts(header: &Header) -> bool
    ensures { IsTrue result
        ↔ AreCounts (kind_of header.now) header.now.categories header.now.unknown }
{
    if header.is_user() {
        header.categories == 0 && header.unknown == 0
    } else {
        header.categories >= 1 && header.categories as usize <= CATEGORIES_MAX
    }
}
