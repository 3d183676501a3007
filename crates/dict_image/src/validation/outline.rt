//! The positions of the parts of a well-formed image.
ghost use Rattle.std.specs.Prelude.{◌≡◌};
ghost use Rattle.image_format.specs.ImageBytes.{header_of};
ghost use Rattle.image_format.specs.ImageFaults.{IsIntact};
ghost use Rattle.image_format.specs.declared.layout.TheConstants.{LAYOUT as Layout};
ghost use Rattle.dict_image.specs.Validation.Outlines.{IsOutline};

use image_format::{Header, read_header, section_ends};

/// The positions of the parts of a well-formed image: its header, the ends of its sections, and the
/// method of looking up keys.
#[derive(Drop)]
pub struct Outline {
    /// The header fields.
    pub header: Header,
    /// The ends of the header and of sections 1 to 8, as byte offsets.
    pub ends: [usize; 9],
    /// The method of looking up keys.
    pub keys: Keys,
}

/// The method of looking up keys.
#[derive(Drop)]
pub enum Keys {
    /// A binary search over listed keys, which start at these byte offsets of section 5.
    Listed(Vec<usize>),
    /// A walk over the double array.
    Cells,
}

/// Returns the outline of an image that is known to be intact and to have the newest layout. Tests
/// nothing, computes no checksum, and does not allocate.
pub fn outline_of_written(bytes: &[u8]) -> Outline
    requires intact { IsIntact bytes.now }
    requires layout { (header_of bytes.now).layout ≡ Layout }
    ensures { IsOutline bytes.now result }
{
    let header = read_header(bytes);
    match section_ends(&header) {
        Some(ends) => Outline {
            header,
            ends,
            keys: Keys::Cells,
        },
        None => unreachable!(),
    }
}
