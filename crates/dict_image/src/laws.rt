//! Laws of the tables of every dictionary.
ghost use Rattle.image_format.specs.ImageMeaning.{image_tables};
ghost use Rattle.dict_image.specs.Fitting.{AreBytes, AreFitting};

use crate::dict::Dict;
use image_format::Section;

impl Dict {
    /// States that the tables satisfy the assumptions of the search.
    pub(crate) fn tables_fit(&self)
        ensures { AreFitting (image_tables self.now) }
    {
        are_bytes(self.section(Section::Costs));
        are_bytes(self.section(Section::Tokens));
    }
}

/// States that each byte is below 256.
fn are_bytes(bytes: &[u8])
    ensures { AreBytes bytes.now }
{
    // Only the contract uses `bytes`.
    let _ = bytes;
}
