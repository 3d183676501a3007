//! The differences between the layouts of an image.
ghost use Rattle.std.specs.Prelude.{◌≡◌, ◌↔◌, IsTrue};
ghost use Rattle.image_format.specs.Layouts.{IsReadLayout, bytes_after_sections, info_form, key_form};

use crate::header::{DIGEST_LENGTH, Header};

/// The newest layout, which is the one that is written. Layouts 1 to `LAYOUT` are read.
pub const LAYOUT: u32 = 3;

/// The number of entries in section 3 of layouts 1 and 2: one for each code point up to U+FFFE.
pub const OWN_ENTRIES: u32 = 0xFFFF;

/// The form of the surfaces in section 5. (The layouts are this project's own)
#[derive(Clone, Copy, Debug, PartialEq, Eq, Drop)]
pub enum KeyForm {
    /// Layout 1: surfaces in rising byte order, each after its length.
    Listed,
    /// Layouts 2 and 3: a double array of 8 bytes a cell. (Aoe 1989)
    Cells,
}

/// The form of the character categories in section 3. (The layouts are this project's own)
#[derive(Clone, Copy, Debug, PartialEq, Eq, Drop)]
pub enum InfoForm {
    /// Layouts 1 and 2: an entry for each code point up to U+FFFE. Higher code points have the
    /// entry of U+0000.
    Listed,
    /// Layout 3: ranges of code points.
    Ranges,
}

impl Header {
    /// Returns whether images of this layout can be read.
    pub fn is_read(&self) -> bool
        ensures { IsTrue result ↔ IsReadLayout self.now.layout }
    {
        (1..=LAYOUT).contains(&self.layout)
    }

    /// Returns the form of the surfaces in section 5.
    pub fn key_form(&self) -> KeyForm
        ensures { result ≡ key_form self.now.layout }
    {
        if self.layout == 1 {
            KeyForm::Listed
        } else {
            KeyForm::Cells
        }
    }

    /// Returns the form of the character categories in section 3.
    pub fn info_form(&self) -> InfoForm
        ensures { result ≡ info_form self.now.layout }
    {
        if self.layout == 3 {
            InfoForm::Ranges
        } else {
            InfoForm::Listed
        }
    }

    /// Returns the number of bytes that follow the sections: 32 for the SHA-256 of layout 3,
    /// otherwise 0.
    pub fn bytes_after_sections(&self) -> usize
        ensures { result ≡ bytes_after_sections self.now.layout }
    {
        if self.layout == 3 { DIGEST_LENGTH } else { 0 }
    }
}
