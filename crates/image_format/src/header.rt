//! The header of an image.
ghost use Rattle.std.specs.Prelude.{◌≡◌, ◌≤◌, false, length, IsTrue};
ghost use Rattle.image_format.specs.ImageBytes.{header_of, header_length, kind_of};
ghost use Rattle.mj_model.specs.Tables.{System, User};

use crate::kind::DictKind;
use crate::numbers::{u32_at, u64_at};
use mj_model::MatrixSizes;

/// The first 8 bytes of every image.
pub const MAGIC: [u8; 8] = *b"MJDICT\r\n";

/// The length of a header in bytes.
pub const HEADER_LENGTH: usize = 104;

/// The length in bytes of the SHA-256 that follows the sections in layout 3. (FIPS 180-4)
pub const DIGEST_LENGTH: usize = 32;

/// An exclusive limit on the size of the features section in bytes, so that each offset into it
/// fits 4 bytes. The writer stores each distinct feature once.
pub const FEATURE_BYTES_END: usize = 1 << 32;

/// The header fields that follow the magic. (The layout is this project's own)
#[derive(Clone, Copy, Debug, Drop)]
pub struct Header {
    /// The version of the format.
    pub layout: u32,
    /// The kind of the dictionary: system or user.
    pub kind: DictKind,
    /// The numbers of right ids and left ids.
    pub sizes: MatrixSizes,
    /// The number of character categories.
    pub categories: u32,
    /// The number of distinct surfaces.
    pub groups: u32,
    /// The number of lexicon entries.
    pub tokens: u32,
    /// The number of unknown entries.
    pub unknown: u32,
    /// The lengths of the sections in bytes: section k at k - 1.
    pub lengths: [u64; 8],
}

impl Header {
    /// Returns whether the image is a user dictionary.
    pub fn is_user(&self) -> bool
        ensures user { IsTrue result → kind_of self.now ≡ User }
        ensures system { result ≡ false → kind_of self.now ≡ System }
    {
        matches!(self.kind, DictKind::User)
    }
}

/// Returns the header fields in the first 104 bytes of an image. Does not test them, nor the magic.
pub fn read_header(bytes: &[u8]) -> Header
    requires { header_length ≤ length bytes.now }
    ensures { result ≡ header_of bytes.now }
{
    Header {
        layout: u32_at(bytes, 8),
        kind: DictKind::of_number(u32_at(bytes, 12)),
        sizes: MatrixSizes {
            right: u32_at(bytes, 16),
            left: u32_at(bytes, 20),
        },
        categories: u32_at(bytes, 24),
        groups: u32_at(bytes, 28),
        tokens: u32_at(bytes, 32),
        unknown: u32_at(bytes, 36),
        lengths: section_lengths(bytes),
    }
}

/// Returns the lengths of sections 1 to 8 in bytes.
fn section_lengths(bytes: &[u8]) -> [u64; 8]
    requires { header_length ≤ length bytes.now }
    ensures { result ≡ (header_of bytes.now).lengths }
{
    [
        u64_at(bytes, 40),
        u64_at(bytes, 48),
        u64_at(bytes, 56),
        u64_at(bytes, 64),
        u64_at(bytes, 72),
        u64_at(bytes, 80),
        u64_at(bytes, 88),
        u64_at(bytes, 96),
    ]
}
