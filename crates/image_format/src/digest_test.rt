//! Whether loading an image tests its SHA-256.

ghost use Rattle.std.specs.Prelude.{◌≡◌};
ghost use Rattle.image_format.specs.DigestTests.{test_by};

/// Whether the SHA-256 at the end of an image is tested when the image is loaded. (This project's
/// own choice)
#[derive(Clone, Copy, Debug, PartialEq, Eq, Drop)]
pub enum DigestTest {
    /// The checksum is tested, so an image changed after it was compiled is rejected.
    Verified,
    /// The checksum is not tested. The caller vouches that the image is unchanged.
    Skipped,
}

impl DigestTest {
    /// Returns `Skipped` if `is_skipped`, otherwise `Verified`.
    pub fn skipped_if(is_skipped: bool) -> DigestTest
        ensures { result ≡ test_by is_skipped }
    {
        if is_skipped {
            DigestTest::Skipped
        } else {
            DigestTest::Verified
        }
    }
}
