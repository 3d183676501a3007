//! The bytes of an image as they are read. The bytes before its checksum are hashed meanwhile.

ghost use Rattle.std.specs.Prelude.{◌≡◌, ◌≤◌, ◌↔◌, ℕ, List, [], ◌++◌, length, IfSome, IsTrue};
ghost use Rattle.image_format.specs.ImageBytes.{header_length};
ghost use Rattle.image_format.specs.ImageFaults.{IsDigestAt};
ghost use Rattle.image_format.specs.declared.digest_test.DigestTest.TheVariants.{Verified};
ghost use Rattle.programs.specs.HashedImages.{AgreeOnDigest, HasReceived, HasHashed, digest_place};

use crate::image_reading::{ImageReading, ReadImage};
use crate::progress::ReadProgress;
use crate::reading::ByteSink;
use image_format::{DigestTest, read_header, section_ends};
use sha2::{Digest, Sha256};
use std::alloc::AllocError;

/// The bytes of an image that have been read, at least its header. The bytes before the checksum
/// are hashed if it is to be tested.
#[derive(Drop)]
pub(crate) struct ImagePieces<'a> {
    bytes: Vec<u8>,
    hashed: Option<Hashed>,
    reported: Option<ReadProgress<'a>>,
}

impl<'a> ByteSink for ImagePieces<'a> {
    ghost received = { λ pieces bytes. HasReceived bytes pieces };

    fn with(self, piece: &[u8]) -> Result<ImagePieces<'a>, AllocError> {
        let ImagePieces {
            mut bytes,
            hashed,
            reported,
        } = self;
        let before = bytes.len();
        bytes.extend_from_slice(piece)?;
        report_length(reported, bytes.len());
        Ok(ImagePieces {
            bytes,
            hashed: update_hash(hashed, before, piece),
            reported,
        })
    }
}

impl<'a> ImagePieces<'a> {
    /// Creates the pieces of an image from its first bytes.
    pub(crate) fn started(first: Vec<u8>, reading: ImageReading<'a>) -> ImagePieces<'a>
        requires { header_length ≤ length first.items }
        ensures { HasReceived first.items result }
    {
        let hashed = Hashed::of_first(&first, reading.digest);
        ImagePieces {
            bytes: first,
            hashed,
            reported: reading.reported,
        }
    }

    /// Returns the image after its last byte. `requested` is the checksum test that the caller wants.
    pub(crate) fn whole(self, requested: DigestTest) -> ReadImage
        ensures bytes { (bytes : List ℕ) → HasReceived bytes self.entry
            → result.bytes.items ≡ bytes }
        ensures digest { (bytes : List ℕ) → HasReceived bytes self.entry
            → AgreeOnDigest requested result.digest bytes }
    {
        let ImagePieces { bytes, hashed, .. } = self;
        let digest = remaining_test(hashed, &bytes, requested);
        ReadImage { bytes, digest }
    }
}

/// Reports the number of bytes read, if there is a progress line.
fn report_length(reported: Option<ReadProgress<'_>>, bytes: usize) {
    if let Some(reported) = reported {
        reported.report_progress(bytes as u64);
    }
}

/// Updates the hasher, if there is one, with `piece`. `before` is the number of bytes read earlier.
fn update_hash(hashed: Option<Hashed>, before: usize, piece: &[u8]) -> Option<Hashed>
    ensures { (end : ℕ) (bytes : List ℕ) → before ≡ length bytes
        → IfSome hashed (HasHashed end bytes)
        → IfSome result (HasHashed end (bytes ++ piece.now)) }
{
    match hashed {
        Some(hashed) => Some(hashed.with(before, piece)),
        None => None,
    }
}

/// Returns the checksum test that remains to be made for a whole image: none if it was hashed and
/// the checksum is right.
fn remaining_test(hashed: Option<Hashed>, image: &[u8], requested: DigestTest) -> DigestTest
    ensures { IfSome hashed (HasHashed (digest_place image.now) image.now)
        → AgreeOnDigest requested result image.now }
{
    match hashed {
        Some(hashed) => hashed.remaining_test(image, requested),
        None => requested,
    }
}

/// The hasher of the bytes of an image before its checksum.
#[derive(Drop)]
pub(crate) struct Hashed {
    /// Offset of the checksum in bytes.
    end: usize,
    hasher: Sha256,
}

impl Hashed {
    /// Starts a hasher with the first bytes of an image. Returns None if the image has no checksum
    /// or it is not to be tested.
    fn of_first(first: &[u8], requested: DigestTest) -> Option<Hashed>
        requires { header_length ≤ length first.now }
        ensures { IfSome result (HasHashed (digest_place first.now) first.now) }
    {
        let header = read_header(first);
        if requested == DigestTest::Skipped || header.bytes_after_sections() == 0 {
            return None;
        }
        let end = section_ends(&header)?[8];
        Some(Hashed::nothing(end).with(0, first))
    }

    /// Creates a hasher that has received no byte.
    fn nothing(end: usize) -> Hashed
        ensures { HasHashed end [] result }
    {
        Hashed {
            end,
            hasher: Sha256::new(),
        }
    }

    /// Updates the hasher with `piece`, which follows the first `before` bytes of the image. Bytes
    /// from the checksum on are ignored.
    fn with(self, before: usize, piece: &[u8]) -> Hashed
        ensures { (end : ℕ) (bytes : List ℕ) → before ≡ length bytes → HasHashed end bytes self
            → HasHashed end (bytes ++ piece.now) result }
    {
        let Hashed { end, mut hasher } = self;
        let missing = end.saturating_sub(before).min(piece.len());
        hasher.update(&piece[..missing]);
        Hashed { end, hasher }
    }

    /// Returns `Skipped` if the checksum of `image` is right, otherwise `requested`.
    fn remaining_test(self, image: &[u8], requested: DigestTest) -> DigestTest
        ensures { HasHashed (digest_place image.now) image.now self
            → AgreeOnDigest requested result image.now }
    {
        if self.is_before_digest(image) {
            DigestTest::Skipped
        } else {
            requested
        }
    }

    /// Returns whether the image ends with its checksum, and that is right. (FIPS 180-4)
    fn is_before_digest(self, image: &[u8]) -> bool
        ensures { HasHashed (digest_place image.now) image.now self
            → IsTrue result ↔ IsDigestAt Verified (digest_place image.now) image.now }
    {
        let Hashed { end, hasher } = self;
        if image.len() < end {
            return false;
        }
        let digest = hasher.finalize();
        &image[end..] == &digest[..]
    }
}
