//! Reading images. The header is checked before the other bytes are read.

ghost use Rattle.std.specs.Prelude.{◌≡◌, ◌<◌, ◌≤◌, ◌⊎◌, Err, IfErr, IfOk, IfSome, OnOk, length};
ghost use Rattle.std.specs.Io.KnownBytes.{IsAtEnd};
ghost use Rattle.image_format.specs.ImageFaults.{IsAccepted, IsImageFault};
ghost use Rattle.image_format.specs.declared.digest_test.DigestTest.{DigestTest as DigestTestOf};
ghost use Rattle.dict_image.specs.Validation.BeforeMemory.{ReachKeys};
ghost use Rattle.mj_model.specs.declared.image_fault.ImageFault.TheVariants.{Memory as NoMemory};
ghost use Rattle.programs.specs.HashedImages.{AgreeOnDigest};
ghost use Rattle.programs.specs.ImageHeads.{IsForLength, IsHead, IsErrorOrLengthAt, IsReadHead, IsErrorAt, IsRejectedEarly, IsRestError};
ghost use Rattle.programs.specs.Reading.{GivesAtLeast, IsReadOn};
ghost use Rattle.programs.specs.declared.image_reading.ImageReadFault.TheVariants.{Read};
ghost use Rattle.programs.specs.declared.reading.ReadFault.TheVariants.{Endless, Memory};

use crate::image_head::check_head;
use crate::image_pieces::ImagePieces;
use crate::prefix_read::{PrefixRead, read_prefix};
use crate::progress::ReadProgress;
use crate::reading::ReadFault;
use dict_image::{Dict, load_checking};
use image_format::{DigestTest, HEADER_LENGTH};
use line_stream::new_buffer;
use mj_model::ImageFault;
use std::alloc::{AllocError, Global};
use std::io;

/// How an image is read: whether its checksum is tested, and the progress line, if there is one.
#[derive(Clone, Copy)]
pub struct ImageReading<'a> {
    pub digest: DigestTest,
    pub reported: Option<ReadProgress<'a>>,
}

/// The bytes of an image, and the checksum test that remains: none if the checksum was found right
/// during the reading.
#[derive(Debug, Drop)]
pub struct ReadImage {
    pub bytes: Vec<u8>,
    pub digest: DigestTest,
}

impl ReadImage {
    /// Loads the dictionary. Returns what `load_checking` returns for the checksum test that was
    /// requested.
    pub fn load(self, alloc: Global) -> Result<Dict, ImageFault>
        ensures dict { IfOk result (λ dict. dict ≡ self.bytes.items) }
        ensures accepted { (requested : DigestTestOf) → AgreeOnDigest requested self.digest self.bytes.items
            → OnOk result (IsAccepted requested self.bytes.items) }
        ensures rejected { (requested : DigestTestOf) → AgreeOnDigest requested self.digest self.bytes.items
            → IfErr result (λ fault.
            (fault ≡ NoMemory) ⊎ IsImageFault requested self.bytes.items fault) }
        // An allocation fails only after the bytes have passed the tests that precede those of the
        // keys.
        ensures out_of_memory { IfErr result
            (λ fault. fault ≡ NoMemory → ReachKeys self.digest self.bytes.items) }
    {
        load_checking(alloc, self.bytes, self.digest)
    }
}

/// Why reading an image failed.
#[derive(Debug, Drop)]
pub enum ImageReadFault {
    /// A read failed, or memory for the bytes.
    Read(ReadFault),
    /// The header or the length is not that of an image.
    Image(ImageFault),
}

impl From<AllocError> for ImageReadFault {
    ghost from_gives = { λ _ fault. fault ≡ Read Memory };

    fn from(_error: AllocError) -> ImageReadFault {
        ImageReadFault::Read(ReadFault::Memory)
    }
}

/// Reads an image from a reader that ends in at most `reads` reads.
///
/// `known` is the total number of bytes, if it is known. The header is checked before memory for
/// the other bytes is allocated. At most one read goes past the bytes that the header demands. Each
/// byte is hashed once, as it is read.
pub fn read_image<R: io::Read>(
    alloc: Global,
    reader: &mut R,
    known: Option<u64>,
    reads: u64,
    reading: ImageReading<'_>,
) -> Result<ReadImage, ImageReadFault>
    ensures whole { IfOk result (λ image.
        IfSome (R.remaining reader.old) (λ known. image.bytes.items ≡ known)) }
    ensures end { IfOk result (λ _. IsAtEnd (R.remaining reader.new)) }
    // The remaining checksum test and the requested one accept the same images.
    ensures digest { IfOk result (λ image.
        AgreeOnDigest reading.entry.digest image.digest image.bytes.items) }
    // `Endless` is returned only if each of the reads gave at least one byte.
    ensures endless { result ≡ Err (Read Endless)
        → GivesAtLeast reads (R.remaining reader.old) (R.remaining reader.new) }
    // The bytes passed the tests of magic and layout of the header, and are no more than the header
    // demands.
    ensures head { IfOk result (λ image. IsReadHead image.bytes.items) }
    // An image is rejected only with the error that its bytes have.
    ensures rejected { IfErr result (IsErrorAt known (R.remaining reader.old)) }
    // If `known` is not the number of bytes, the error may instead be the one of that length.
    ensures checked { IfErr result (IsErrorOrLengthAt known (R.remaining reader.old)) }
    // The header is checked before more is read than the header and what one read gives.
    ensures early { IfErr result
        (IsRejectedEarly (R.remaining reader.old) (R.remaining reader.new)) }
{
    let mut buffer = new_buffer(alloc)?;
    let head = HEADER_LENGTH as u64 - 1;
    match read_prefix(reader, &mut buffer, reads, Vec::new(alloc), head) {
        Ok(PrefixRead::Whole(bytes)) => Ok(ReadImage {
            bytes,
            digest: reading.digest,
        }),
        Ok(
            PrefixRead::More {
                taken: bytes,
                reads: left,
            },
        ) => match check_head(&bytes, known) {
            Ok(reported) => {
                let first = with_room(bytes, reported, known)?;
                read_remainder(reader, &mut buffer, first, reported, left, reading)
            }
            Err(fault) => Err(ImageReadFault::Image(fault)),
        },
        Err(fault) => Err(ImageReadFault::Read(fault)),
    }
}

/// Reads the bytes after `first`. `reported` is the total length that the header demands.
fn read_remainder<R: io::Read>(
    reader: &mut R,
    buffer: &mut [u8],
    first: Vec<u8>,
    reported: u64,
    reads: u64,
    reading: ImageReading<'_>,
) -> Result<ReadImage, ImageReadFault>
    requires buffer { 0 < length buffer.old }
    requires head { IsHead first.items reported }
    requires few { length first.items ≤ reported }
    ensures whole { IfOk result (λ image. IsReadOn first.items (R.remaining reader.old)
        (R.remaining reader.new) image.bytes.items) }
    ensures few { IfOk result (λ image. length image.bytes.items ≤ reported) }
    ensures end { IfOk result (λ _. IsAtEnd (R.remaining reader.new)) }
    ensures digest { IfOk result (λ image.
        AgreeOnDigest reading.entry.digest image.digest image.bytes.items) }
    ensures endless { result ≡ Err (Read Endless)
        → GivesAtLeast reads (R.remaining reader.old) (R.remaining reader.new) }
    ensures rejected { IfErr result (IsRestError first.items (R.remaining reader.old)) }
    ensures longer { IfErr result IsForLength }
{
    let more = reported.saturating_sub(first.len() as u64);
    let started = ImagePieces::started(first, reading);
    match read_prefix(reader, buffer, reads, started, more) {
        Ok(PrefixRead::Whole(pieces)) => Ok(pieces.whole(reading.digest)),
        Ok(PrefixRead::More { .. }) => Err(ImageReadFault::Image(ImageFault::BadSection(9))),
        Err(fault) => Err(ImageReadFault::Read(fault)),
    }
}

/// Reserves capacity for `reported` bytes if the file is known to have that length.
fn with_room(mut bytes: Vec<u8>, reported: u64, known: Option<u64>) -> Result<Vec<u8>, AllocError>
    ensures { IfOk result (λ roomy. roomy.items ≡ bytes.items) }
{
    if known == Some(reported) {
        bytes.reserve_exact((reported as usize).saturating_sub(bytes.len()))?;
    }
    Ok(bytes)
}
