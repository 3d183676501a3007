//! Checksums that are computed while an image is read.

use dict_image::DigestTest::{self, Skipped, Verified};
use mj_model::ImageFault;
use programs::{ImageReading, ReadImage, read_image};
use segmenter::sample;
use std::alloc::{AllocError, Global};
use std::io::{self, Read};
use std::test::Fail;
use test_support::samples::image;

/// A reader that returns `bytes`, at most `most` of them in each read.
#[derive(Drop)]
struct AtOnce<'a> {
    bytes: &'a [u8],
    most: usize,
}

impl Read for AtOnce<'_> {
    fn read(&mut self, buf: &mut [u8]) -> io::Result<usize> {
        let count = buf.len().min(self.most).min(self.bytes.len());
        let (now, later) = self.bytes.split_at(count);
        buf[..count].copy_from_slice(now);
        self.bytes = later;
        Ok(count)
    }
}

/// Returns `image` with one changed byte, which is counted from 1 at the end. 0 changes none.
fn changed(alloc: Global, image: &[u8], from_end: usize) -> Result<Vec<u8>, AllocError> {
    let mut bytes = Vec::new(alloc);
    bytes.extend_from_slice(image)?;
    if let Some(at) = image.len().checked_sub(from_end) {
        if let Some(byte) = bytes.get_mut(at) {
            *byte ^= 1;
        }
    }
    Ok(bytes)
}

/// A label, the changed byte, the most bytes of a read, the requested test of the checksum, the
/// test that is left to `load`, and the error.
type DigestRow = (
    &'static str,
    usize,
    usize,
    DigestTest,
    DigestTest,
    Option<ImageFault>,
);

/// The last byte belongs to the checksum, and the 33rd from the end to a feature.
#[rattlefmt::skip]
static READ_DIGESTS: [DigestRow; 10] = [
    // (what, changed byte, most bytes of a read, requested test, test left, error)
    ("a right digest",                    0,  99_999, Verified, Skipped,  None),
    ("a right digest, singly",            0,  1,      Verified, Skipped,  None),
    ("after the header",                  0,  104,    Verified, Skipped,  None),
    ("a right digest, not requested",     0,  99_999, Skipped,  Skipped,  None),
    ("another digest",                    1,  99_999, Verified, Verified, Some(ImageFault::Digest)),
    ("another digest, singly",            1,  1,      Verified, Verified, Some(ImageFault::Digest)),
    ("another digest, not requested",     1,  99_999, Skipped,  Skipped,  None),
    ("another feature",                   33, 99_999, Verified, Verified, Some(ImageFault::Digest)),
    ("another feature, singly",           33, 1,      Verified, Verified, Some(ImageFault::Digest)),
    ("another feature, not requested",    33, 99_999, Skipped,  Skipped,  None),
];

/// Reads an image from `bytes`, at most `most` of them in each read.
fn read_at_once(alloc: Global, bytes: &[u8], most: usize, digest: DigestTest) -> Option<ReadImage> {
    let reading = ImageReading {
        digest,
        reported: None,
    };
    read_image(alloc, &mut AtOnce { bytes, most }, None, 1 << 20, reading).ok()
}

fn is_as_wanted(
    alloc: Global,
    image: &[u8],
    (_what, from_end, most, requested, left, fault): &DigestRow,
) -> Result<bool, AllocError> {
    let bytes = changed(alloc, image, *from_end)?;
    Ok(match read_at_once(alloc, &bytes, *most, *requested) {
        Some(read) => {
            let is_read = read.bytes == bytes && read.digest == *left;
            is_read && read.load(alloc).err() == *fault
        }
        None => false,
    })
}

#[test]
fn digests_taken_meanwhile(rt: HostRuntime) -> Result<(), Fail> {
    let image = image(rt.alloc(), &sample())?;
    for row in &READ_DIGESTS {
        assert!(rt; is_as_wanted(rt.alloc(), &image, row)?, "{}", row.0);
    }
    Ok(())
}
