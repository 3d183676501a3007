//! Tests of the parts around the sections: magic, layout, length and SHA-256.
ghost use Rattle.std.specs.Prelude.{◌≡◌, ◌≤◌, ◌↔◌, take, length, IsTrue};
ghost use Rattle.image_format.specs.ImageBytes.{header_of, image_magic};
ghost use Rattle.image_format.specs.ImageFaults.{IsDigestAt};
ghost use Rattle.image_format.specs.declared.digest_test.DigestTest.TheVariants.{Verified};
ghost use Rattle.dict_image.specs.Validation.Checks.{EndsResult, PrefixResult};

use image_format::{DigestTest, HEADER_LENGTH, Header, MAGIC, read_header, section_ends};
use mj_model::ImageFault;
use sha2::{Digest, Sha256};

/// Tests the length of the header, the magic and the layout. Returns the header.
pub(crate) fn check_prefix(bytes: &[u8]) -> Result<Header, ImageFault>
    ensures { PrefixResult bytes.now result }
{
    if bytes.len() < HEADER_LENGTH {
        return Err(ImageFault::Truncated);
    }
    if !has_magic(bytes) {
        return Err(ImageFault::BadMagic);
    }
    let header = read_header(bytes);
    if !header.is_read() {
        return Err(ImageFault::BadLayout(header.layout));
    }
    Ok(header)
}

/// Returns whether the first 8 bytes are the magic.
fn has_magic(bytes: &[u8]) -> bool
    ensures { IsTrue result ↔ (take 8 bytes.now ≡ image_magic) }
{
    bytes.starts_with(&MAGIC)
}

/// Tests the length, and the SHA-256 unless `digest` skips it. Returns the ends of the sections.
pub(crate) fn check_ends(
    bytes: &[u8],
    header: &Header,
    digest: DigestTest,
) -> Result<[usize; 9], ImageFault>
    requires { header.now ≡ header_of bytes.now }
    ensures { EndsResult digest bytes.now result }
{
    let length = bytes.len();
    let Some(ends) = section_ends(header) else {
        return Err(ImageFault::Truncated);
    };
    let end = ends[8];
    let following = header.bytes_after_sections();
    if length < end || length - end < following {
        return Err(ImageFault::Truncated);
    }
    if length - end > following {
        return Err(ImageFault::BadSection(9));
    }
    if following > 0 && !passes_digest(bytes, end, digest) {
        return Err(ImageFault::Digest);
    }
    Ok(ends)
}

/// Returns whether the bytes from `end` on pass the test that `digest` requires.
fn passes_digest(bytes: &[u8], end: usize, digest: DigestTest) -> bool
    requires { end ≤ length bytes.now }
    ensures { IsTrue result ↔ IsDigestAt digest end bytes.now }
{
    match digest {
        DigestTest::Verified => is_digest_from(bytes, end),
        DigestTest::Skipped => true,
    }
}

/// Returns whether the bytes from `end` on are the SHA-256 of all bytes before. (FIPS 180-4)
fn is_digest_from(bytes: &[u8], end: usize) -> bool
    requires { end ≤ length bytes.now }
    ensures { IsTrue result ↔ IsDigestAt Verified end bytes.now }
{
    let digest = Sha256::digest(&bytes[..end]);
    &bytes[end..] == &digest[..]
}
