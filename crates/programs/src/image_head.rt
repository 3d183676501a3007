//! Checks of the first bytes of an image, before the other bytes are read.

ghost use Rattle.std.specs.Prelude.{◌≡◌, ◌≤◌, ◌↔◌, ◌^◌, length, take, IfErr, IfOk, IsTrue, MatchOption};
ghost use Rattle.image_format.specs.ImageBytes.{header_length, image_magic, total_length};
ghost use Rattle.programs.specs.ImageHeads.{IsFaultOfEach, IsHead, IsErrorOrLengthOfEach};

use image_format::{Header, MAGIC, read_header, section_ends};
use mj_model::ImageFault;

/// Returns the total length of the image that begins with `first`, in bytes, or the error of every
/// image that does.
///
/// `known` is the length of the file in bytes, if it is known.
pub(crate) fn check_head(first: &[u8], known: Option<u64>) -> Result<u64, ImageFault>
    requires { header_length ≤ length first.now }
    ensures header { IfOk result (IsHead first.now) }
    ensures few { IfOk result (λ reported. length first.now ≤ reported) }
    ensures rejected { IfErr result (IsFaultOfEach known first.now) }
    ensures checked { IfErr result (IsErrorOrLengthOfEach known first.now) }
{
    if !has_magic(first) {
        return Err(ImageFault::BadMagic);
    }
    let header = read_header(first);
    if !header.is_read() {
        return Err(ImageFault::BadLayout(header.layout));
    }
    let Some(reported) = checked_total_length(&header) else {
        return Err(ImageFault::Truncated);
    };
    if reported < first.len() as u64 {
        return Err(ImageFault::BadSection(9));
    }
    match known {
        Some(length) if length < reported && first.len() as u64 <= length => Err(
            ImageFault::Truncated,
        ),
        Some(length) if reported < length => Err(ImageFault::BadSection(9)),
        _ => Ok(reported),
    }
}

/// Returns whether `bytes` begin with the magic of an image.
fn has_magic(bytes: &[u8]) -> bool
    ensures { IsTrue result ↔ (take 8 bytes.now ≡ image_magic) }
{
    bytes.starts_with(&MAGIC)
}

/// Returns the total length of an image with this header, in bytes; None if it does not fit in a
/// `u64`.
fn checked_total_length(header: &Header) -> Option<u64>
    ensures { MatchOption result (2 ^ 64 ≤ total_length header.now)
        (λ reported. reported ≡ total_length header.now) }
{
    let ends = section_ends(header)?;
    u64::checked_add(ends[8] as u64, header.bytes_after_sections() as u64)
}
