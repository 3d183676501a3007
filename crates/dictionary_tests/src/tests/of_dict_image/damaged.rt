//! Truncated images, and images with one changed byte. The loader must agree with the plain reader
//! on each.
use super::images::user_image;
use super::lookups::passes_all_lookups;
use super::plain_reader::{first_fault, frame_fault};
use crate::tests::samples::{dict_of, fault_of, fault_of_front, with_byte};
use mj_model::ImageFault::{self, BadMagic, BadSection, Digest, Truncated};
use std::alloc::{AllocError, Global};
use std::test::Fail;

/// Returns the shortest length of a truncated image that is not reported as truncated.
fn accepted_front(alloc: Global, bytes: &[u8]) -> Result<Option<usize>, AllocError> {
    for length in 0..bytes.len() {
        if fault_of_front(alloc, bytes, length)? != Some(Truncated) {
            return Ok(Some(length));
        }
    }
    Ok(None)
}

#[test]
fn shorter_images(rt: HostRuntime) -> Result<(), Fail> {
    for layout in 1..=3 {
        let bytes = user_image(rt.alloc(), layout)?;
        assert_eq!(rt;
            accepted_front(rt.alloc(), &bytes)?,
            None,
            "layout {layout}"
        );
    }
    Ok(())
}

/// Returns whether the loader agrees with the plain reader on `image`, and its dictionary passes
/// all lookups.
fn agrees_with_plain_reader(alloc: Global, image: &[u8]) -> Result<bool, AllocError> {
    let expected = first_fault(alloc, image)?;
    Ok(match dict_of(alloc, Vec::from_slice(alloc, image)?) {
        Err(fault) => expected == Some(fault),
        Ok(dict) => expected.is_none() && passes_all_lookups(&dict, image),
    })
}

/// Returns the first position at which the loader disagrees with the plain reader after a change to
/// `byte`.
fn disagreement(alloc: Global, bytes: &[u8], byte: u8) -> Result<Option<usize>, AllocError> {
    for place in 0..bytes.len() {
        if !agrees_with_plain_reader(alloc, &with_byte(alloc, bytes, place, byte)?)? {
            return Ok(Some(place));
        }
    }
    Ok(None)
}

/// Returns the first position at which the loader disagrees with the plain reader after a change to
/// one of four values, and that value.
fn disagreement_of_any(alloc: Global, bytes: &[u8]) -> Result<Option<(usize, u8)>, AllocError> {
    for byte in [0, 1, 0x80, 0xff] {
        if let Some(place) = disagreement(alloc, bytes, byte)? {
            return Ok(Some((place, byte)));
        }
    }
    Ok(None)
}

#[test]
fn changed_bytes_of_layout_1(rt: HostRuntime) -> Result<(), Fail> {
    let bytes = user_image(rt.alloc(), 1)?;
    assert_eq!(rt; disagreement_of_any(rt.alloc(), &bytes)?, None);
    Ok(())
}

#[test]
fn changed_bytes_of_layout_2(rt: HostRuntime) -> Result<(), Fail> {
    let bytes = user_image(rt.alloc(), 2)?;
    assert_eq!(rt; disagreement_of_any(rt.alloc(), &bytes)?, None);
    Ok(())
}

/// Returns the error of the image of layout 3 after a change at `place`.
///
/// The magic, the layout and the lengths of the sections are checked before the checksum.
fn fault_at(place: usize, changed: &[u8]) -> Option<ImageFault> {
    match place {
        0..=7 => Some(BadMagic),
        8..=11 | 40..=103 => frame_fault(changed),
        _ => Some(Digest),
    }
}

/// Returns whether the image of layout 3 with `byte` at `place` is rejected for that error.
fn is_rejected_with(
    alloc: Global,
    image: &[u8],
    place: usize,
    byte: u8,
) -> Result<bool, AllocError> {
    let changed = with_byte(alloc, image, place, byte)?;
    let expected = fault_at(place, &changed);
    Ok(expected.is_some() && fault_of(alloc, changed) == expected)
}

#[test]
fn flipped_bits_of_layout_3(rt: HostRuntime) -> Result<(), Fail> {
    let bytes = user_image(rt.alloc(), 3)?;
    assert_eq!(rt; bytes.len(), 961);
    for (place, byte) in bytes.iter().enumerate() {
        let is_rejected = is_rejected_with(rt.alloc(), &bytes, place, *byte ^ 1)?;
        assert!(rt; is_rejected, "{place}");
    }
    // Layout 2 has no checksum.
    let layout_2 = with_byte(rt.alloc(), &bytes, 8, 2)?;
    assert_eq!(rt; fault_of(rt.alloc(), layout_2), Some(BadSection(9)));
    Ok(())
}

/// Returns the first position at which the image of layout 3 is not rejected as it should be after
/// a change to `byte`.
fn other_fault(alloc: Global, image: &[u8], byte: u8) -> Result<Option<usize>, AllocError> {
    for (place, old) in image.iter().enumerate() {
        if *old != byte && !is_rejected_with(alloc, image, place, byte)? {
            return Ok(Some(place));
        }
    }
    Ok(None)
}

#[test]
fn changed_bytes_of_layout_3(rt: HostRuntime) -> Result<(), Fail> {
    let bytes = user_image(rt.alloc(), 3)?;
    for byte in [0, 1, 0x80, 0xff] {
        assert_eq!(rt; other_fault(rt.alloc(), &bytes, byte)?, None, "{byte}");
    }
    Ok(())
}
