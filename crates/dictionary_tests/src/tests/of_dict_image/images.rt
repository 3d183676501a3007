//! Images and their parts.
use sha2::{Digest, Sha256};
use std::alloc::{AllocError, Global};

/// The user image of layout 1 with the single surface `もも`: 137 bytes, and the feature `X`.
static LAYOUT_1: [u8; 137] =
    *b"MJDICT\r\n\x01\0\0\0\x01\0\0\0\x02\0\0\0\x02\0\0\0\0\0\0\0\x01\0\0\0\x01\0\0\0\0\0\0\0\
    \0\0\0\0\0\0\0\0\0\0\0\0\0\0\0\0\0\0\0\0\0\0\0\0\0\0\0\0\0\0\0\0\
    \x08\0\0\0\0\0\0\0\x08\0\0\0\0\0\0\0\x10\0\0\0\0\0\0\0\x01\0\0\0\0\0\0\0\
    \x06\0\xe3\x82\x82\xe3\x82\x82\0\0\0\0\x01\0\0\0\x01\0\x01\0\x01\0\0\0\0\0\0\0\x01\0\0\0X";

/// A position, and the bytes that replace those from it on.
pub(crate) type Change<'a> = (usize, &'a [u8]);

/// Returns a header followed by sections.
///
/// `numbers` are the layout, the kind, the number of right ids and of left ids, and the number of
/// categories, groups, tokens and unknown tokens.
pub(crate) fn image(
    alloc: Global,
    numbers: [u32; 8],
    sections: [&[u8]; 8],
) -> Result<Vec<u8>, AllocError> {
    let mut bytes = Vec::new(alloc);
    bytes.extend_from_slice(b"MJDICT\r\n")?;
    for number in numbers {
        bytes.extend_from_slice(&number.to_le_bytes())?;
    }
    for section in sections {
        bytes.extend_from_slice(&(section.len() as u64).to_le_bytes())?;
    }
    for section in sections {
        bytes.extend_from_slice(section)?;
    }
    Ok(bytes)
}

/// Returns `bytes` with `changes`.
pub(crate) fn changed(
    alloc: Global,
    bytes: &[u8],
    changes: &[Change<'_>],
) -> Result<Vec<u8>, AllocError> {
    let mut new = Vec::new(alloc);
    for (place, old) in bytes.iter().enumerate() {
        let mut byte = *old;
        for (at, with) in changes {
            if place >= *at {
                byte = with.get(place - *at).copied().unwrap_or(byte);
            }
        }
        new.push(byte)?;
    }
    Ok(new)
}

/// Returns `bytes` followed by their checksum.
pub(crate) fn sealed(alloc: Global, bytes: &[u8]) -> Result<Vec<u8>, AllocError> {
    let mut new = Vec::new(alloc);
    new.extend_from_slice(bytes)?;
    new.extend_from_slice(&Sha256::digest(bytes))?;
    Ok(new)
}

/// Returns the user image of layout `layout` with one surface and the feature `X`. In layout 3 it
/// lacks its checksum.
///
/// In layout 1 the surface is `もも`. In the others it is `a`, and the image has 929 bytes.
pub(crate) fn user_body(alloc: Global, layout: u32) -> Result<Vec<u8>, AllocError> {
    match layout {
        1 => Vec::from_slice(alloc, &LAYOUT_1),
        2 => changed(
            alloc,
            &one_surface_with(alloc, &[(0, 1)], b"X")?,
            &[(8, b"\x02")],
        ),
        _ => one_surface_with(alloc, &[(0, 1)], b"X"),
    }
}

/// Returns the user image of layout `layout` with one surface and the feature `X`. In layout 3 it
/// has its checksum.
pub(crate) fn user_image(alloc: Global, layout: u32) -> Result<Vec<u8>, AllocError> {
    let body = user_body(alloc, layout)?;
    if layout == 3 {
        return sealed(alloc, &body);
    }
    Ok(body)
}

/// Returns the user image of layout 3 with the single surface `a`, without its checksum.
///
/// It has one token for each item of `places`, which is the start and the length of its feature.
pub(crate) fn one_surface_with(
    alloc: Global,
    places: &[(u8, u8)],
    features: &[u8],
) -> Result<Vec<u8>, AllocError> {
    let count = u32::try_from(places.len()).unwrap_or(u32::MAX);
    let mut groups = Vec::new(alloc);
    groups.extend_from_slice(&[0; 4])?;
    groups.extend_from_slice(&count.to_le_bytes())?;
    let mut tokens = Vec::new(alloc);
    for (start, length) in places {
        tokens.extend_from_slice(b"\x01\0\x01\0\x01\0\0\0")?;
        tokens.extend_from_slice(&[*start, 0, 0, 0, *length, 0, 0, 0])?;
    }
    let cells = cells_of_a(alloc)?;
    #[rattlefmt::skip]
    let sections = [b"".as_slice(), b"", b"", b"", &cells, &groups, &tokens, features];
    image(alloc, [3, 1, 2, 2, 0, 1, count, 0], sections)
}

/// Returns the cells of the single key `a`, whose value is 0: cell 0 is (1, -2), cell 1 is (-1,
/// 99), cell 99 is (1, 0), and the others of 100 are free.
fn cells_of_a(alloc: Global) -> Result<Vec<u8>, AllocError> {
    let mut cells = Vec::new(alloc);
    for number in 0..100_u8 {
        let (base, check): (i32, i32) = match number {
            0 => (1, -2),
            1 => (-1, 99),
            99 => (1, 0),
            _ => (0, -1),
        };
        cells.extend_from_slice(&base.to_le_bytes())?;
        cells.extend_from_slice(&check.to_le_bytes())?;
    }
    Ok(cells)
}
