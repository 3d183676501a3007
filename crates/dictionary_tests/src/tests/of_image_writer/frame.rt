//! A user image with the single surface `a`.
use super::samples::{section, user_image};
use image_format::{DictKind, Header, LAYOUT};
use image_writer::write_image;
use mj_model::MatrixSizes;
use sha2::{Digest, Sha256};
use std::alloc::{AllocError, Global};
use std::test::Fail;

/// The header of a user dictionary for 2 right ids and 2 left ids, up to the length of section 5.
static HEADER_START: [u8; 72] =
    *b"MJDICT\r\n\x03\0\0\0\x01\0\0\0\x02\0\0\0\x02\0\0\0\0\0\0\0\x01\0\0\0\x01\0\0\0\0\0\0\0\
    \0\0\0\0\0\0\0\0\0\0\0\0\0\0\0\0\0\0\0\0\0\0\0\0\0\0\0\0\0\0\0\0";

/// The lengths of sections 6 to 8, which end the header: 8, 16 and 1 bytes.
static HEADER_END: [u8; 24] = *b"\x08\0\0\0\0\0\0\0\x10\0\0\0\0\0\0\0\x01\0\0\0\0\0\0\0";

/// Sections 6 to 8.
static SECTIONS: [u8; 25] = *b"\0\0\0\0\x01\0\0\0\x01\0\x01\0\x01\0\0\0\0\0\0\0\x01\0\0\0X";

/// Returns the image without its checksum, with `cells` as section 5.
fn body_with(alloc: Global, cells: &[u8]) -> Result<Vec<u8>, AllocError> {
    let mut body = Vec::new(alloc);
    body.extend_from_slice(&HEADER_START)?;
    body.extend_from_slice(&(cells.len() as u64).to_le_bytes())?;
    body.extend_from_slice(&HEADER_END)?;
    body.extend_from_slice(cells)?;
    body.extend_from_slice(&SECTIONS)?;
    Ok(body)
}

#[test]
fn header_sections_and_digest(rt: HostRuntime) -> Result<(), Fail> {
    let sizes = MatrixSizes { right: 2, left: 2 };
    let image = user_image(rt.alloc(), sizes, "a,1,1,1,X\n")?;

    // The contents and the number of the cells are not specified.
    let body = body_with(rt.alloc(), section(&image, 5))?;
    assert_eq!(rt; image.len(), body.len() + 32);
    assert!(rt; image.starts_with(&body));
    assert!(rt; image.ends_with(&Sha256::digest(&body)));
    Ok(())
}

/// The header of the image. Its sections 5 to 8 have 8, 8, 16 and 1 bytes.
const HEADER: Header = Header {
    layout: LAYOUT,
    kind: DictKind::User,
    sizes: MatrixSizes { right: 2, left: 2 },
    categories: 0,
    groups: 1,
    tokens: 1,
    unknown: 0,
    lengths: [0, 0, 0, 0, 8, 8, 16, 1],
};

/// The only cell of the image: BASE 1 and CHECK -2.
static CELL: [u8; 8] = *b"\x01\0\0\0\xfe\xff\xff\xff";

#[test]
fn sections_made_by_hand(rt: HostRuntime) -> Result<(), Fail> {
    let empty = b"".as_slice();
    let (groups, tokens) = (&SECTIONS[..8], &SECTIONS[8..24]);
    let sections = [empty, empty, empty, &CELL, groups, tokens];
    let image = write_image(rt.alloc(), HEADER, &[], &sections, &["X"])?;
    let body = body_with(rt.alloc(), &CELL)?;
    assert_eq!(rt; image.len(), 169);
    assert!(rt; image.starts_with(&body));
    assert!(rt; image.ends_with(&Sha256::digest(&body)));
    Ok(())
}
