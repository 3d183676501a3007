//! Images of small user dictionaries, byte for byte except the cells of their keys.
use super::samples::{section, user_image};
use image_format::{DIGEST_LENGTH, HEADER_LENGTH};
use mj_model::MatrixSizes;
use sha2::{Digest, Sha256};
use std::alloc::{AllocError, Global};
use std::test::Fail;

/// The first bytes of a user image: layout 3, kind 1.
static START: &[u8; 16] = b"MJDICT\r\n\x03\0\0\0\x01\0\0\0";

/// A user lexicon, and the contents of its image.
#[derive(Clone, Copy)]
struct Row {
    what: &'static str,
    sizes: MatrixSizes,
    lines: &'static str,
    /// The sizes, and the number of categories, groups, tokens and unknown entries.
    numbers: &'static [u8; 24],
    /// The lengths of sections 6 to 8.
    lengths: &'static [u8; 24],
    groups: &'static [u8],
    tokens: &'static [u8],
    features: &'static [u8],
}

#[rattlefmt::skip]
static ROWS: [Row; 3] = [
    Row { what: "no lines", sizes: MatrixSizes { right: 1, left: 2 }, lines: "",
        numbers: b"\x01\0\0\0\x02\0\0\0\0\0\0\0\0\0\0\0\0\0\0\0\0\0\0\0",
        lengths: b"\x04\0\0\0\0\0\0\0\0\0\0\0\0\0\0\0\0\0\0\0\0\0\0\0",
        groups: b"\0\0\0\0", tokens: b"", features: b"" },
    Row { what: "one line", sizes: MatrixSizes { right: 2, left: 2 }, lines: "もも,1,1,1,X\n",
        numbers: b"\x02\0\0\0\x02\0\0\0\0\0\0\0\x01\0\0\0\x01\0\0\0\0\0\0\0",
        lengths: b"\x08\0\0\0\0\0\0\0\x10\0\0\0\0\0\0\0\x01\0\0\0\0\0\0\0",
        groups: b"\0\0\0\0\x01\0\0\0", tokens: b"\x01\0\x01\0\x01\0\0\0\0\0\0\0\x01\0\0\0", features: b"X" },
    Row { what: "two lines of a surface, and two of a feature", sizes: MatrixSizes { right: 5, left: 259 },
        lines: "a,1,2,-5,X\na,3,4,6,YZ\nb,258,0,-32768,X\n",
        numbers: b"\x05\0\0\0\x03\x01\0\0\0\0\0\0\x02\0\0\0\x03\0\0\0\0\0\0\0",
        lengths: b"\x0c\0\0\0\0\0\0\0\x30\0\0\0\0\0\0\0\x03\0\0\0\0\0\0\0",
        groups: b"\0\0\0\0\x02\0\0\0\x03\0\0\0",
        tokens: b"\x01\0\x02\0\xfb\xff\0\0\0\0\0\0\x01\0\0\0\x03\0\x04\0\x06\0\0\0\x01\0\0\0\x02\0\0\0\x02\x01\0\0\0\x80\0\0\0\0\0\0\x01\0\0\0",
        features: b"XYZ" },
];

/// Returns whether `image` has the sections of `row`, and CHECK -2 at the root. The root's BASE is
/// not specified.
fn has_sections(image: &[u8], row: &Row) -> bool {
    #[rattlefmt::skip]
    let Row { numbers, groups, tokens, features, .. } = *row;
    let root_check: &[u8] = b"\xfe\xff\xff\xff";
    let keys = section(image, 5);
    image.get(28..32) == numbers.get(12..16)
        && section(image, 6) == groups
        && section(image, 7) == tokens
        && section(image, 8) == features
        && keys.len() % 8 == 0
        && keys.get(4..8) == Some(root_check)
}

#[test]
fn sections_of_lexicons(rt: HostRuntime) -> Result<(), Fail> {
    for row in &ROWS {
        let image = user_image(rt.alloc(), row.sizes, row.lines)?;
        assert!(rt; has_sections(&image, row), "{}", row.what);
    }
    Ok(())
}

/// Returns sections 6 to 8 of `row`.
fn end_of(alloc: Global, row: &Row) -> Result<Vec<u8>, AllocError> {
    #[rattlefmt::skip]
    let Row { groups, tokens, features, .. } = *row;
    let mut end = Vec::new(alloc);
    for section in [groups, tokens, features] {
        end.extend_from_slice(section)?;
    }
    Ok(end)
}

/// Returns the header of `row`. Sections 1 to 4 are empty, and section 5 has `cells` bytes.
fn header_of(alloc: Global, row: &Row, cells: u64) -> Result<Vec<u8>, AllocError> {
    let Row {
        numbers,
        lengths,
        ..
    } = *row;
    let mut header = Vec::new(alloc);
    header.extend_from_slice(START)?;
    header.extend_from_slice(numbers)?;
    header.extend_from_slice(&[0; 32])?;
    header.extend_from_slice(&cells.to_le_bytes())?;
    header.extend_from_slice(lengths)?;
    Ok(header)
}

/// Returns whether `image` has the header, sections and checksum of `row`. The number of its cells
/// is not specified.
fn is_image(alloc: Global, image: &[u8], row: &Row) -> Result<bool, AllocError> {
    let end = end_of(alloc, row)?;
    let around = HEADER_LENGTH + DIGEST_LENGTH + end.len();
    let cells = image.len().saturating_sub(around) as u64;
    let header = header_of(alloc, row, cells)?;
    let body = &image[..image.len().saturating_sub(DIGEST_LENGTH)];
    let framed = cells % 8 == 0 && image.starts_with(&header) && body.ends_with(&end);
    Ok(framed && image.ends_with(&Sha256::digest(body)))
}

#[test]
fn user_images(rt: HostRuntime) -> Result<(), Fail> {
    for row in &ROWS {
        let image = user_image(rt.alloc(), row.sizes, row.lines)?;
        assert!(rt; is_image(rt.alloc(), &image, row)?, "{}", row.what);
    }
    Ok(())
}
