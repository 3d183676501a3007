//! Images of layouts 1 and 2, converted from images of layout 3.

use image_format::{HEADER_LENGTH, OWN_ENTRIES, read_header, section_ends};
use std::alloc::{AllocError, Global};

/// The surfaces of the sample's lexicon, in rising byte order.
pub const SURFACES: &[&str] = &["すもも", "も", "もも"];

/// Returns `image`, which has layout 3, in layout `layout`.
///
/// `surfaces` are the surfaces of its lexicons, each once, in rising byte order. Layout 1 lists
/// them.
pub fn in_layout(
    alloc: Global,
    image: &[u8],
    layout: u32,
    surfaces: &[&str],
) -> Result<Vec<u8>, AllocError> {
    if layout == 3 {
        return Vec::from_slice(alloc, image);
    }
    let [
        costs,
        categories,
        ranges,
        index,
        cells,
        groups,
        tokens,
        features,
    ] = sections_of(image);
    let infos = listed_infos(alloc, ranges)?;
    let listed = listed_keys(alloc, surfaces)?;
    let keys = if layout == 1 {
        listed.as_slice()
    } else {
        cells
    };
    let mut bytes = Vec::new(alloc);
    bytes.extend_from_slice(image.get(..8).unwrap_or(b""))?;
    bytes.extend_from_slice(&layout.to_le_bytes())?;
    bytes.extend_from_slice(image.get(12..40).unwrap_or(b""))?;
    let infos = infos.as_slice();
    push_sections(
        &mut bytes,
        [
            costs, categories, infos, index, keys, groups, tokens, features,
        ],
    )?;
    Ok(bytes)
}

/// Appends the length of each section, then the sections.
fn push_sections(bytes: &mut Vec<u8>, sections: [&[u8]; 8]) -> Result<(), AllocError> {
    for section in sections {
        bytes.extend_from_slice(&(section.len() as u64).to_le_bytes())?;
    }
    for section in sections {
        bytes.extend_from_slice(section)?;
    }
    Ok(())
}

/// Returns sections 1 to 8 of `image`, or empty ones if its header is invalid.
fn sections_of(image: &[u8]) -> [&[u8]; 8] {
    let mut sections = [b"".as_slice(); 8];
    if image.len() < HEADER_LENGTH {
        return sections;
    }
    let Some(ends) = section_ends(&read_header(image)) else {
        return sections;
    };
    for k in 0..8 {
        sections[k] = image.get(ends[k]..ends[k + 1]).unwrap_or(b"");
    }
    sections
}

/// Returns the entry of each code point below `OWN_ENTRIES`, as layouts 1 and 2 list them.
///
/// `ranges` is the section of layout 3 that lists ranges. In a user image it is empty, and so is
/// the result.
fn listed_infos(alloc: Global, ranges: &[u8]) -> Result<Vec<u8>, AllocError> {
    let mut infos = Vec::new(alloc);
    for code in 0..OWN_ENTRIES {
        infos.extend_from_slice(info_of(ranges, code))?;
    }
    Ok(infos)
}

/// Returns the entry of the last range that starts at or before the code point `code`.
fn info_of(ranges: &[u8], code: u32) -> &[u8] {
    let mut info = b"".as_slice();
    for range in ranges.chunks(8) {
        if number(range.get(..4).unwrap_or(b"")) <= code {
            info = range.get(4..).unwrap_or(b"");
        }
    }
    info
}

/// Returns the value of `bytes` in little-endian order.
fn number(bytes: &[u8]) -> u32 {
    bytes
        .iter()
        .rev()
        .fold(0, |number: u32, byte| (number << 8) | u32::from(*byte))
}

/// Returns `surfaces` as layout 1 lists keys: each after its length in bytes.
fn listed_keys(alloc: Global, surfaces: &[&str]) -> Result<Vec<u8>, AllocError> {
    let mut keys = Vec::new(alloc);
    for surface in surfaces {
        let length = u16::try_from(surface.len()).unwrap_or(u16::MAX);
        keys.extend_from_slice(&length.to_le_bytes())?;
        keys.extend_from_slice(surface.as_bytes())?;
    }
    Ok(keys)
}
