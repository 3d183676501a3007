//! A whole image.
ghost use Rattle.std.specs.Prelude.{◌≡◌, ◌≤◌, ◌^◌, ◌++◌, flat_map, length, map, IfOk, OnOk};
ghost use Rattle.image_writer.specs.Frames.{IsFramed, IsHeaderFor, all_sections, sections_with};
ghost use Rattle.image_writer.specs.StoredTables.{cost_section};
ghost use Rattle.image_writer.specs.Places.{joined_texts};

use crate::costs::append_costs;
use crate::header::append_header;
use crate::lexicon_bytes::LexiconBytes;
use image_format::{DIGEST_LENGTH, HEADER_LENGTH, Header};
use sha2::{Digest, Sha256};
use std::alloc::{AllocError, Global};

/// Returns the image of a header, connection costs, the six sections that follow them, and
/// features. Appends the SHA-256. (The layout is this project's own) Fails only if an allocation
/// fails.
pub fn write_image(
    alloc: Global,
    header: Header,
    costs: &[i16],
    sections: &[&[u8]; 6],
    features: &[&str],
) -> Result<Vec<u8>, AllocError>
    requires { IsHeaderFor (all_sections costs.now sections.now features.now) header }
    ensures { IfOk result (λ image. IsFramed header
        (all_sections costs.now sections.now features.now) image.items) }
{
    let mut image = Vec::with_capacity(alloc, image_length(&header.lengths))?;
    append_header(header, &mut image)?;
    append_costs(costs, &mut image)?;
    append_sections(sections, &mut image)?;
    append_texts(features, &mut image)?;
    let digest = Sha256::digest(&image);
    image.extend_from_slice(&digest)?;
    Ok(image)
}

/// Returns the lengths of the sections of an image in bytes.
pub(crate) fn section_lengths(
    costs: &[i16],
    categories: &[u8],
    ranges: &[u8],
    index: &[u8],
    lexicon: &LexiconBytes<'_>,
) -> [u64; 8]
    requires few { length costs.now ≤ 2 ^ 30 }
    ensures { result ≡ map length
        (sections_with (cost_section costs.now) categories.now ranges.now index.now lexicon.now) }
{
    [
        2 * costs.len() as u64,
        categories.len() as u64,
        ranges.len() as u64,
        index.len() as u64,
        lexicon.keys.len() as u64,
        lexicon.groups.len() as u64,
        lexicon.tokens.len() as u64,
        lexicon.feature_size as u64,
    ]
}

/// Returns the length in bytes of an image with sections of these lengths, so that one allocation
/// suffices.
fn image_length(lengths: &[u64; 8]) -> usize {
    lengths
        .iter()
        .fold(HEADER_LENGTH + DIGEST_LENGTH, |sum, length| {
            sum.saturating_add(*length as usize)
        })
}

fn append_sections(sections: &[&[u8]; 6], image: &mut Vec<u8>) -> Result<(), AllocError>
    ensures { OnOk result (image.new.items
        ≡ image.old.items ++ flat_map (λ section. section.now) sections.now) }
{
    for section in sections {
        image.extend_from_slice(section)?;
    }
    Ok(())
}

/// Appends texts without separators.
fn append_texts(texts: &[&str], image: &mut Vec<u8>) -> Result<(), AllocError>
    ensures { OnOk result (image.new.items ≡ image.old.items ++ joined_texts texts.now) }
{
    for text in texts {
        image.extend_from_slice(text.as_bytes())?;
    }
    Ok(())
}
