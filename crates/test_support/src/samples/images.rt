//! Images and their dictionaries, for tests that need no contracts about their contents.

use crate::samples::layouts::in_layout;
use dict_compile::{compile, compile_user};
use dict_image::{Dict, load};
use mj_model::{Sources, sample};
use std::alloc::{AllocError, Global};
use std::test::Fail;

/// Returns the image compiled from `sources`.
pub fn image(alloc: Global, sources: &Sources<'_>) -> Result<Vec<u8>, Fail> {
    Ok(compile(alloc, sources)?.image)
}

/// Returns the sample's `char.def` with `lines` appended.
pub fn chars_with(alloc: Global, lines: &str) -> Result<Vec<u8>, AllocError> {
    let mut chars = Vec::from_slice(alloc, sample().chars)?;
    chars.extend_from_slice(lines.as_bytes())?;
    Ok(chars)
}

/// Returns the image of the sample's sources with `lines` appended to `char.def`, and with
/// `lexicons`.
pub fn image_with(alloc: Global, lines: &str, lexicons: &[&[u8]]) -> Result<Vec<u8>, Fail> {
    let chars = chars_with(alloc, lines)?;
    let sources = Sources {
        chars: &chars,
        lexicons,
        ..sample()
    };
    image(alloc, &sources)
}

/// Returns the image of the user lexicon `lexicon`, compiled for `system`.
pub fn user_image(alloc: Global, system: &Dict, lexicon: &str) -> Result<Vec<u8>, Fail> {
    Ok(compile_user(alloc, system, &[lexicon.as_bytes()])?.image)
}

/// Returns the dictionary loaded from `image`.
pub fn loaded(alloc: Global, image: Vec<u8>) -> Result<Dict, Fail> {
    Ok(load(alloc, image)?)
}

/// Returns the dictionary loaded from `image` after its conversion to layout `layout`.
///
/// `surfaces` are the surfaces of its lexicons, each once, in rising byte order.
pub fn loaded_in(
    alloc: Global,
    layout: u32,
    image: &[u8],
    surfaces: &[&str],
) -> Result<Dict, Fail> {
    loaded(alloc, in_layout(alloc, image, layout, surfaces)?)
}
