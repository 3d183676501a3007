//! Dictionaries of the sample's sources with changes, and texts of one letter.

use crate::samples::images::{image, image_with, loaded, loaded_in, user_image};
use dict_image::Dict;
use mj_model::Sources;
use std::alloc::Global;
use std::str;
use std::string::String;
use std::test::Fail;

/// Returns the dictionary compiled from `sources`.
pub fn system_dict(alloc: Global, sources: &Sources<'_>) -> Result<Dict, Fail> {
    loaded(alloc, image(alloc, sources)?)
}

/// Returns the dictionary of the sample's sources with `lines` appended to `char.def`, and with
/// `lexicons`.
pub fn system(alloc: Global, lines: &str, lexicons: &[&[u8]]) -> Result<Dict, Fail> {
    loaded(alloc, image_with(alloc, lines, lexicons)?)
}

/// Returns the dictionary of the sample's sources with `lines` appended to `char.def` and with
/// `lexicons`, loaded from an image of layout `layout`.
///
/// `surfaces` are the surfaces of `lexicons`, each once, in rising byte order.
pub fn system_in(
    alloc: Global,
    layout: u32,
    lines: &str,
    lexicons: &[&[u8]],
    surfaces: &[&str],
) -> Result<Dict, Fail> {
    let image = image_with(alloc, lines, lexicons)?;
    loaded_in(alloc, layout, &image, surfaces)
}

/// Returns the user dictionary of `lexicon`, compiled for `system`.
pub fn user(alloc: Global, system: &Dict, lexicon: &str) -> Result<Dict, Fail> {
    loaded(alloc, user_image(alloc, system, lexicon)?)
}

/// Returns a text of `count` letters `z`.
pub fn letters(alloc: Global, count: usize) -> Result<String, Fail> {
    let bytes = Vec::from_elem(alloc, b'z', count)?;
    Ok(String::from_str(alloc, str::from_utf8(&bytes)?)?)
}
