//! The sample's dictionary, lookups in dictionaries, and changed bytes. Calls with large contracts
//! are wrapped here, so that each is proved once.
use dict_compile::{CompileUserFault, Compiled, compile, compile_user};
use dict_image::{Dict, EntryRef, load};
use mj_model::{ImageFault, SourceFault, Sources, sample};
use std::alloc::{AllocError, Global};
use std::test::Fail;

/// Returns the sample's sources with `lexicons`.
pub fn with_lexicons<'a>(lexicons: &'a [&'a [u8]]) -> Sources<'a> {
    Sources {
        lexicons,
        ..sample()
    }
}

/// Compiles the system dictionary of `sources`.
pub fn compiled_of(alloc: Global, sources: &Sources<'_>) -> Result<Compiled, SourceFault> {
    compile(alloc, sources)
}

/// Compiles the user dictionary of `lexicons` for `system`.
pub fn user_of(
    alloc: Global,
    system: &Dict,
    lexicons: &[&[u8]],
) -> Result<Compiled, CompileUserFault> {
    compile_user(alloc, system, lexicons)
}

/// Loads the dictionary of `image`.
pub fn dict_of(alloc: Global, image: Vec<u8>) -> Result<Dict, ImageFault> {
    load(alloc, image)
}

/// Returns the sample's image.
pub fn sample_image(alloc: Global) -> Result<Vec<u8>, SourceFault> {
    Ok(compiled_of(alloc, &sample())?.image)
}

/// Returns the sample's dictionary.
pub fn sample_dict(alloc: Global) -> Result<Dict, Fail> {
    Ok(dict_of(alloc, sample_image(alloc)?)?)
}

/// Returns the error of loading `image`, if there is one.
pub fn fault_of(alloc: Global, image: Vec<u8>) -> Option<ImageFault> {
    dict_of(alloc, image).err()
}

/// Returns the error of loading the first `length` bytes of `image`.
pub fn fault_of_front(
    alloc: Global,
    image: &[u8],
    length: usize,
) -> Result<Option<ImageFault>, AllocError> {
    let front = Vec::from_slice(alloc, image.get(..length).unwrap_or(b""))?;
    Ok(fault_of(alloc, front))
}

/// Returns the error of loading `image` with one more byte.
pub fn fault_of_longer(alloc: Global, image: &[u8]) -> Result<Option<ImageFault>, AllocError> {
    let mut longer = Vec::from_slice(alloc, image)?;
    longer.push(0)?;
    Ok(fault_of(alloc, longer))
}

/// An entry: its token, left id, right id, cost and feature.
pub type Expected = (u32, u16, u16, i16, &'static str);

/// No entries.
pub const NONE: &[Expected] = &[];

/// Returns whether `expected` are the entries of `key`.
pub fn are_entries(dict: &Dict, key: &str, expected: &[Expected]) -> bool {
    let mut entries = dict.entries(key);
    for wanted in expected {
        match entries.next() {
            Some(found) if is_entry(&found, wanted) => {}
            _ => return false,
        }
    }
    entries.next().is_none()
}

/// Returns whether `found` has this token, these ids, this cost and this feature.
pub fn is_entry(found: &EntryRef<'_>, expected: &Expected) -> bool {
    let (token, left, right, cost, feature) = *expected;
    found.token == token
        && found.left == left
        && found.right == right
        && found.cost == cost
        && found.feature == feature
}

/// Returns `bytes` with `byte` at position `at`.
pub fn with_byte(alloc: Global, bytes: &[u8], at: usize, byte: u8) -> Result<Vec<u8>, AllocError> {
    let mut new = Vec::from_slice(alloc, bytes)?;
    if let Some(place) = new.get_mut(at) {
        *place = byte;
    }
    Ok(new)
}
