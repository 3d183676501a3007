//! Tests of sections 5 to 8: keys, groups, tokens and features.
ghost use Rattle.image_format.specs.declared.layout.KeyForm.TheVariants.{Cells};
ghost use Rattle.image_format.specs.ImageFaults.{IsHeader, key_tests, token_tests};
ghost use Rattle.image_format.specs.Layouts.{key_form};
ghost use Rattle.dict_image.specs.Validation.Checks.{PassFaultOrMemory, KeysResult};

use crate::validation::index::is_index;
use crate::validation::keys::first_without_key;
use crate::validation::listed::starts_of;
use crate::validation::outline::Keys;
use crate::validation::tokens::{first_misfit, first_without_feature};
use crate::validation::values::value_places;
use image_format::{Header, ImageCells, KeyForm};
use mj_model::ImageFault;
use std::alloc::Global;

/// Tests the keys. Returns the method of looking them up.
pub(crate) fn check_keys(alloc: Global, header: &Header, keys: &[u8]) -> Result<Keys, ImageFault>
    ensures { KeysResult (key_form header.now.layout) header.now.groups keys.now result }
{
    match header.key_form() {
        KeyForm::Listed => Ok(Keys::Listed(starts_of(alloc, header.groups, keys)?)),
        KeyForm::Cells => {
            check_cells(alloc, header.groups, keys)?;
            Ok(Keys::Cells)
        }
    }
}

/// Tests the cells, and that each group has a key.
fn check_cells(alloc: Global, groups: u32, cells: &[u8]) -> Result<(), ImageFault>
    ensures { PassFaultOrMemory (key_tests Cells groups cells.now) result }
{
    let Some(places) = value_places(alloc, groups, cells)? else {
        return Err(ImageFault::BadSection(5));
    };
    match first_without_key(alloc, groups, &ImageCells { bytes: cells }, &places)? {
        None => Ok(()),
        Some(group) => Err(ImageFault::BadKey(group)),
    }
}

/// Tests the group index, each token and each feature.
pub(crate) fn check_tokens(
    alloc: Global,
    header: &Header,
    groups: &[u8],
    tokens: &[u8],
    features: &[u8],
) -> Result<(), ImageFault>
    requires { IsHeader header.now }
    ensures { PassFaultOrMemory (token_tests header.now groups.now tokens.now features.now) result }
{
    let count = header.tokens + header.unknown;
    if !is_index(header.groups, 0, header.tokens as usize, groups) {
        return Err(ImageFault::BadSection(6));
    }
    if tokens.len() != 16 * count as usize {
        return Err(ImageFault::BadSection(7));
    }
    if let Some(token) = first_misfit(header.sizes, count, tokens) {
        return Err(ImageFault::BadToken(token));
    }
    match first_without_feature(alloc, count, tokens, features)? {
        Some(token) => Err(ImageFault::BadText(token)),
        None => Ok(()),
    }
}
