//! Tests of tokens and their features.
ghost use Rattle.std.specs.Prelude.{◌≡◌, ◌+◌, ◌*◌, ◌≤◌, ◌↔◌, length, IsTrue, IfOk};
ghost use Rattle.dict_image.specs.Validation.Checks.{IsLeastOrNone};
ghost use Rattle.image_format.specs.ImageSections.{FitsSizes, HasFeature, stored_token};

use crate::validation::characters::Characters;
use image_format::{u16_at, u32_at};
use mj_model::MatrixSizes;
use std::alloc::{AllocError, Global};

/// Returns the first of `count` tokens that has an id outside the sizes, or spare bytes other than
/// 0.
pub(crate) fn first_misfit(sizes: MatrixSizes, count: u32, tokens: &[u8]) -> Option<u32>
    requires { length tokens.now ≡ 16 * count }
    ensures { IsLeastOrNone count (λ i. FitsSizes sizes (stored_token tokens.now i)) result }
{
    for token in 0..count {
        if !fits_sizes(sizes, tokens, token as usize) {
            return Some(token);
        }
    }
    None
}

/// Returns whether the ids of a token are within the sizes, and its spare bytes are 0.
fn fits_sizes(sizes: MatrixSizes, tokens: &[u8], token: usize) -> bool
    requires { 16 * token + 16 ≤ length tokens.now }
    ensures { IsTrue result ↔ FitsSizes sizes (stored_token tokens.now token) }
{
    let at = 16 * token;
    u32::from(u16_at(tokens, at)) < sizes.left
        && u32::from(u16_at(tokens, at + 2)) < sizes.right
        && u16_at(tokens, at + 6) == 0
}

/// Returns the first of `count` tokens whose feature lies outside `features` or is not UTF-8.
pub(crate) fn first_without_feature(
    alloc: Global,
    count: u32,
    tokens: &[u8],
    features: &[u8],
) -> Result<Option<u32>, AllocError>
    requires { length tokens.now ≡ 16 * count }
    ensures { IfOk result
        (IsLeastOrNone count (λ i. HasFeature features.now (stored_token tokens.now i))) }
{
    let features = Characters::read(alloc, features)?;
    Ok(without_feature(count, tokens, &features))
}

/// Returns the first of `count` tokens whose feature lies outside the decoded `features` or is not
/// UTF-8.
fn without_feature(count: u32, tokens: &[u8], features: &Characters<'_>) -> Option<u32>
    requires { length tokens.now ≡ 16 * count }
    ensures { IsLeastOrNone count (λ i. HasFeature features.now (stored_token tokens.now i))
        result }
{
    for token in 0..count {
        if !has_feature(tokens, token as usize, features) {
            return Some(token);
        }
    }
    None
}

/// Returns whether the feature of a token lies within `features`, and is UTF-8.
fn has_feature(tokens: &[u8], token: usize, features: &Characters<'_>) -> bool
    requires { 16 * token + 16 ≤ length tokens.now }
    ensures { IsTrue result ↔ HasFeature features.now (stored_token tokens.now token) }
{
    let at = 16 * token;
    let start = u32_at(tokens, at + 8) as usize;
    let end = start + u32_at(tokens, at + 12) as usize;
    end <= features.len() && features.is_text(start, end)
}
