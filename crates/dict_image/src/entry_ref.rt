//! Tokens of an image as entries.
ghost use Rattle.std.specs.Prelude.{◌≡◌, ◌+◌, ◌*◌, ◌≤◌, length, IsUtf8};
ghost use Rattle.image_format.specs.ImageSections.{HasFeature, stored_token, token_from};
ghost use Rattle.dict_image.specs.Views.{token_view};

use image_format::{i16_at, u16_at, u32_at};
use std::str::from_utf8_unchecked;

/// The properties of a word besides its surface, read from the image in place. (MeCab, dic-detail)
#[derive(Clone, Copy, Debug, PartialEq, Eq, Drop)]
pub struct EntryRef<'a> {
    /// Left id.
    pub left: u16,
    /// Right id.
    pub right: u16,
    /// Word cost.
    pub cost: i16,
    /// Feature, without the surface.
    pub feature: &'a str,
    /// Number of the entry in its dictionary. (This project's own choice)
    pub token: u32,
}

/// Returns token `i` of the section `tokens`, with its feature from the section `features`.
pub(crate) fn token_at<'a>(tokens: &[u8], features: &'a [u8], i: u32) -> EntryRef<'a>
    requires token { 16 * (i + 1) ≤ length tokens.now }
    requires feature { HasFeature features.now (stored_token tokens.now i) }
    ensures { token_view result ≡ token_from tokens.now features.now i }
{
    let at = 16 * i as usize;
    let start = u32_at(tokens, at + 8) as usize;
    let length = u32_at(tokens, at + 12) as usize;
    EntryRef {
        left: u16_at(tokens, at),
        right: u16_at(tokens, at + 2),
        cost: i16_at(tokens, at + 4),
        feature: text(&features[start..start + length]),
        token: i,
    }
}

/// Returns bytes that are known to be UTF-8 as a `str`.
pub(crate) fn text(bytes: &[u8]) -> &str
    requires { IsUtf8 bytes.now }
    ensures { result.now ≡ bytes.now }
{
    unsafe { from_utf8_unchecked(bytes) }
}
