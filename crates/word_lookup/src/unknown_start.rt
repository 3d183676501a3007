//! The start of the unknown words of a position.

ghost use Rattle.std.specs.Prelude.{◌≡◌, ◌<◌, length};
ghost use Rattle.std.specs.Char.{len_utf8};
ghost use Rattle.std.proofs.Props.{props};
ghost use Rattle.image_format.specs.ImageMeaning.{image_tables};
ghost use Rattle.mj_model.specs.Tables.{System};
ghost use Rattle.word_lookup.specs.CategoryScans.{IsFirst};

use crate::word_start::WordStart;
use dict_image::Dict;
use mj_model::CharInfo;

/// The start of the unknown words of a position, with the first character there and its categories.
#[derive(Clone, Copy)]
pub struct UnknownStart<'a> {
    pub system: &'a Dict,
    pub at: WordStart<'a>,
    pub first: char,
    /// The length of the first character in bytes.
    pub bytes: usize,
    pub info: CharInfo,
    ghost is_system: { (image_tables system.now).kind ≡ System } by { Prim.hlevel props },
    ghost is_first: { IsFirst at.rest.now first (len_utf8 first) } by { Prim.hlevel props },
    ghost bytes_are: { bytes ≡ len_utf8 first } by { Prim.hlevel props },
    ghost info_is: { info ≡ (image_tables system.now).info first } by { Prim.hlevel props },
    ghost has_category: { info.head < length (image_tables system.now).categories } by { Prim.hlevel props },
}
