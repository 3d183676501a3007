//! Entries of a lexicon.
ghost use Rattle.std.specs.Prelude.{IsUtf8};
ghost use Rattle.std.specs.Cow.{cow_str_bytes};
ghost use Rattle.std.proofs.Props.{props};

use std::alloc::Global;
use std::borrow::CowStr;

/// The fields of a lexicon line after its surface.
///
/// `left` and `right` are the left id and the right id. `cost` is the word cost; lower costs are
/// preferred. (MeCab, dic-detail)
#[derive(Debug, Drop)]
pub struct Entry<'a> {
    pub left: u16,
    pub right: u16,
    pub cost: i16,
    pub feature: &'a str,
}

/// An accepted line of a lexicon, which borrows the bytes of the line. `line` is its number in its
/// file, counted from 1.
#[derive(Debug, Drop)]
pub struct Record<'a> {
    pub line: u64,
    /// Owned only if the line quotes the surface, and borrowed otherwise.
    pub surface: CowStr<'a, Global>,
    pub entry: Entry<'a>,
    ghost is_text: { IsUtf8 (cow_str_bytes surface) } by { Prim.hlevel props },
}
