//! Prints the items of a word in a format that uses only surfaces and features.

ghost use Rattle.std.specs.Prelude.{IsTrue, All};
ghost use Rattle.out_format.specs.Pieces.{pieces_in, pieces_of};
ghost use Rattle.out_format.specs.Plain.{IsPlain};

use crate::appending::append_bytes;
use crate::item_printer::ItemPrinter;
use crate::part::Part;
use mj_model::{FormatItem, Word};
use std::alloc::AllocError;
use word_lookup::Dictionaries;

/// A word of a line. Neither the cost of the path nor the fields of the feature are needed.
#[derive(Clone, Copy)]
pub struct PlainWord<'a, 'w> {
    pub dictionaries: &'a Dictionaries<'a>,
    pub text: &'a str,
    pub word: &'w Word,
}

impl<'a, 'w> ItemPrinter for PlainWord<'a, 'w> {
    ghost use Rattle.out_format.specs.Plain.{HasSurfaceIn, PrintsAnywhere};
    ghost use Rattle.word_lookup.specs.Overlays.{overlay_of};

    ghost is_printable = { λ w. HasSurfaceIn w.text.now w.word.now };

    ghost prints = { λ w. PrintsAnywhere (overlay_of w.dictionaries.now) w.text.now w.word.now };

    fn append_item(&self, item: FormatItem, out: &mut Vec<u8>) -> Result<(), AllocError> {
        let word = self.word;
        match item {
            FormatItem::Surface => append_bytes(&self.text.as_bytes()[word.start..word.end], out),
            FormatItem::Feature => append_bytes(self.dictionaries.feature(word).as_bytes(), out),
            _ => Ok(()),
        }
    }
}

/// Returns whether `parts` use no items but the surface and the feature.
pub fn are_plain(parts: &[Part]) -> bool
    ensures { IsTrue result → All IsPlain (pieces_of parts.now) }
{
    for part in parts {
        if !is_plain(part) {
            return false;
        }
    }
    true
}

/// Returns whether `part` is a run of bytes, a surface or a feature.
fn is_plain(part: &Part) -> bool
    ensures { IsTrue result → All IsPlain (pieces_in part.now) }
{
    match part {
        Part::Bytes(_) => true,
        Part::Item(item) => matches!(item, FormatItem::Surface | FormatItem::Feature),
    }
}
