//! Prints the items of a line as a whole.

ghost use Rattle.std.specs.Prelude.{◌≡◌};

use crate::appending::{append_bytes, append_cost, append_count};
use crate::item_printer::ItemPrinter;
use mj_model::FormatItem;
use std::alloc::AllocError;

/// A line, and the cost of its path so far: 0 before the first word.
#[derive(Clone, Copy)]
pub struct Line<'a> {
    pub text: &'a str,
    pub cost: i64,
}

impl<'a> ItemPrinter for Line<'a> {
    ghost use Rattle.out_format.specs.PrintedPaths.{line_item};

    ghost is_printable = { λ line. Unit {0} };

    ghost prints = { λ line item shown. shown ≡ line_item line.text.now line.cost item };

    fn append_item(&self, item: FormatItem, out: &mut Vec<u8>) -> Result<(), AllocError> {
        match item {
            FormatItem::Sentence => append_bytes(self.text.as_bytes(), out),
            FormatItem::SentenceLength => append_count(self.text.len(), out),
            FormatItem::CostSoFar => append_cost(self.cost, out),
            FormatItem::Percent => append_bytes(b"%", out),
            _ => Ok(()),
        }
    }
}
