//! The parts of a parsed format text.

use mj_model::FormatItem;

/// A run of bytes that are printed unchanged, or an item.
#[derive(Debug, Drop)]
pub enum Part {
    Bytes(Vec<u8>),
    Item(FormatItem),
}
