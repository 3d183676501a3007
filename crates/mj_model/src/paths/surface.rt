//! Words at a position that share one surface.

use crate::paths::entry_list::EntryList;

/// The words at byte offset `place` whose surface is the bytes from `start` to `end`.
///
/// Their entries are `count` consecutive entries of `list`, and the first has number `first`.
#[derive(Clone, Copy, Debug, PartialEq, Eq, Drop)]
pub struct Surface {
    pub list: EntryList,
    pub first: u32,
    pub count: u32,
    pub place: usize,
    pub start: usize,
    pub end: usize,
}
