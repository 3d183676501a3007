//! Runs of characters in which neighbors share a category.

ghost use Rattle.std.specs.Prelude.{◌≡◌, ◌&&◌, nat_le, nat_lt};

use mj_model::CharInfo;

/// The scanned part of a run of characters: the bytes from `from` to `to` of a text.
#[derive(Clone, Copy, Debug, Drop)]
pub struct CategoryScan {
    pub from: usize,
    pub to: usize,
    /// The number of scanned characters after the first one.
    pub following: usize,
    /// The categories of the last scanned character. The run continues if the next character shares
    /// one of them.
    pub last: CharInfo,
    /// Whether the run is known to end at `to`.
    pub is_whole: bool,
}

impl CategoryScan {
    /// Returns whether byte offset `place` lies in the scanned part.
    pub fn contains(self, place: usize) -> bool
        ensures { result ≡ (nat_le self.from place && nat_lt place self.to) }
    {
        self.from <= place && place < self.to
    }
}
