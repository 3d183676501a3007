//! Entries with consecutive numbers.

/// Consecutive entries of one dictionary, by their numbers: `count` of them from `first` on.
#[derive(Clone, Copy, Debug, PartialEq, Eq, Drop)]
pub struct EntryRange {
    /// Number of the first entry.
    pub first: u32,
    /// Number of entries.
    pub count: u32,
}
