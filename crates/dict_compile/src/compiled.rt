//! The result of a compilation.

/// An image, and statistics of its sources.
#[derive(Debug, Drop)]
pub struct Compiled {
    /// The bytes of the image.
    pub image: Vec<u8>,
    /// The number of lexicon entries.
    pub entries: u64,
    /// The number of lexicon lines that were skipped because their surface is empty.
    pub skipped: u128,
}
