//! The sections that hold a lexicon, before they are part of an image.
ghost use Rattle.std.specs.Prelude.{◌≡◌, length};
ghost use Rattle.image_writer.specs.Places.{joined_texts};

/// The bytes of sections 5 to 7, the features of section 8, and the number of groups (distinct
/// surfaces).
#[derive(Drop)]
pub(crate) struct LexiconBytes<'a> {
    /// The double array that maps each surface to its group, 8 bytes a cell.
    pub keys: Vec<u8>,
    /// The first token of each group, and the number of the lexicon's tokens, 4 bytes each.
    pub groups: Vec<u8>,
    /// Tokens of 16 bytes.
    pub tokens: Vec<u8>,
    /// The distinct features, in the order of their first tokens.
    pub features: Vec<&'a str>,
    /// The length of all features in bytes.
    pub feature_size: usize,
    pub group_count: u32,
    ghost long: { feature_size ≡ length (joined_texts features.items) },
}
