//! The tokens of an image.
ghost use Rattle.std.specs.Prelude.{◌≡◌, length};
ghost use Rattle.image_writer.specs.Places.{joined_texts};

/// Tokens of 16 bytes, and their distinct features.
#[derive(Drop)]
pub(crate) struct TokenBytes<'a> {
    pub tokens: Vec<u8>,
    pub features: Vec<&'a str>,
    /// The length of all features in bytes.
    pub feature_size: usize,
    ghost long: { feature_size ≡ length (joined_texts features.items) },
}
