//! Positions of features.

/// The position of a feature in the features section: its start and length in bytes.
#[derive(Clone, Copy, Debug, Drop)]
pub(crate) struct FeaturePlace {
    /// Offset of the first byte.
    pub start: u32,
    /// Length in bytes.
    pub length: u32,
}
