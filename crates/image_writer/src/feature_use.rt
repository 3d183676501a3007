//! Uses of features.
ghost use Rattle.std.specs.Prelude.{◌≡◌};
ghost use Rattle.image_writer.specs.Marks.{mark_of_bytes};

/// The use of a feature by an entry: the feature with its hash (`mark`), and the number of the
/// entry.
#[derive(Drop)]
pub(crate) struct FeatureUse<'a> {
    pub mark: u64,
    pub feature: &'a str,
    pub entry: usize,
    ghost marked: { mark ≡ mark_of_bytes feature.now },
}
