//! The distinct features of a lexicon.
ghost use Rattle.std.specs.Prelude.{◌≡◌, ◌<◌, ◌++◌, ◌∷◌, [], length, slice_get, IfOk, IfErr, OnOk};
ghost use Rattle.image_format.specs.ImageBounds.{feature_bytes_end};
ghost use Rattle.image_writer.specs.Places.{joined_texts};

use crate::feature_place::FeaturePlace;
use image_format::FEATURE_BYTES_END;
use mj_model::SourceKind;
use std::alloc::{AllocError, Global};

/// Distinct features in the order of their first uses. The texts are borrowed from the sources
/// until an image is written.
#[derive(Drop)]
pub(crate) struct FeatureStore<'a> {
    pub texts: Vec<&'a str>,
    /// The length of all texts in bytes.
    pub size: usize,
    /// The position of each entry's feature, for the entries so far.
    pub places: Vec<FeaturePlace>,
    ghost long: { size ≡ length (joined_texts texts.items) },
    ghost few: { size < feature_bytes_end },
}

impl<'a> FeatureStore<'a> {
    ghost use Rattle.image_writer.specs.WriterErrors.{IsTokenFault, LargeOnlyOf, LargeOnlyWith};
    ghost use Rattle.image_writer.specs.Sections.{HoldsTexts, HoldsOneMore, IsPlaced, OnNextUse, features_in, place_after};

    /// Returns an empty store with room for the features of `entries` entries.
    pub(crate) fn new(alloc: Global, entries: usize) -> Result<FeatureStore<'a>, AllocError>
        ensures { IfOk result (HoldsTexts []) }
    {
        Ok(FeatureStore {
            texts: Vec::with_capacity(alloc, entries)?,
            size: 0,
            places: Vec::with_capacity(alloc, entries)?,
        })
    }

    /// Returns the position of the next entry's feature, and stores it in `places`. `first` is the
    /// number of the first entry with this feature.
    pub(crate) fn place_of(
        &mut self,
        feature: &'a str,
        first: usize,
    ) -> Result<FeaturePlace, SourceKind>
        ensures place { OnNextUse self.old feature.now first (λ texts.
            IfOk result (HoldsOneMore texts feature.now self.old self.new)) }
        ensures large { OnNextUse self.old feature.now first (λ texts.
            IfErr result (LargeOnlyOf (texts ++ feature.now ∷ []))) }
        ensures kinds { IfErr result IsTokenFault }
    {
        let place = self.found_or_added(feature, first)?;
        self.places.push(place)?;
        Ok(place)
    }

    /// Returns the position of a feature. Appends the feature to the texts if no earlier entry has
    /// it. `first` is the number of the first entry with this feature.
    fn found_or_added(&mut self, feature: &'a str, first: usize) -> Result<FeaturePlace, SourceKind>
        ensures place { OnNextUse self.old feature.now first (λ texts.
            IfOk result (IsPlaced texts feature.now self.old self.new)) }
        ensures large { OnNextUse self.old feature.now first (λ texts.
            IfErr result (LargeOnlyOf (texts ++ feature.now ∷ []))) }
        ensures kinds { IfErr result IsTokenFault }
    {
        match known_place(&self.places, first) {
            Some(place) => Ok(place),
            None => self.add(feature),
        }
    }

    /// Appends a feature to the texts. Returns its position, or `FeaturesTooLarge` if the features
    /// would have `FEATURE_BYTES_END` bytes or more.
    fn add(&mut self, feature: &'a str) -> Result<FeaturePlace, SourceKind>
        ensures added { OnOk result (features_in self.new ≡ features_in self.old ++ feature.now) }
        ensures place { IfOk result (λ place. place
            ≡ place_after (features_in self.old) feature.now) }
        ensures unchanged { self.new.places.items ≡ self.old.places.items }
        ensures large { IfErr result (LargeOnlyWith (features_in self.old) feature.now) }
        ensures kinds { IfErr result IsTokenFault }
    {
        if feature.len() >= FEATURE_BYTES_END - self.size {
            return Err(SourceKind::FeaturesTooLarge);
        }
        let place = FeaturePlace {
            start: self.size as u32,
            length: feature.len() as u32,
        };
        self.texts.push(feature)?;
        self.size += feature.len();
        Ok(place)
    }
}

/// Returns the position of an entry's feature, or None if the entry has not been added yet.
fn known_place(places: &[FeaturePlace], entry: usize) -> Option<FeaturePlace>
    ensures { result ≡ slice_get places.now entry }
{
    if entry < places.len() {
        Some(places[entry])
    } else {
        None
    }
}
