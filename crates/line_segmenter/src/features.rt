//! Appends features of words and entries.

ghost use Rattle.std.specs.Prelude.{◌≡◌, ◌+◌, ◌<◌, ◌++◌, length, vec_capacity, vec_len, OnOk, OnErr};
ghost use Rattle.line_segmenter.specs.PathEnds.{features_of};
ghost use Rattle.mj_model.specs.Printed.{feature_of};
ghost use Rattle.word_lookup.specs.Overlays.{overlay_of};

use mj_model::{Origin, Word};
use std::alloc::AllocError;
use word_lookup::Dictionaries;

/// Appends the features of `words`, concatenated. On an error `out` is unchanged, and its capacity
/// is too small for them.
pub fn append_features(
    dictionaries: &Dictionaries<'_>,
    words: &[Word],
    out: &mut Vec<u8>,
) -> Result<(), AllocError>
    ensures appended { OnOk result
        (out.new.items ≡ out.old.items ++ features_of (overlay_of dictionaries.now) words.now) }
    ensures unchanged { OnErr result (out.new.items ≡ out.old.items) }
    ensures full { OnErr result (vec_capacity out.old
        < vec_len out.old + length (features_of (overlay_of dictionaries.now) words.now)) }
{
    let count = out.len();
    for word in words {
        if let Err(rejected) = out.extend_from_slice(dictionaries.feature(word).as_bytes()) {
            out.truncate(count);
            return Err(rejected);
        }
    }
    Ok(())
}

/// Appends the feature of the entry `origin`. On an error `out` is unchanged, and its capacity is
/// too small for it.
pub fn append_feature_of(
    dictionaries: &Dictionaries<'_>,
    origin: Origin,
    out: &mut Vec<u8>,
) -> Result<(), AllocError>
    ensures appended { OnOk result
        (out.new.items ≡ out.old.items ++ feature_of (overlay_of dictionaries.now) origin) }
    ensures unchanged { OnErr result (out.new.items ≡ out.old.items) }
    ensures full { OnErr result (vec_capacity out.old
        < vec_len out.old + length (feature_of (overlay_of dictionaries.now) origin)) }
{
    let word = word_of(origin);
    out.extend_from_slice(dictionaries.feature(&word).as_bytes())
}

/// Returns a word of the entry `origin` without a surface, because features are looked up by word.
fn word_of(origin: Origin) -> Word
    ensures { result.origin ≡ origin }
{
    Word {
        place: 0,
        start: 0,
        end: 0,
        left: 0,
        right: 0,
        cost: 0,
        origin,
    }
}
