//! The first entry with each feature.
ghost use Rattle.std.specs.Prelude.{◌≡◌, ◌<◌, ◌-◌, ℕ, List, All, ◌++◌, bytes_eq, length, IfOk, OnOk, slice_index};
ghost use Rattle.mj_model.specs.Lexicon.{rows_of};
ghost use Rattle.image_writer.specs.FirstUses.{AreFirstUses, AreNumbered, AreSortedUses, AreUses, IsFirstUse, IsWithin, entries_of, features_used, use_order};
ghost use Rattle.image_writer.specs.Sections.{features_of};

use crate::feature_use::FeatureUse;
use crate::mark::mark_of;
use mj_model::Record;
use std::alloc::{AllocError, Global};
use std::cmp::Ordering;

/// Appends the uses of the features of `records`.
pub(crate) fn append_uses<'a>(
    records: &[Record<'a>],
    uses: &mut Vec<FeatureUse<'a>>,
) -> Result<(), AllocError>
    ensures numbered { AreNumbered uses.old.items → OnOk result (AreNumbered uses.new.items) }
    ensures features { OnOk result (features_used uses.new.items
        ≡ features_used uses.old.items ++ features_of (rows_of records.now)) }
{
    for record in records {
        let feature = record.entry.feature;
        uses.push(FeatureUse {
            mark: mark_of(feature),
            feature,
            entry: uses.len(),
        })?;
    }
    Ok(())
}

/// Returns for each entry the number of the first entry with an equal feature. `uses` must be in
/// the order of the entries. Sorts them, so it takes n log n comparisons.
pub(crate) fn first_uses(
    alloc: Global,
    mut uses: Vec<FeatureUse<'_>>,
) -> Result<Vec<usize>, AllocError>
    requires { AreNumbered uses.items }
    ensures { IfOk result (λ firsts. AreFirstUses (features_used uses.entry.items) firsts.items) }
{
    uses.sort_unstable_by(by_feature);
    first_numbers(alloc, &uses)
}

/// Orders uses so that those of equal features are adjacent, in the order of their entries.
/// Compares hashes first, so that most features are not read.
fn by_feature(a: &FeatureUse<'_>, b: &FeatureUse<'_>) -> Ordering
    ensures { result ≡ use_order a.now b.now }
{
    match a.mark.cmp(&b.mark) {
        Ordering::Equal => match a.feature.cmp(b.feature) {
            Ordering::Equal => a.entry.cmp(&b.entry),
            other => other,
        },
        other => other,
    }
}

/// Returns for each entry the number of the first entry with an equal feature. `uses` must be
/// sorted by `by_feature`.
fn first_numbers(alloc: Global, uses: &[FeatureUse<'_>]) -> Result<Vec<usize>, AllocError>
    requires { All (IsWithin (length uses.now)) uses.now }
    ensures { (texts : List (List ℕ)) → AreUses texts uses.now → AreSortedUses uses.now
        → IfOk result (λ firsts. AreFirstUses texts firsts.items) }
{
    let mut firsts = vec![in alloc; 0; uses.len()]?;
    let mut first = 0;
    for k in 0..uses.len() {
        first = first_at(uses, k, first);
        firsts[uses[k].entry] = first;
    }
    Ok(firsts)
}

/// Returns the first entry with the feature of use `k`. `before` is the first entry with the
/// feature of the use before it.
fn first_at(uses: &[FeatureUse<'_>], k: usize, before: usize) -> usize
    requires { k < length uses.now }
    ensures { (texts : List (List ℕ)) → AreUses texts uses.now → AreSortedUses uses.now
        → (0 < k → IsFirstUse texts before (slice_index (entries_of uses.now) (k - 1)))
        → IsFirstUse texts result (slice_index (entries_of uses.now) k) }
{
    if k > 0 && have_one_feature(&uses[k], &uses[k - 1]) {
        before
    } else {
        uses[k].entry
    }
}

/// Returns whether two uses are of equal features.
fn have_one_feature(a: &FeatureUse<'_>, b: &FeatureUse<'_>) -> bool
    ensures { result ≡ bytes_eq a.now.feature.now b.now.feature.now }
{
    a.mark == b.mark && a.feature == b.feature
}
