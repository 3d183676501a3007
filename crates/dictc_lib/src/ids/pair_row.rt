//! The row of the entries with one pair of ids.

ghost use Rattle.std.specs.Prelude.{◌≡◌, ◌<◌, length, slice_get, Some};
ghost use Rattle.dictc_lib.specs.PairRows.{AreOfPair, IsRowOf};

use dict_image::IdsAndCost;

/// The number and the word costs of the entries with one pair of ids. The quartiles and the median
/// are the costs at the indices n/4, n/2 and 3n/4 of the n sorted costs, counted from 0 and rounded
/// down.
#[derive(Clone, Copy, Debug, PartialEq, Eq, Drop)]
pub struct PairRow {
    pub left: u16,
    pub right: u16,
    pub entries: usize,
    pub least: i16,
    pub lower_quartile: i16,
    pub median: i16,
    pub upper_quartile: i16,
    pub greatest: i16,
}

impl PairRow {
    /// Returns the row of `entries`, which have the same pair of ids and are sorted by cost.
    pub(crate) fn of(entries: &[IdsAndCost]) -> PairRow
        requires some { 0 < length entries.now }
        requires pair { AreOfPair entries.now }
        ensures { IsRowOf entries.now result }
    {
        let n = entries.len();
        let least = entry_at(entries, 0);
        let lower = entry_at(entries, n / 4);
        let median = entry_at(entries, n / 2);
        let upper = entry_at(entries, n / 4 * 3 + n % 4 * 3 / 4);
        let greatest = entry_at(entries, n - 1);
        PairRow {
            left: least.left,
            right: least.right,
            entries: n,
            least: least.cost,
            lower_quartile: lower.cost,
            median: median.cost,
            upper_quartile: upper.cost,
            greatest: greatest.cost,
        }
    }
}

/// Returns the entry at index `i`.
fn entry_at(entries: &[IdsAndCost], i: usize) -> &IdsAndCost
    requires { i < length entries.now }
    ensures { slice_get entries.now i ≡ Some result.now }
{
    &entries[i]
}
