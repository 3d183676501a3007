//! Surfaces whose words come from the same entries.

ghost use Rattle.std.specs.Prelude.{◌≡◌, IsTrue};
ghost use Rattle.mj_model.specs.declared.paths.entry_list.EntryList.TheVariants.{Categories};
ghost use Rattle.word_lookup.specs.SameEntries.{HaveSameEntries};

use mj_model::paths::{EntryList, Surface};

/// Returns whether the words of two surfaces come from the same unknown entries. Unknown words of
/// one position and category have several lengths, but the same entries.
pub fn have_same_unknown_entries(one: &Surface, other: &Surface) -> bool
    ensures { IsTrue result → HaveSameEntries one.now other.now }
{
    is_unknown(one.list)
        && is_unknown(other.list)
        && one.first == other.first
        && one.count == other.count
}

/// Returns whether a list has the unknown entries.
fn is_unknown(list: EntryList) -> bool
    ensures { IsTrue result → list ≡ Categories }
{
    match list {
        EntryList::Lexicon(_) => false,
        EntryList::Categories => true,
    }
}
