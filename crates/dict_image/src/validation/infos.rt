//! Tests of the categories of code points in section 3.
ghost use Rattle.std.specs.Prelude.{◌≤◌, ◌↔◌, IsTrue};
ghost use Rattle.image_format.specs.ImageFaults.{AreInfos};
ghost use Rattle.image_format.specs.ImageSections.{info_of_entry};
ghost use Rattle.mj_model.specs.CharDef.{IsInfoOf};
ghost use Rattle.image_format.specs.OlderSections.{AreEntries, AreEntriesOf, AreFilled};
ghost use Rattle.mj_model.specs.declared.limits.TheConstants.{CATEGORIES_MAX as CategoriesMax};

use crate::validation::ranges::are_ranges;
use image_format::{InfoForm, OWN_ENTRIES, u32_at};

/// Returns whether section 3 is well formed in the given form. `categories`, at most
/// `CATEGORIES_MAX`, is the exclusive limit on category numbers.
pub(crate) fn are_infos(form: InfoForm, categories: u32, infos: &[u8]) -> bool
    requires { categories ≤ CategoriesMax }
    ensures { IsTrue result ↔ AreInfos form categories infos.now }
{
    match form {
        InfoForm::Listed => are_entries(categories, infos),
        InfoForm::Ranges => are_ranges(categories, infos),
    }
}

/// Returns whether there is an entry of 4 bytes for each code point up to U+FFFE, with categories
/// below `categories` alone.
fn are_entries(categories: u32, entries: &[u8]) -> bool
    requires { categories ≤ CategoriesMax }
    ensures { IsTrue result ↔ AreEntries categories entries.now }
{
    entries.len() == 4 * OWN_ENTRIES as usize && are_entries_of(categories, entries)
}

/// Returns whether each entry has only categories below `categories`.
fn are_entries_of(categories: u32, entries: &[u8]) -> bool
    requires few { categories ≤ CategoriesMax }
    requires fill { AreFilled entries.now }
    ensures { IsTrue result ↔ AreEntriesOf categories entries.now }
{
    for i in 0..OWN_ENTRIES as usize {
        if !is_char_info(categories, u32_at(entries, 4 * i)) {
            return false;
        }
    }
    true
}

/// Returns whether the set of an entry has only categories below `categories`, and the entry's
/// first category is in the set. `categories` is at most `CATEGORIES_MAX`.
pub(crate) fn is_char_info(categories: u32, entry: u32) -> bool
    requires { categories ≤ CategoriesMax }
    ensures { IsTrue result ↔ IsInfoOf categories (info_of_entry entry) }
{
    let bits = entry % (1 << 18);
    let head = entry >> 18;
    if head >= categories {
        return false;
    }
    bits < 1 << categories && (bits >> head) & 1 == 1
}
