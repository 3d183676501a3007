//! Section 4: the unknown tokens of each category.
ghost use Rattle.std.specs.Prelude.{◌≡◌, ◌≤◌, length, IfOk};
ghost use Rattle.std.specs.List.{sum_by};
ghost use Rattle.mj_model.specs.declared.limits.TheConstants.{ENTRIES_MAX as EntriesMax};
ghost use Rattle.image_writer.specs.StoredTables.{AreUnknownOf};

use char_def::UnkTable;
use std::alloc::{AllocError, Global};

/// Returns the first unknown token of each category and, after them, the number of all tokens, 4
/// bytes each. `entries` is the number of lexicon entries, whose tokens precede the unknown ones.
/// Fails only if an allocation fails.
pub(crate) fn write_unknown_index(
    alloc: Global,
    unknown: &UnkTable<'_>,
    entries: usize,
) -> Result<Vec<u8>, AllocError>
    requires { entries ≤ EntriesMax }
    ensures { IfOk result (λ bytes. AreUnknownOf entries unknown.now bytes.items) }
{
    let mut bytes = Vec::new(alloc);
    let mut next = entries;
    for category in 0..unknown.count() {
        bytes.extend_from_slice(&(next as u32).to_le_bytes())?;
        next += unknown.lines(category).len();
    }
    bytes.extend_from_slice(&(next as u32).to_le_bytes())?;
    Ok(bytes)
}

/// Returns the number of unknown entries in all categories.
pub(crate) fn unknown_count(unknown: &UnkTable<'_>) -> usize
    ensures count { result ≡ sum_by length unknown.now }
    ensures few { result ≤ EntriesMax }
{
    let mut count = 0;
    for category in 0..unknown.count() {
        count += unknown.lines(category).len();
    }
    count
}
