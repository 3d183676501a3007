//! The entries of a dictionary by number.

ghost use Rattle.std.specs.Prelude.{◌≡◌, ◌++◌, map, IfOk};
ghost use Rattle.dict_image.specs.Views.{token_view};
ghost use Rattle.dictc_lib.specs.Listings.{listed_tokens};

use dict_image::{Dict, EntryRef};
use std::alloc::AllocError;

/// Appends the entries of a dictionary in the order of their numbers. Entries of unknown words are
/// left out.
pub(crate) fn append_entries<'a>(
    dict: &'a Dict,
    entries: &mut Vec<EntryRef<'a>>,
) -> Result<(), AllocError>
    ensures { IfOk result (λ _. map token_view entries.new.items
        ≡ map token_view entries.old.items ++ listed_tokens dict.now) }
{
    for i in 0..dict.entry_count() {
        entries.push(dict.token(i))?;
    }
    Ok(())
}
