//! The table of keys, for each layout.

use crate::listed_keys::ListedKeys;

/// The table for exact lookup of a key.
#[derive(Drop)]
pub(crate) enum KeyTable<'a> {
    Listed(ListedKeys<'a>),
    /// The double array of the dictionary.
    Cells,
}
