//! Compiled dictionaries: loads an image and looks up surfaces, unknown words, character categories
//! and connection costs in it. Use it to read a dictionary; `word_lookup` and `segmenter` build on
//! it. `load` tests an image with `validation`, and `load_without_digest` does so except for the
//! SHA-256; `load_checking` and `load_image_bytes` take the choice as an argument. `load_written`
//! and `load_trusted` test nothing: the first is for an image that this program wrote, the second
//! for one that is known to be intact and of the newest layout.
//!
//! An image stores an entry as a token, whose feature is in a section of its own. The tokens of one
//! surface are a group, and its key is the surface.
//!
//! Example:
//!
//! ```text
//! let dict = dict_image::load(alloc, image)?;   // a user image with the surface `a`
//! let mut entries = dict.entries("a");
//! entries.next()    // Some(EntryRef { left: 1, right: 1, cost: 1, feature: "X", token: 0 })
//! entries.next()    // None
//! ```
//! The test `entries_of_keys` of `crates/dictionary_tests` runs it.
#![tactic(auto)]

mod categories;
mod context_ids;
mod cost_cache;
mod cost_table;
mod costs;
mod costs_before;
mod dict;
mod entries;
mod entry_range;
mod entry_ref;
mod entry_row;
mod hits;
mod ids_and_cost;
mod info_table;
mod infos;
mod key_hits;
mod key_range;
mod key_table;
mod large_matrix;
mod laws;
mod listed_hits;
mod listed_keys;
mod loading;
mod lookup;
mod lookup_tables;
mod numbered;
mod numbered_ids;
mod ranges;
mod rows;
mod system;
pub mod validation;

pub use context_ids::ContextIds;
pub use costs_before::CostsBefore;
pub use dict::Dict;
pub use entries::Entries;
pub use entry_range::EntryRange;
pub use entry_ref::EntryRef;
pub use entry_row::EntryRow;
pub use hits::Prefixes;
pub use ids_and_cost::IdsAndCost;
pub use image_format::DigestTest;
pub use loading::{
    load, load_checking, load_image_bytes, load_trusted, load_without_digest, load_written,
};
pub use numbered_ids::{NUMBERED_MAX, NumberedIds};
