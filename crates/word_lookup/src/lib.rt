//! Looks up the words at a position of a text: the known words of a system dictionary and its user
//! dictionaries, and unknown words by character category. A position is a byte offset at a
//! character boundary; the surfaces of its words start after the blanks there. Use this crate to
//! list the words of one position. The crate `lattice` does so for each position that it reaches,
//! and finds the best path.
//!
//! Example, with a dictionary compiled from the sample sources of `mj_model`:
//!
//! ```text
//! let dictionaries = Dictionaries::new(&system, &[])?;
//! dictionaries.words_at(alloc, "すもももも", 3, &mut words)?;   // も (3 to 6), もも (3 to 9)
//! dictionaries.blanks(" すもも  もも ", 10);                    // 12
//! ```
//! The tests `words_of_the_sample` and `blanks` of `crates/search_tests` run it.
#![tactic(auto)]

mod blank_scan;
mod blanks;
mod cached_runs;
mod category_scan;
mod context_ids;
mod dictionaries;
mod first_character;
mod known;
mod overlay;
mod run;
mod same_entries;
mod scan_cache;
mod spans;
mod surface_words;
mod surfaces;
mod unknown_entries;
mod unknown_start;
mod word_start;
mod words;

pub use context_ids::COLLECTED_MAX;
pub use dict_image::CostsBefore;
pub use dictionaries::Dictionaries;
pub use mj_model::paths::{EntryList, Surface};
pub use mj_model::{Origin, Word};
pub use same_entries::have_same_unknown_entries;
pub use scan_cache::ScanCache;
pub use surface_words::SurfaceWords;
