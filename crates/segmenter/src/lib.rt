//! Segments text: reads lines, finds the best path of each, and prints its words.
//!
//! Use `segment` with loaded dictionaries, and `run_sources` to compile the sources and segment in
//! one call. Both take a reader and a writer that count their calls: wrap yours in
//! `mj_model::Counted`. To keep dictionaries and buffers between calls, use the crate
//! `line_segmenter`.
//!
//! Example:
//!
//! ```text
//! let mut input = Counted::new("すもももも\n".as_bytes());
//! let mut out = Counted::new(Vec::new(alloc));
//! let format = Format::default_of(alloc)?;
//! run_sources(alloc, &sample(), &[], GROUPING_DEFAULT, &format, &mut input, &mut out)   // Ok(1)
//! // out: "すもも\t名詞,すもも\nもも\t名詞,もも\nEOS\n"
//! ```
//! The test `sample_lines` of `crates/text_tests` runs it.
#![tactic(auto)]

mod dicts;
pub mod laws;
mod running;
mod segmentation;
mod source_faults;

pub use dicts::system_dict;
pub use mj_model::sample;
pub use running::run_sources;
pub use segmentation::segment;
pub use source_faults::run_fault_of;
