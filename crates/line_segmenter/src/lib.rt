//! The segmenter as a library: it owns its dictionaries, its format and the buffers of the search.
//!
//! Use `Segmenter` to segment many lines. It reuses its buffers, and keeps the last line with its
//! best path, from which it returns words, costs, features and the lattice. The next line replaces
//! them. `parse_lines` removes them, and so does a change of the dictionaries or of the grouping.
//! Its format serves `print` and `parse_lines`. Segmenters on different threads may share
//! dictionaries, see `Segmenter::share`. The crate `capi` exports it to C.
//!
//! Example:
//!
//! ```text
//! let mut segmenter = Segmenter::load(alloc, image, DigestTest::Verified)?;
//! segmenter.set_format("%m/%f[0]/%c/%pn/%pc\\s", None, "", "%pc\\n")?;
//! segmenter.segment("すもももも".as_bytes())?;
//! segmenter.print(&mut out)?;   // out: "すもも/名詞/100/110/110 もも/名詞/30/37/147 152\n"
//! segmenter.append_feature(2, &mut out)   // Err(SegmentFault::NoWord(2)), the path has two words
//! ```
//! The tests `formats` and `no_such_word` of `crates/text_tests` run it.
#![tactic(auto)]

mod categories;
mod fault;
mod features;
mod last_line;
mod last_words;
mod owned_dictionaries;
mod path_end;
mod segmenter;
mod segmenting;
mod text_lines;

pub use dict_image::DigestTest;
pub use fault::SegmentFault;
pub use last_words::LastWords;
pub use lattice::{LatticeNode, MarkedLattice};
pub use path_end::PathEnd;
pub use segmenter::Segmenter;
pub use text_lines::LinesFault;
