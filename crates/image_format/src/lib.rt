//! The binary format of an image, a compiled dictionary: the header, the sections, and the numbers
//! and cells in them. Use it to read parts of an image in place, or to write one. It tests nothing;
//! `dict_image` tests whether bytes are a well-formed image. docs/FORMAT.md describes the format.
//!
//! Example:
//!
//! ```text
//! let header = image_format::read_header(image);     // header.groups == 3
//! let ends = image_format::section_ends(&header)?;
//! image[ends[7]..ends[8]].len()                      // 45, the length of section 8
//! ```
//! The test `sections_of_the_lexicon` of `crates/dictionary_tests` runs it.
#![tactic(auto)]

pub mod borrowed;
mod digest_test;
mod ends;
mod header;
mod image_cells;
mod kind;
pub mod laws;
mod layout;
mod numbers;
mod section;

pub use digest_test::DigestTest;
pub use ends::{section_bytes, section_ends};
pub use header::{DIGEST_LENGTH, FEATURE_BYTES_END, HEADER_LENGTH, Header, MAGIC, read_header};
pub use image_cells::ImageCells;
pub use kind::DictKind;
pub use layout::{InfoForm, KeyForm, LAYOUT, OWN_ENTRIES};
pub use numbers::{i16_at, i32_at, u16_at, u32_at, u64_at};
pub use section::Section;
