//! The types that the crates share, and the definitions of a text's words and of its best path.
//!
//! The types are words, entries, character categories, sources, limits and errors. Use this crate
//! to exchange these values with the other crates, and to look up the definitions that their
//! contracts name. The module `cell_walk` reads the cells of a double array, and `paths` holds the
//! types of words at a position and of paths.
//!
//! Example:
//!
//! ```text
//! let fault = SourceKind::NotUtf8.at(0, 1);
//! fault.code()   // "S1"
//! fault.name()   // "NotUtf8"
//! // It is printed as "file 0, line 1: S1 NotUtf8".
//! ```
//! The test `places_of_sources` of `crates/source_tests` runs it.
#![tactic(auto)]

mod category;
pub mod cell_walk;
mod counted;
mod entry;
mod format_fault;
mod format_item;
mod image_fault;
pub mod laws;
mod limits;
mod matrix_sizes;
mod named_fault;
mod overlay_fault;
pub mod paths;
mod run_fault;
mod sample_sources;
mod source_fault;
mod sources;
mod text_in;
mod text_out;
mod word;

pub use category::{Category, CharInfo};
pub use counted::Counted;
pub use entry::{Entry, Record};
pub use format_fault::{FormatFault, FormatKind, FormatPart};
pub use format_item::FormatItem;
pub use image_fault::ImageFault;
pub use limits::{
    CATEGORIES_MAX, CATEGORY_LENGTH_MAX, CATEGORY_NAME_MAX, CODE_POINT_MAX, ENTRIES_MAX,
    GROUPING_DEFAULT, GROUPING_MAX, MATRIX_CELLS_MAX, MATRIX_SIZE_MAX, READS_MAX, SENTENCE_MAX,
    SURFACE_MAX,
};
pub use matrix_sizes::MatrixSizes;
pub use named_fault::{NamedFault, write_code_and_name, write_numbered};
pub use overlay_fault::OverlayFault;
pub use run_fault::RunFault;
pub use sample_sources::sample;
pub use source_fault::{
    CHAR_FILE, FIRST_LEXICON_FILE, LAST_LEXICON_FILE, MATRIX_FILE, NO_FILE, SourceFault,
    SourceKind, UNK_FILE,
};
pub use sources::Sources;
pub use text_in::TextIn;
pub use text_out::TextOut;
pub use word::{Origin, Word};
