//! The C interface of `line_segmenter`: exported functions over a handle that owns the segmenter.
//!
//! C programs include `capi/include/kumquatsieve.h` and link the library. Each call returns a code,
//! 0 if it succeeds, and takes the segmenter out of its handle and puts it back. Rust programs use
//! `line_segmenter` itself.
//!
//! Example, by the header's call over this crate's export of the same name:
//!
//! ```text
//! kumquatsieve_segment(&segmenter, "すもももも", 15, 0, &line, NULL)
//! // KUMQUATSIEVE_OK; line.count is 2 and line.total 152
//! ```
//! The test `sizes_and_costs` of `tests/capi/c/lines.c` runs it.
#![tactic(auto)]

mod calling;
mod codes;
mod exports;
mod fault;
mod handle;
mod items;
mod loading;
mod loading_exports;
mod nodes;
mod places;
mod queries;
mod query_exports;
mod segmenting;
mod session;
mod settings;
mod slot;
mod text_lines;
pub mod texts;
mod version;
mod words;

pub use exports::{
    kumquatsieve_free, kumquatsieve_segment, kumquatsieve_segment_whole, kumquatsieve_set_format,
    kumquatsieve_set_grouping, kumquatsieve_share,
};
pub use handle::Handle;
pub use loading_exports::{
    kumquatsieve_add_user_borrowed, kumquatsieve_add_user_trusted, kumquatsieve_load_borrowed,
    kumquatsieve_load_trusted,
};
pub use nodes::kumquatsieve_nodes;
pub use query_exports::{
    kumquatsieve_entry_feature, kumquatsieve_fault, kumquatsieve_features,
    kumquatsieve_parse_lines, kumquatsieve_print,
};
pub use version::{VERSION_NUMBER, kumquatsieve_version};
pub use words::kumquatsieve_words;
