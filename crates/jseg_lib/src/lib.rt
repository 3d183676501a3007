//! The work of `jseg`: segmenting standard input with the dictionary that the command line names,
//! and listing images. Use this crate to run a parsed command line of `jseg`. To segment text in a
//! program, use `segmenter`.
//!
//! Example:
//!
//! ```text
//! // DIR holds matrix.def, char.def, unk.def, .csv, a.csv and b.csv.
//! let directory = read_directory(rt, "DIR")?;
//! directory.files.lexicons.len()   // 3
//! directory.files.path(4)          // Some("DIR/a.csv")
//! ```
//! The test `source_directories` of `crates/program_tests` runs it.
#![tactic(auto)]

mod formatting;
mod images;
mod inputs;
mod listing;
mod mark_scan;
mod peeked_read;
mod peeked_reader;
mod peeking;
mod printing;
mod return_scan;
mod running;
mod segmenting;
mod source_directory;
mod text_progress;
mod text_scan;
mod text_warnings;
mod views;
mod watched_reader;

pub use images::overlay_fault;
pub use inputs::read_command;
pub use running::{print_hints, run_command};
pub use source_directory::{Directory, read_directory};
