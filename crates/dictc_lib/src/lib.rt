//! The work of `dictc`: compiling source files to an image, and listing the ids and costs of a
//! dictionary's entries. Use this crate to run a parsed command line of `dictc`. To compile sources
//! in a program, use `dict_compile`.
//!
//! Example:
//!
//! ```text
//! let lexicons = ["a,1,1,1,X\n".as_bytes(), "b,1,1,1,X\nab,1,1,1,X\n".as_bytes()];
//! longest_surface(alloc, &lexicons)?   // Some(Surface { bytes: 2, lexicon: 1, line: 2 })
//! ```
//! The test `longest_surfaces` of `crates/program_tests` runs it.
#![tactic(auto)]

mod all_faults;
mod bad_number;
mod compile_context;
mod compile_error;
mod compiling;
mod file_access;
mod file_line;
mod hints;
mod ids;
mod inputs;
mod matrix_file;
mod progress_reporter;
mod rejection;
mod repeated;
mod reporting;
mod running;
mod shares;
mod surfaces;
mod system_compilation;
mod user_compilation;

pub use compile_error::CompileError;
pub use compiling::{compile_and_report, compile_image};
pub use hints::print_hints;
pub use ids::{PairRow, Template, rows_of_pairs, text_of};
pub use inputs::read_command;
pub use matrix_file::MatrixFile;
pub use repeated::{Repeated, most_repeated};
pub use reporting::print_counts;
pub use running::run_command;
pub use surfaces::{Surface, longest_surface};
