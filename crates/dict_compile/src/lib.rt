//! Compiles dictionary sources in MeCab's format to images. `compile` returns the image of a system
//! dictionary, and `compile_user` that of a user dictionary. The functions with `_watched` also
//! report progress to a `Watch`. Files are bytes here; `dictc_lib` reads them from a directory.
//!
//! Example:
//!
//! ```text
//! let compiled = dict_compile::compile(alloc, &mj_model::sample())?;
//! compiled.entries    // 3, the lexicon entries
//! compiled.skipped    // 0
//! ```
//! The test `sumomo` of `crates/dictionary_tests` runs it.
#![tactic(auto)]

mod compilation;
mod compiled;
mod fault;
mod images;
pub mod laws;
mod lexicons;
mod other_sources;
mod parts;
mod unknown;
mod user_compilation;
mod watch;

pub use compilation::{compile, compile_watched};
pub use compiled::Compiled;
pub use fault::CompileUserFault;
pub use other_sources::{OtherSources, compile_others_watched};
pub use user_compilation::{compile_user, compile_user_watched};
pub use watch::{CompileStep, Watch};
