//! Compilations, files, and the counts that are printed at the end.

mod compilations;
mod directories;
mod ids;
mod inputs;
mod matrix_files;
mod printed_counts;
mod surfaces;

use super::in_directory;
use command_lines::dictc::Options;
use dict_compile::Compiled;
use dictc_lib::{CompileError, compile_image, print_counts};
use programs::Reporter;
use std::alloc::Global;
use std::io;
use std::string::String;
use test_support::text::words;

/// Splits `text` at blanks. A word with a dot becomes a path in `dir`.
pub(crate) fn words_in(rt: &HostRuntime, dir: &str, text: &str) -> io::Result<Vec<String>> {
    let mut words = words(rt.alloc(), text)?;
    for word in &mut words {
        if word.as_str().contains('.') {
            *word = in_directory(rt, dir, word.as_str())?;
        }
    }
    Ok(words)
}

/// Returns whether `line` is printed for `compiled`.
pub(crate) fn is_printed(alloc: Global, compiled: &Compiled, line: &str) -> bool {
    let mut reported = Vec::new(alloc);
    print_counts(compiled, &mut reported).is_ok() && reported.as_slice() == line.as_bytes()
}

/// Compiles what `options` select, with a reporter that is not verbose.
pub(crate) fn compiled_as(rt: &HostRuntime, options: &Options) -> Result<Compiled, CompileError> {
    compile_image(rt, &Reporter::new(rt, "dictc", false), rt, options)
}
