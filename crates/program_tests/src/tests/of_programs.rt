//! Files, and what is printed about errors.

mod digests;
mod failing_files;
mod files;
mod image_dirs;
mod image_reading;
mod image_rows;
mod printed_errors;
mod reading;
mod writing;

use programs::{Fault, Reporter, write_file};
use std::{fs, io};

/// Writes a file. An error prints a log message only on a terminal.
pub(crate) fn write(rt: &HostRuntime, path: &str, bytes: &[u8]) -> Result<(), Fault> {
    write_file(rt, &Reporter::new(rt, "dictc", false), path, bytes)
}

/// Returns how many names `dir` has.
pub(crate) fn names_in(rt: &HostRuntime, dir: &str) -> io::Result<usize> {
    let mut names = 0_usize;
    for entry in fs::read_dir(rt, dir)? {
        let _entry = entry?;
        names = names.saturating_add(1);
    }
    Ok(names)
}
