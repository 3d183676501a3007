//! Tests, grouped by the crate that they test.

mod of_command_lines;
mod of_dictc_lib;
mod of_jseg_lib;
mod of_programs;
mod texts;

use std::string::String;
use std::test::Fail;
use std::{fs, io, process};
use test_support::text::joined;

/// Creates a directory for the test `test` alone, and returns its path.
pub(crate) fn new_directory(rt: &HostRuntime, test: &str) -> io::Result<String> {
    let id = process::id(rt.process());
    let dir = format!(in rt.alloc(); "/tmp/program_tests_{test}_{id}")?;
    fs::create_dir(rt, dir.as_str())?;
    Ok(dir)
}

/// Returns the path of `name` in the directory `dir`.
pub(crate) fn in_directory(rt: &HostRuntime, dir: &str, name: &str) -> io::Result<String> {
    Ok(joined(rt.alloc(), &[dir, "/", name])?)
}

/// Writes the file `name` in the directory `dir`.
pub(crate) fn write_in(rt: &HostRuntime, dir: &str, name: &str, bytes: &[u8]) -> io::Result<()> {
    let path = in_directory(rt, dir, name)?;
    fs::write(rt, path.as_str(), bytes)
}

/// Creates the folder `name` in the directory `dir`.
pub(crate) fn create_in(rt: &HostRuntime, dir: &str, name: &str) -> io::Result<()> {
    let path = in_directory(rt, dir, name)?;
    fs::create_dir(rt, path.as_str())
}

/// Returns the label of the first test case that doesn't hold in the directory `dir`.
fn first_wrong<R, F: Fn(&HostRuntime, &str, &R) -> Result<bool, Fail> + Drop>(
    rt: &HostRuntime,
    dir: &str,
    rows: &[(&'static str, R)],
    holds: F,
) -> Result<Option<&'static str>, Fail>
    requires { F.IsAlwaysCallable holds }
{
    for (what, row) in rows {
        if !holds(rt, dir, row)? {
            return Ok(Some(*what));
        }
    }
    Ok(None)
}

/// Creates no files.
pub(crate) fn no_files(_rt: &HostRuntime, _dir: &str) -> Result<(), Fail> {
    Ok(())
}

/// Checks test cases in a new directory after `make` has created its files, then removes the
/// directory.
///
/// Each item of `rows` is a label and a test case. The test fails with the label of the first test
/// case that doesn't hold.
pub(crate) fn expect_in_directory<R, M, F>(
    rt: &HostRuntime,
    test: &str,
    make: M,
    rows: &[(&'static str, R)],
    holds: F,
) -> Result<(), Fail>
where
    M: Fn(&HostRuntime, &str) -> Result<(), Fail> + Drop,
    F: Fn(&HostRuntime, &str, &R) -> Result<bool, Fail> + Drop,
    requires make { M.IsAlwaysCallable make }
    requires holds { F.IsAlwaysCallable holds }
{
    let dir = new_directory(rt, test)?;
    make(rt, dir.as_str())?;
    let wrong = first_wrong(rt, dir.as_str(), rows, holds)?;
    fs::remove_dir_all(rt, dir.as_str())?;
    match wrong {
        Some(what) => Err(Fail::new(what)),
        None => Ok(()),
    }
}
