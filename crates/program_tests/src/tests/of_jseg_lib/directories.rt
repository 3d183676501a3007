//! Source directories, readable ones and unreadable ones.

use crate::tests::{create_in, expect_in_directory, in_directory, write_in};
use jseg_lib::{Directory, read_directory};
use programs::Fault;
use std::test::Fail;

/// The name of a file, its text, and its number if it is a source.
type Source = (&'static str, &'static str, Option<u32>);

/// The files of a directory.
#[rattlefmt::skip]
static SOURCE_DIRECTORY: [(&str, Source); 8] = [
    // (what, (name, text, number if it is a source))
    ("unknown words",             ("unk.def",    "unknown",    Some(2))),
    ("the last lexicon",          ("b.csv",      "second",     Some(5))),
    ("connection costs",          ("matrix.def", "1 1",        Some(0))),
    ("categories",                ("char.def",   "categories", Some(1))),
    ("no source",                 ("dicrc",      "not read",   None)),
    ("a lexicon",                 ("a.csv",      "first",      Some(4))),
    ("a lexicon's name, and more", ("a.csv.bak",  "not read",   None)),
    ("a name that is the ending", (".csv",       "before",     Some(3))),
];

/// Returns whether a source of `directory` has this path and these bytes. Other files always match.
fn is_source(directory: &Directory, (_, text, number): &Source, path: &str) -> bool {
    let Directory { matrix, files } = directory;
    let Some(number) = *number else {
        return true;
    };
    let bytes = match number {
        0 => matrix.as_slice(),
        1 => files.chars.bytes.as_slice(),
        2 => files.unk.bytes.as_slice(),
        _ => match files.lexicons.get(number as usize - 3) {
            Some(lexicon) => lexicon.bytes.as_slice(),
            None => return false,
        },
    };
    files.path(number) == Some(path) && bytes == text.as_bytes()
}

/// Writes the files of a source directory.
fn make_sources(rt: &HostRuntime, dir: &str) -> Result<(), Fail> {
    for (_, (name, text, _)) in &SOURCE_DIRECTORY {
        write_in(rt, dir, name, text.as_bytes())?;
    }
    Ok(())
}

/// Returns whether `dir` is read with three lexicons, and has this file as its source.
fn has_source(rt: &HostRuntime, dir: &str, source: &Source) -> Result<bool, Fail> {
    let path = in_directory(rt, dir, source.0)?;
    Ok(match &read_directory(rt, dir) {
        Ok(directory) if directory.files.lexicons.len() == 3 => {
            is_source(directory, source, path.as_str())
        }
        _ => false,
    })
}

#[test]
fn source_directories(rt: HostRuntime) -> Result<(), Fail> {
    expect_in_directory(&rt, "sources", make_sources, &SOURCE_DIRECTORY, has_source)
}

/// Creates a folder with the name of a lexicon.
fn make_folder(rt: &HostRuntime, dir: &str) -> Result<(), Fail> {
    create_in(rt, dir, "a.csv")?;
    Ok(())
}

/// Returns whether, after the file `made` is written, the file `wanted` makes `dir` unreadable.
fn is_unreadable(
    rt: &HostRuntime,
    dir: &str,
    (made, wanted): &(&'static str, &'static str),
) -> Result<bool, Fail> {
    write_in(rt, dir, made, b"x")?;
    let path = in_directory(rt, dir, wanted)?;
    Ok(match &read_directory(rt, dir) {
        Err(Fault::File(reported)) => *reported == path,
        _ => false,
    })
}

#[rattlefmt::skip]
static UNREADABLE_DIRECTORIES: [(&str, (&str, &str)); 4] = [
    // (what, (the file that is written first, the one that the error names))
    ("connection costs", ("another",    "matrix.def")),
    ("categories",       ("matrix.def", "char.def")),
    ("unknown words",    ("char.def",   "unk.def")),
    ("a folder",         ("unk.def",    "a.csv")),
];

#[test]
fn unreadable_directories(rt: HostRuntime) -> Result<(), Fail> {
    expect_in_directory(
        &rt,
        "unreadable",
        make_folder,
        &UNREADABLE_DIRECTORIES,
        is_unreadable,
    )
}
