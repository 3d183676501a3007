//! Files that can't be read, and files that are not images.

use super::compiled_as;
use crate::tests::{expect_in_directory, in_directory, no_files, write_in};
use command_lines::dictc::{Base, Options};
use dictc_lib::CompileError;
use mj_model::ImageFault;
use programs::Fault;
use std::string::String;
use std::test::Fail;
use std::{fs, io};

/// Returns the paths of the lexicons in `dir`.
fn lexicons_in(rt: &HostRuntime, dir: &str) -> io::Result<Vec<String>> {
    let mut lexicons = Vec::new(rt.alloc());
    lexicons.push(in_directory(rt, dir, "lexicon.csv")?)?;
    Ok(lexicons)
}

/// Returns the system image in `dir`, as the base of a user dictionary.
fn system_in(rt: &HostRuntime, dir: &str) -> io::Result<Base> {
    Ok(Base::System {
        dic: in_directory(rt, dir, "sys.img")?,
        skip_digest: false,
    })
}

/// Returns the definitions in `dir`, as the base of a system dictionary.
fn definitions_in(rt: &HostRuntime, dir: &str) -> io::Result<Base> {
    Ok(Base::Definitions {
        matrix: in_directory(rt, dir, "matrix.def")?,
        chars: in_directory(rt, dir, "char.def")?,
        unk: in_directory(rt, dir, "unk.def")?,
    })
}

/// Returns the options that compile the files in `dir` to its file `img`.
fn options_in(rt: &HostRuntime, dir: &str, user: bool) -> io::Result<Options> {
    let base = if user {
        system_in(rt, dir)?
    } else {
        definitions_in(rt, dir)?
    };
    Ok(Options {
        base,
        out: in_directory(rt, dir, "img")?,
        lexicons: lexicons_in(rt, dir)?,
        all_faults: false,
        verbose: false,
    })
}

/// Whether a user dictionary is compiled, the file that is written first, and the one that the
/// error names.
type UnreadableRow = (bool, &'static str, &'static str);

/// Returns whether `dir` has the image.
fn has_image(rt: &HostRuntime, dir: &str) -> io::Result<bool> {
    let path = in_directory(rt, dir, "img")?;
    fs::exists(rt, path.as_str())
}

/// Returns whether the compilation reports that the file at `path` can't be read.
fn is_no_file(rt: &HostRuntime, dir: &str, user: bool, path: &str) -> io::Result<bool> {
    Ok(match &compiled_as(rt, &options_in(rt, dir, user)?) {
        Err(CompileError::Fault(Fault::File(reported))) => reported.as_str() == path,
        _ => false,
    })
}

/// Returns whether the compilation reports this file as unreadable, and writes no image.
fn is_unreadable(
    rt: &HostRuntime,
    dir: &str,
    (user, made, wanted): &UnreadableRow,
) -> Result<bool, Fail> {
    write_in(rt, dir, made, b"x")?;
    let path = in_directory(rt, dir, wanted)?;
    Ok(is_no_file(rt, dir, *user, path.as_str())? && !has_image(rt, dir)?)
}

#[rattlefmt::skip]
static FILES_THAT_CANNOT_BE_READ: [(&str, UnreadableRow); 5] = [
    // (what, (whether a user dictionary, the file that is written first, the one that the error
    // names))
    ("the system",        (true,  "another",    "sys.img")),
    ("connection costs",  (false, "another",    "matrix.def")),
    ("categories",        (false, "matrix.def", "char.def")),
    ("unknown words",     (false, "char.def",   "unk.def")),
    ("a lexicon",         (false, "unk.def",    "lexicon.csv")),
];

#[test]
fn files_that_cannot_be_read(rt: HostRuntime) -> Result<(), Fail> {
    expect_in_directory(
        &rt,
        "unreadable_files",
        no_files,
        &FILES_THAT_CANNOT_BE_READ,
        is_unreadable,
    )
}

/// Returns whether the compilation reports `text` as an invalid system image.
///
/// The lexicon is missing, and the image is loaded before it is read.
fn is_no_image(rt: &HostRuntime, dir: &str, text: &&str) -> Result<bool, Fail> {
    write_in(rt, dir, "sys.img", text.as_bytes())?;
    let path = in_directory(rt, dir, "sys.img")?;
    Ok(match &compiled_as(rt, &options_in(rt, dir, true)?) {
        Err(CompileError::Fault(Fault::Image(reported, ImageFault::Truncated))) => *reported
            == path,
        _ => false,
    })
}

static IMAGES_THAT_ARE_NONE: [(&str, &str); 1] = [("a short text", "no image")];

#[test]
fn images_that_are_none(rt: HostRuntime) -> Result<(), Fail> {
    expect_in_directory(
        &rt,
        "no_images",
        no_files,
        &IMAGES_THAT_ARE_NONE,
        is_no_image,
    )
}
