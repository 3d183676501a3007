//! Files that are read, and those that can't be.

use super::failing_files::FailingFiles;
use super::{names_in, write};
use crate::tests::{expect_in_directory, in_directory, new_directory, no_files, write_in};
use dict_image::DigestTest;
use mj_model::ImageFault;
use programs::{Fault, SourceFiles, WholeFile, load_dictionary, read_files, texts};
use std::alloc::{AllocError, Global};
use std::io::ErrorKind;
use std::string::String;
use std::test::Fail;
use std::{fs, io};

/// Returns whether `fault` names the file at `path`.
fn is_file_fault(fault: Option<&Fault>, path: &str) -> bool {
    match fault {
        Some(Fault::File(reported)) => reported.as_str() == path,
        _ => false,
    }
}

/// Returns whether the file at `path` can be neither read nor written.
fn is_rejected(rt: &HostRuntime, path: &str) -> bool {
    let read = WholeFile::read(rt, path).err();
    let written = write(rt, path, b"text").err();
    is_file_fault(read.as_ref(), path) && is_file_fault(written.as_ref(), path)
}

/// Returns whether the file at `dir` followed by `name` can be neither read nor written, and `dir`
/// is left empty.
fn is_rejected_in(rt: &HostRuntime, dir: &str, name: &&'static str) -> Result<bool, Fail> {
    let path = format!(in rt.alloc(); "{dir}{name}")?;
    Ok(is_rejected(rt, path.as_str()) && names_in(rt, dir)? == 0)
}

#[rattlefmt::skip]
static NAMES_THAT_FAIL: [(&str, &str); 3] = [
    // (what, the name after the directory's path)
    ("in no folder", "/none/file"),
    ("the folder",   ""),
    ("no folder",    "/none/"),
];

#[test]
fn files_that_fail(rt: HostRuntime) -> Result<(), Fail> {
    assert!(rt; is_rejected(&rt, ""), "no name");
    expect_in_directory(&rt, "failing", no_files, &NAMES_THAT_FAIL, is_rejected_in)
}

#[test]
fn rejected_files(rt: HostRuntime) -> Result<(), Fail> {
    let error = io::Error::from(ErrorKind::OutOfMemory);
    assert!(rt; Fault::of_file(rt.alloc(), "a", &error) == Fault::Memory);
    assert!(rt; Fault::from(AllocError) == Fault::Memory);
    Ok(())
}

/// Returns a file of one byte, as if it had been read from `path`.
fn file(alloc: Global, path: &str, byte: u8) -> Result<WholeFile, AllocError> {
    let mut bytes = Vec::new(alloc);
    bytes.push(byte)?;
    Ok(WholeFile {
        path: String::from_str(alloc, path)?,
        bytes,
    })
}

/// Returns two lexicons.
fn two_lexicons(alloc: Global) -> Result<Vec<WholeFile>, AllocError> {
    let mut lexicons = Vec::new(alloc);
    lexicons.push(file(alloc, "a.csv", 4)?)?;
    lexicons.push(file(alloc, "b.csv", 5)?)?;
    Ok(lexicons)
}

/// Returns the files of a system dictionary with two lexicons.
fn source_files(alloc: Global) -> Result<SourceFiles, AllocError> {
    Ok(SourceFiles {
        matrix: String::from_str(alloc, "matrix.def")?,
        chars: file(alloc, "char.def", 2)?,
        unk: file(alloc, "unk.def", 3)?,
        lexicons: two_lexicons(alloc)?,
    })
}

/// Returns whether the texts of `lexicons` are the bytes of the two lexicons.
fn are_texts(alloc: Global, lexicons: &[WholeFile]) -> Result<bool, AllocError> {
    let texts = texts(alloc, lexicons)?;
    let wanted: [&[u8]; 2] = [&[4], &[5]];
    Ok(texts.as_slice() == wanted.as_slice())
}

#[rattlefmt::skip]
static PATHS_OF_SOURCES: [(u32, Option<&str>); 7] = [
    // (number, path)
    (0,        Some("matrix.def")),
    (1,        Some("char.def")),
    (2,        Some("unk.def")),
    (3,        Some("a.csv")),
    (4,        Some("b.csv")),
    (5,        None),
    (u32::MAX, None),
];

#[test]
fn paths_of_sources(rt: HostRuntime) -> Result<(), Fail> {
    let files = source_files(rt.alloc())?;
    for (number, path) in &PATHS_OF_SOURCES {
        assert!(rt; files.path(*number) == *path, "{number}");
    }
    assert!(rt; are_texts(rt.alloc(), &files.lexicons)?);
    Ok(())
}

static NAMES_IN_ORDER: [&str; 3] = ["b", "a", "c"];

/// Writes a file for each name, with the name as its text, and returns their paths.
fn written_paths(rt: &HostRuntime, dir: &str) -> io::Result<Vec<String>> {
    let mut paths = Vec::new(rt.alloc());
    for name in &NAMES_IN_ORDER {
        write_in(rt, dir, name, name.as_bytes())?;
        paths.push(in_directory(rt, dir, name)?)?;
    }
    Ok(paths)
}

/// Returns whether `files` are the three files at `paths`, by the name in each.
fn are_files(files: &[WholeFile], paths: &[String]) -> bool {
    let mut all = files.len() == 3 && paths.len() == 3;
    for (file, path) in files.iter().zip(paths.iter()) {
        all = all && file.path == *path && path.as_bytes().ends_with(&file.bytes);
    }
    all
}

/// Returns whether files are read in the order of `paths`, each opened once.
fn are_read(rt: &HostRuntime, paths: &[String]) -> Result<bool, Fault> {
    let runtime = FailingFiles::none(rt);
    let files = read_files(&runtime, paths)?;
    Ok(runtime.opened.get() == 3 && are_files(&files, paths))
}

/// Returns whether reading `paths` reports the first file as unreadable.
fn is_first_gone(rt: &HostRuntime, paths: &[String]) -> bool {
    match paths.first() {
        Some(path) => is_file_fault(read_files(rt, paths).err().as_ref(), path.as_str()),
        None => false,
    }
}

#[test]
fn files_in_their_order(rt: HostRuntime) -> Result<(), Fail> {
    let dir = new_directory(&rt, "order")?;
    let paths = written_paths(&rt, dir.as_str())?;
    let are_read = are_read(&rt, &paths)?;
    fs::remove_dir_all(&rt, dir.as_str())?;
    assert!(rt; are_read);
    assert!(rt; is_first_gone(&rt, &paths));
    Ok(())
}

/// Returns the error of loading the image at `path`.
fn fault_at(rt: &HostRuntime, path: &str) -> Option<Fault> {
    load_dictionary(rt, path, DigestTest::Verified).err()
}

/// Writes a file that is not an image.
fn make_short(rt: &HostRuntime, dir: &str) -> Result<(), Fail> {
    write_in(rt, dir, "short.img", b"no image")?;
    Ok(())
}

/// Returns whether loading the image `name` reports `fault`, or an unreadable file if there is
/// none.
fn is_image_fault(
    rt: &HostRuntime,
    dir: &str,
    (name, fault): &(&'static str, Option<ImageFault>),
) -> Result<bool, Fail> {
    let path = in_directory(rt, dir, name)?;
    Ok(match (&fault_at(rt, path.as_str()), fault) {
        (Some(Fault::File(reported)), None) => *reported == path,
        (Some(Fault::Image(reported, found)), Some(fault)) => *reported == path && found == fault,
        _ => false,
    })
}

#[rattlefmt::skip]
static IMAGES_THAT_CANNOT_BE_READ: [(&str, (&str, Option<ImageFault>)); 2] = [
    // (what, (name, the error of the image))
    ("missing", ("none.img",  None)),
    ("short",   ("short.img", Some(ImageFault::Truncated))),
];

#[test]
fn images_that_cannot_be_read(rt: HostRuntime) -> Result<(), Fail> {
    expect_in_directory(
        &rt,
        "images",
        make_short,
        &IMAGES_THAT_CANNOT_BE_READ,
        is_image_fault,
    )
}
