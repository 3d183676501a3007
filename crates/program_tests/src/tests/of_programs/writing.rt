//! Files that are written completely or not at all.

use super::failing_files::FailingFiles;
use super::{names_in, write};
use crate::tests::{
    create_in, expect_in_directory, in_directory, new_directory, no_files, write_in,
};
use programs::{Fault, write_file_as};
use std::alloc::{AllocError, Global};
use std::fs::{self, Permissions};
use std::io;
use std::os::unix::fs::{PermissionsExt, symlink};
use std::string::String;
use std::test::Fail;

/// Returns the path of the file in `dir`.
fn file_in(rt: &HostRuntime, dir: &str) -> io::Result<String> {
    in_directory(rt, dir, "file")
}

/// Returns whether the file at `path` is written, and then has `bytes`.
fn is_kept(rt: &HostRuntime, path: &str, bytes: &[u8]) -> io::Result<bool> {
    Ok(write(rt, path, bytes).is_ok() && has_bytes(rt, path, bytes)?)
}

/// Returns whether the file at `path` has `bytes`.
fn has_bytes(rt: &HostRuntime, path: &str, bytes: &[u8]) -> io::Result<bool> {
    Ok(fs::read(rt, path)?.as_slice() == bytes)
}

/// Returns more bytes than are written at once.
fn many_bytes(alloc: Global) -> Result<Vec<u8>, AllocError> {
    (0..300_000_u32)
        .map(|number| (number % 251) as u8)
        .collect(alloc)
}

/// Returns the bytes `few`, or many bytes if there are none.
fn bytes_of(alloc: Global, few: Option<&[u8]>) -> Result<Vec<u8>, AllocError> {
    match few {
        Some(bytes) => Vec::from_slice(alloc, bytes),
        None => many_bytes(alloc),
    }
}

/// Writes the file in `dir`. Returns whether it then has these bytes and is the only name.
fn is_written(rt: &HostRuntime, dir: &str, few: &Option<&'static [u8]>) -> Result<bool, Fail> {
    let bytes = bytes_of(rt.alloc(), *few)?;
    let path = file_in(rt, dir)?;
    Ok(is_kept(rt, path.as_str(), &bytes)? && names_in(rt, dir)? == 1)
}

#[rattlefmt::skip]
static WRITTEN_BYTES: [(&str, Option<&[u8]>); 6] = [
    ("first",         Some(b"first")),
    ("in its place",  Some(b"in its place")),
    ("one byte",      Some(b"\xff")),
    ("another",       Some(b"\0")),
    ("none",          Some(b"")),
    ("above 256 KiB", None),
];

#[test]
fn written_bytes(rt: HostRuntime) -> Result<(), Fail> {
    expect_in_directory(&rt, "written", no_files, &WRITTEN_BYTES, is_written)
}

/// The room of a file in bytes, the most bytes of a write, whether it is interrupted, synced and
/// renamed, and whether it is written.
type WriteRow = (usize, usize, bool, bool, bool, bool);

/// Overwrites a file while calls fail. Returns whether it then has all of the new bytes if it is
/// written, or else the old ones.
fn is_whole_or_old(
    rt: &HostRuntime,
    dir: &str,
    (room, at_once, interrupts, syncs, renames, is_written): &WriteRow,
) -> Result<bool, Fail> {
    let path = file_in(rt, dir)?;
    fs::write(rt, path.as_str(), "old")?;
    let files = FailingFiles {
        room: *room,
        at_once: *at_once,
        interrupts: *interrupts,
        syncs: *syncs,
        renames: *renames,
        ..FailingFiles::none(rt)
    };
    let written = write_file_as(&files, 7, path.as_str(), b"new bytes").is_ok();
    let wanted = if *is_written { "new bytes" } else { "old" };
    let has_wanted = has_bytes(rt, path.as_str(), wanted.as_bytes())?;
    Ok(written == *is_written && has_wanted && names_in(rt, dir)? == 1)
}

#[rattlefmt::skip]
static WHOLE_OR_NOT_AT_ALL: [(&str, WriteRow); 9] = [
    // (what, (room, bytes of a write, whether it is interrupted, synced, renamed, written))
    ("all at once",    (9, 9, false, true,  true,  true)),
    ("short writes",   (9, 2, false, true,  true,  true)),
    ("single bytes",   (9, 1, false, true,  true,  true)),
    ("no room",        (0, 9, false, true,  true,  false)),
    ("room for some",  (8, 9, false, true,  true,  false)),
    ("for some bytes", (5, 1, false, true,  true,  false)),
    ("interrupted",    (9, 9, true,  true,  true,  false)),
    ("not synced",     (9, 9, false, false, true,  false)),
    ("not renamed",    (9, 9, false, true,  false, false)),
];

#[test]
fn whole_or_not_at_all(rt: HostRuntime) -> Result<(), Fail> {
    expect_in_directory(
        &rt,
        "whole",
        no_files,
        &WHOLE_OR_NOT_AT_ALL,
        is_whole_or_old,
    )
}

/// The names of the temporary files of numbers 0 and 1 that process 7 would write.
const NEW_0: &str = ".kumquatsieve.7.0.new";

const NEW_1: &str = ".kumquatsieve.7.1.new";

/// Creates a file and a folder with the first two names of temporary files.
fn take_names(rt: &HostRuntime, dir: &str) -> Result<(), Fail> {
    write_in(rt, dir, NEW_0, b"of another run")?;
    create_in(rt, dir, NEW_1)?;
    Ok(())
}

/// Returns whether the file is written although those names are taken, and they are unchanged.
fn is_written_next_to(rt: &HostRuntime, dir: &str, bytes: &&'static [u8]) -> Result<bool, Fail> {
    let path = file_in(rt, dir)?;
    let written = write_file_as(rt, 7, path.as_str(), bytes).is_ok();
    Ok(written && has_bytes(rt, path.as_str(), bytes)? && are_kept(rt, dir)?)
}

/// Returns whether the first of those files has its bytes, and `dir` has three names.
fn are_kept(rt: &HostRuntime, dir: &str) -> io::Result<bool> {
    let first = in_directory(rt, dir, NEW_0)?;
    Ok(has_bytes(rt, first.as_str(), b"of another run")? && names_in(rt, dir)? == 3)
}

static NEXT_TO_TAKEN_NAMES: [(&str, &[u8]); 1] = [("next to names that are taken", b"new")];

#[test]
fn names_that_are_taken(rt: HostRuntime) -> Result<(), Fail> {
    expect_in_directory(
        &rt,
        "taken",
        take_names,
        &NEXT_TO_TAKEN_NAMES,
        is_written_next_to,
    )
}

/// Returns whether a file with a name of `length` bytes is written twice.
fn are_written(rt: &HostRuntime, dir: &str, length: usize) -> io::Result<bool> {
    let mut path = in_directory(rt, dir, "")?;
    for _ in 0..length {
        path.push('n')?;
    }
    Ok(is_kept(rt, path.as_str(), b"first")? && is_kept(rt, path.as_str(), b"other")?)
}

static LENGTHS: [usize; 4] = [240, 241, 254, 255];

/// A name may have 255 bytes, because that of the temporary file doesn't contain it.
#[test]
fn long_names(rt: HostRuntime) -> Result<(), Fail> {
    let dir = new_directory(&rt, "long")?;
    for length in &LENGTHS {
        assert!(rt; are_written(&rt, dir.as_str(), *length)?, "{length}");
    }
    assert!(rt; names_in(&rt, dir.as_str())? == 4);
    fs::remove_dir_all(&rt, dir.as_str())?;
    Ok(())
}

/// Writes the file.
fn make_file(rt: &HostRuntime, dir: &str) -> Result<(), Fail> {
    write_in(rt, dir, "file", b"old")?;
    Ok(())
}

/// Returns whether a file with the mode `mode` is written and keeps it.
fn keeps_mode(rt: &HostRuntime, dir: &str, mode: &u32) -> Result<bool, Fail> {
    let path = file_in(rt, dir)?;
    fs::set_permissions(rt, path.as_str(), Permissions::from_mode(*mode))?;
    let files = FailingFiles::none(rt);
    let is_written = write_file_as(&files, 7, path.as_str(), b"new").is_ok();
    let kept = fs::metadata(rt, path.as_str())?.permissions().mode();
    Ok(is_written && kept & 0o777 == *mode)
}

static MODES: [(&str, u32); 3] = [("600", 0o600), ("444", 0o444), ("664", 0o664)];

#[test]
fn modes_are_kept(rt: HostRuntime) -> Result<(), Fail> {
    expect_in_directory(&rt, "modes", make_file, &MODES, keeps_mode)
}

/// Returns whether writing through `link` changes `file`, and `link` stays a link.
fn is_link_kept(rt: &HostRuntime, link: &str, file: &str) -> io::Result<bool> {
    fs::write(rt, file, "old")?;
    symlink(rt, "file", link)?;
    let written = write(rt, link, b"new").is_ok();
    Ok(written && has_bytes(rt, file, b"new")? && fs::symlink_metadata(rt, link)?.is_symlink())
}

/// Returns whether writing through a link in `dir` keeps the link, and leaves two names.
fn is_link_kept_in(rt: &HostRuntime, dir: &str) -> io::Result<bool> {
    let file = file_in(rt, dir)?;
    let link = in_directory(rt, dir, "link")?;
    Ok(is_link_kept(rt, link.as_str(), file.as_str())? && names_in(rt, dir)? == 2)
}

#[test]
fn links_are_kept(rt: HostRuntime) -> Result<(), Fail> {
    assert!(rt; write(&rt, "/dev/null", b"new").is_ok());
    let dir = new_directory(&rt, "links")?;
    let is_kept = is_link_kept_in(&rt, dir.as_str())?;
    fs::remove_dir_all(&rt, dir.as_str())?;
    assert!(rt; is_kept);
    Ok(())
}

#[test]
fn full_devices(rt: HostRuntime) {
    let is_reported = match &write(&rt, "/dev/full", b"text") {
        Err(Fault::File(path)) => path.as_str() == "/dev/full",
        _ => false,
    };
    assert!(rt; is_reported);
}
