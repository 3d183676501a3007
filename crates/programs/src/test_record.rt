//! Records of tests: a file beside an installed image that identifies the image's file and states
//! that it passed all tests.

ghost use Rattle.programs.specs.TestRecords.{IsRemainingTest};

use crate::environment::Environment;
use crate::whole_file::WholeFile;
use dict_image::DigestTest;
use std::alloc::{AllocError, Global};
use std::env;
use std::fs::{self, Metadata};
use std::os::unix::fs::MetadataExt;
use std::path::Path;
use std::string::String;

/// A record has fewer bytes than this.
const RECORD_MAX: u64 = 512;

/// Number of bytes after the last label of a record: the SHA-256 of the image in hexadecimal
/// digits, and a line feed.
const DIGITS: usize = 65;

/// Returns the checksum test that remains to be made for the image at `path`: none if `has_record`
/// returns that it has a record of its tests, otherwise `digest`.
pub(crate) fn remaining_digest_test<H: Fn(&str) -> bool + Drop>(
    path: &str,
    digest: DigestTest,
    has_record: H,
) -> DigestTest
    requires { H.IsAlwaysCallable has_record }
    ensures { IsRemainingTest (H.post has_record) path.now digest result }
{
    if has_record(path) {
        DigestTest::Skipped
    } else {
        digest
    }
}

/// Returns whether an image lies in an image directory beside a record of its file. Returns false
/// if an allocation fails.
pub(crate) fn has_record(rt: &HostRuntime, path: &str) -> bool {
    !is_distrusted(rt) && is_recorded(rt, path).is_ok_and(|recorded| recorded)
}

/// Returns whether the environment variable `KUMQUATSIEVE_TRUST` disables all records.
fn is_distrusted(rt: &HostRuntime) -> bool {
    env::var(rt, "KUMQUATSIEVE_TRUST").is_ok_and(|trust| trust.as_str() == "never")
}

fn is_recorded(rt: &HostRuntime, path: &str) -> Result<bool, AllocError> {
    if !is_installed(rt, path)? {
        return Ok(false);
    }
    let Ok(image) = fs::metadata(rt, path) else {
        return Ok(false);
    };
    let prefix = record_prefix(rt.alloc(), &image)?;
    let record = record_path(rt.alloc(), path)?;
    Ok(holds_record(rt, record.as_str(), prefix.as_str()))
}

/// Returns whether `path` names a file directly in one of the image directories.
fn is_installed(rt: &HostRuntime, path: &str) -> Result<bool, AllocError> {
    let Some(folder) = Path::new(path).parent() else {
        return Ok(false);
    };
    let image_dirs = Environment::here(rt)?.image_dirs(rt.alloc())?;
    for dir in &image_dirs {
        if dir.as_str() == folder.as_str() {
            return Ok(true);
        }
    }
    Ok(false)
}

/// Returns the path of the record of an image: `NAME.tested` for `NAME.img`.
fn record_path(alloc: Global, path: &str) -> Result<String, AllocError> {
    let stem = path.strip_suffix(".img").unwrap_or(path);
    let mut record = String::from_str(alloc, stem)?;
    record.push_str(".tested")?;
    Ok(record)
}

/// Returns whether the file at `path` is a record that starts with `prefix`.
fn holds_record(rt: &HostRuntime, path: &str, prefix: &str) -> bool {
    if !fs::metadata(rt, path).is_ok_and(|found| found.is_file() && found.len() < RECORD_MAX) {
        return false;
    }
    match WholeFile::read(rt, path) {
        Ok(record) => is_record(&record.bytes, prefix.as_bytes()),
        Err(_) => false,
    }
}

/// Returns whether a record consists of `prefix`, 64 more bytes and a line feed.
fn is_record(record: &[u8], prefix: &[u8]) -> bool {
    match record.strip_prefix(prefix) {
        Some(digits) => digits.len() == DIGITS && digits.ends_with(b"\n"),
        None => false,
    }
}

/// Returns the bytes of an image's record up to its SHA-256: the version of the record format, and
/// the metadata that distinguish this file from every other one.
fn record_prefix(alloc: Global, image: &Metadata) -> Result<String, AllocError> {
    let device = image.dev();
    let major = ((device >> 8) & 0xfff) | ((device >> 32) & 0xffff_f000);
    let minor = (device & 0xff) | ((device >> 12) & 0xffff_ff00);
    format!(in alloc;
        "kumquatsieve-tested 1\ndevice {major}:{minor}\ninode {}\nsize {}\nmtime {}.{:09}\nctime {}.{:09}\nsha256 ",
        image.ino(),
        image.size(),
        image.mtime(),
        image.mtime_nsec(),
        image.ctime(),
        image.ctime_nsec(),
    )
}
