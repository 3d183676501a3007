//! The reason why a file or directory can't be read, found out after the failure.

use std::alloc::{AllocError, Global};
use std::fs::{self, Metadata};
use std::io::{Error, ErrorKind};
use std::string::String;

/// Why the file or directory at a path can't be read.
#[derive(Clone, Copy)]
pub enum FileError {
    NotThere,
    IsDirectory,
    NotAllowed,
    /// It is a directory that contains a name that is not UTF-8.
    HasBadName,
    /// It can be opened, but a read failed or the file doesn't end.
    ReadFailed,
    /// It can't be opened, for another reason of the system's.
    Other(Error),
}

impl FileError {
    /// Returns why the file or directory at `path` can't be read, after a read of it failed.
    pub fn of(rt: &HostRuntime, path: &str) -> FileError {
        match fs::metadata(rt, path) {
            Ok(found) if found.is_dir() => FileError::of_directory(rt, path),
            Ok(found) => FileError::of_file(rt, path, &found),
            Err(error) => FileError::of_error(&error),
        }
    }

    fn of_directory(rt: &HostRuntime, path: &str) -> FileError {
        match fs::read_dir(rt, path) {
            Ok(mut names) => {
                if names.any(|name| name.is_err()) {
                    FileError::HasBadName
                } else {
                    FileError::IsDirectory
                }
            }
            Err(error) => FileError::of_error(&error),
        }
    }

    /// Returns why a file that exists can't be read. Only a regular file is opened: opening a pipe
    /// could block.
    fn of_file(rt: &HostRuntime, path: &str, found: &Metadata) -> FileError {
        if !found.is_file() {
            return FileError::ReadFailed;
        }
        match fs::open(rt, path) {
            Ok(_) => FileError::ReadFailed,
            Err(error) => FileError::of_error(&error),
        }
    }

    fn of_error(error: &Error) -> FileError {
        match error.kind() {
            ErrorKind::NotFound => FileError::NotThere,
            ErrorKind::PermissionDenied => FileError::NotAllowed,
            _ => FileError::Other(*error),
        }
    }

    /// Returns the text of the hint.
    pub(crate) fn text(self, alloc: Global) -> Result<String, AllocError> {
        let text = match self {
            FileError::NotThere => "no such file or directory",
            FileError::IsDirectory => "is a directory",
            FileError::NotAllowed => "permission denied",
            FileError::HasBadName => "a file name in this directory is not UTF-8",
            FileError::ReadFailed => "a read failed",
            FileError::Other(error) => return reason_of(alloc, &error),
        };
        String::from_str(alloc, text)
    }
}

/// Returns the system's text of an error without its number, such as "No space left on device".
pub(crate) fn reason_of(alloc: Global, error: &Error) -> Result<String, AllocError> {
    let text = format!(in alloc; "{error}")?;
    match text.as_str().split_once(" (os error ") {
        Some((reason, _number)) => String::from_str(alloc, reason),
        None => Ok(text),
    }
}
