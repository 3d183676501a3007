//! The host's files, with calls that fail on demand.

use std::alloc::{Allocator, Global};
use std::cell::Cell;
use std::fs::{File, Metadata, OpenFile, OpenOptions, Permissions};
use std::io::{self, ErrorKind, Read, Seek, SeekFrom, Write};
use std::os::unix::fs::PermissionsExt;
use std::path::PathBuf;
use std::rt::Files;

/// A runtime that passes calls on to the host's files, except those that fail.
#[derive(Drop)]
pub(crate) struct FailingFiles<'a> {
    pub rt: &'a HostRuntime,
    /// `room` is how many bytes a file accepts in total, `at_once` how many in each write.
    pub room: usize,
    pub at_once: usize,
    /// Whether a signal interrupts the first write of each file.
    pub interrupts: bool,
    /// Whether `sync_all` succeeds.
    pub syncs: bool,
    /// Whether renaming succeeds.
    pub renames: bool,
    /// The number of files opened so far.
    pub opened: Cell<usize>,
}

impl<'a> FailingFiles<'a> {
    /// Returns the host's files, with no failing calls.
    pub(crate) fn none(rt: &'a HostRuntime) -> FailingFiles<'a> {
        FailingFiles {
            rt,
            room: usize::MAX,
            at_once: usize::MAX,
            interrupts: false,
            syncs: true,
            renames: true,
            opened: Cell::new(0),
        }
    }
}

/// A file opened by `FailingFiles`.
#[derive(Drop)]
pub(crate) struct FailingFile {
    file: File,
    room: usize,
    at_once: usize,
    interrupts: bool,
    syncs: bool,
}

fn rejected() -> io::Error {
    io::Error::from(ErrorKind::StorageFull)
}

impl Read for FailingFile {
    fn read(&mut self, buf: &mut [u8]) -> io::Result<usize> {
        self.file.read(buf)
    }
}

impl Write for FailingFile {
    fn write(&mut self, buf: &[u8]) -> io::Result<usize> {
        if self.interrupts {
            self.interrupts = false;
            return Err(io::Error::from(ErrorKind::Interrupted));
        }
        let taken = buf.len().min(self.at_once).min(self.room);
        if taken == 0 {
            return Err(rejected());
        }
        self.room -= taken;
        self.file.write(&buf[..taken])
    }

    fn flush(&mut self) -> io::Result<()> {
        self.file.flush()
    }
}

impl Seek for FailingFile {
    fn seek(&mut self, to: SeekFrom) -> io::Result<u64> {
        self.file.seek(to)
    }
}

impl OpenFile for FailingFile {
    fn metadata(&self) -> io::Result<Metadata> {
        self.file.metadata()
    }

    fn set_len(&self, size: u64) -> io::Result<()> {
        self.file.set_len(size)
    }

    fn sync_all(&self) -> io::Result<()> {
        if self.syncs {
            self.file.sync_all()
        } else {
            Err(rejected())
        }
    }

    fn sync_data(&self) -> io::Result<()> {
        self.file.sync_data()
    }

    /// Sets the mode, but fails if it removes a permission that the file has.
    fn set_permissions(&self, perm: Permissions) -> io::Result<()> {
        let until_now = self.file.metadata()?.permissions().mode();
        if until_now & !perm.mode() & 0o777 != 0 {
            return Err(rejected());
        }
        self.file.set_permissions(perm)
    }
}

impl Alloc for FailingFiles<'_> {
    type A = Global;

    fn alloc(&self) -> Global {
        self.rt.alloc()
    }
}

impl Files for FailingFiles<'_> {
    type File = FailingFile;

    type Dir = <HostRuntime as Files>::Dir;

    fn open_file(&self, how: &OpenOptions, path: &str) -> io::Result<FailingFile> {
        let file = self.rt.open_file(how, path)?;
        self.opened.set(self.opened.get().saturating_add(1));
        Ok(FailingFile {
            file,
            room: self.room,
            at_once: self.at_once,
            interrupts: self.interrupts,
            syncs: self.syncs,
        })
    }

    fn open_dir(&self, path: &str) -> io::Result<Self::Dir> {
        self.rt.open_dir(path)
    }

    fn metadata(&self, path: &str) -> io::Result<Metadata> {
        self.rt.metadata(path)
    }

    fn symlink_metadata(&self, path: &str) -> io::Result<Metadata> {
        self.rt.symlink_metadata(path)
    }

    fn copy(&self, from: &str, to: &str) -> io::Result<u64> {
        self.rt.copy(from, to)
    }

    fn rename(&self, from: &str, to: &str) -> io::Result<()> {
        if self.renames {
            self.rt.rename(from, to)
        } else {
            Err(rejected())
        }
    }

    fn remove_file(&self, path: &str) -> io::Result<()> {
        self.rt.remove_file(path)
    }

    fn create_dir(&self, path: &str) -> io::Result<()> {
        self.rt.create_dir(path)
    }

    fn remove_dir(&self, path: &str) -> io::Result<()> {
        self.rt.remove_dir(path)
    }

    fn remove_dir_all<B: Allocator>(&self, alloc: B, path: &str) -> io::Result<()> {
        self.rt.remove_dir_all(alloc, path)
    }

    fn canonicalize<B: Allocator>(&self, alloc: B, path: &str) -> io::Result<PathBuf<B>> {
        self.rt.canonicalize(alloc, path)
    }
}
