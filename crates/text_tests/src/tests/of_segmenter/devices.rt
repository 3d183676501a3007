//! Readers and writers in memory that transfer few bytes at a time, and fail on demand.

use std::alloc::Global;
use std::io;
use std::io::{ErrorKind, Read, Write};

/// A reader that returns at most `step` bytes in each read. Read number `fails_at`, counted from 1,
/// fails with `failure`.
#[derive(Drop)]
pub struct StepReader<'a> {
    pub bytes: &'a [u8],
    pub step: usize,
    pub fails_at: Option<u64>,
    pub failure: ErrorKind,
    pub reads: u64,
}

impl Read for StepReader<'_> {
    fn read(&mut self, buf: &mut [u8]) -> io::Result<usize> {
        self.reads = self.reads.saturating_add(1);
        if self.fails_at == Some(self.reads) {
            return Err(io::Error::from(self.failure));
        }
        let bytes = self.bytes;
        let most = bytes.len().min(self.step).min(buf.len());
        buf[..most].copy_from_slice(&bytes[..most]);
        self.bytes = &bytes[most..];
        Ok(most)
    }
}

/// A writer that accepts at most `step` bytes in each write and `room` in total.
///
/// After that it fails with `failure`, or accepts 0 bytes if it is `silent`.
#[derive(Drop)]
pub struct StepWriter {
    pub taken: Vec<u8>,
    pub step: usize,
    pub room: usize,
    pub silent: bool,
    pub flush_fails: bool,
    pub failure: ErrorKind,
    /// The number of flushes.
    pub flushes: u64,
    /// The length of the longest write in bytes.
    pub longest: usize,
}

impl Write for StepWriter {
    fn write(&mut self, buf: &[u8]) -> io::Result<usize> {
        self.longest = self.longest.max(buf.len());
        let most = buf.len().min(self.step).min(self.room);
        if most == 0 && !self.silent {
            return Err(io::Error::from(self.failure));
        }
        self.taken.extend_from_slice(&buf[..most])?;
        self.room -= most;
        Ok(most)
    }

    fn flush(&mut self) -> io::Result<()> {
        self.flushes = self.flushes.saturating_add(1);
        if self.flush_fails {
            return Err(io::Error::from(self.failure));
        }
        Ok(())
    }
}

/// Returns a reader that fails at read number `fails_at`, if there is one.
pub fn reader(bytes: &[u8], step: usize, fails_at: Option<u64>) -> StepReader<'_> {
    StepReader {
        bytes,
        step,
        fails_at,
        failure: ErrorKind::Other,
        reads: 0,
    }
}

/// Returns a writer that accepts `room` bytes in total.
pub fn writer(alloc: Global, step: usize, room: usize) -> StepWriter {
    StepWriter {
        taken: Vec::new(alloc),
        step,
        room,
        silent: false,
        flush_fails: false,
        failure: ErrorKind::Other,
        flushes: 0,
        longest: 0,
    }
}
