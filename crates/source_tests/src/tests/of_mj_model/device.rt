//! A reader and writer that returns the same result from each call.

ghost use Rattle.std.specs.Prelude.{◌≤◌, IfOk};

use std::io;
use std::io::ErrorKind::{self, Interrupted, TimedOut};
use std::io::{Read, Write};

/// Results of a device, by name.
#[rattlefmt::skip]
pub static RESULTS: [(&str, Result<usize, ErrorKind>); 5] = [
    // (what, the result)
    ("all of four bytes", Ok(4)),
    ("three of them",     Ok(3)),
    ("none",              Ok(0)),
    ("interrupted",       Err(Interrupted)),
    ("timed out",         Err(TimedOut)),
];

/// Returns `returned` with the kind of its error alone.
pub fn kind_of<T>(returned: io::Result<T>) -> Result<T, ErrorKind> {
    match returned {
        Ok(value) => Ok(value),
        Err(error) => Err(error.kind()),
    }
}

/// Reads or writes up to a fixed number of bytes, or fails with a fixed error.
///
/// It records how often it was called, and the length of the last buffer.
#[derive(Drop)]
pub struct Device {
    returned: Result<usize, ErrorKind>,
    calls: u64,
    requested: usize,
}

impl Device {
    /// Creates a device that was not called yet.
    pub fn new(returned: Result<usize, ErrorKind>) -> Device {
        Device {
            returned,
            calls: 0,
            requested: 0,
        }
    }

    /// Returns whether the device was called once, with a buffer of `count` bytes.
    pub fn was_called_with(&self, count: usize) -> bool {
        self.calls == 1 && self.requested == count
    }

    fn called(&mut self, requested: usize) -> io::Result<usize>
        ensures { IfOk result (λ count. count ≤ requested) }
    {
        self.calls = self.calls.saturating_add(1);
        self.requested = requested;
        match self.returned {
            Ok(count) => Ok(count.min(requested)),
            Err(kind) => Err(io::Error::from(kind)),
        }
    }
}

impl Read for Device {
    fn read(&mut self, buf: &mut [u8]) -> io::Result<usize> {
        let count = self.called(buf.len())?;
        buf[..count].fill(b'z');
        Ok(count)
    }
}

impl Write for Device {
    fn write(&mut self, buf: &[u8]) -> io::Result<usize> {
        self.called(buf.len())
    }

    fn flush(&mut self) -> io::Result<()> {
        let _count = self.called(0)?;
        Ok(())
    }
}
