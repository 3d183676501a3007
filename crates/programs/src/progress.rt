//! The progress line on a terminal while a file is read or a text is segmented.

use crate::excerpt::Excerpt;
use crate::output::write_whole;
use std::cell::Cell;
use std::fmt::{self, Display, Formatter, Write};
use std::io::IsTerminal;
use std::time::{Duration, Instant};

/// Time before the first progress line, in seconds.
const DELAY_SECONDS: u64 = 2;

/// Minimum time between two updates of the line, in milliseconds.
const REFRESH_MILLISECONDS: u64 = 250;

/// Maximum number of characters of a path, so that the progress fits in one line of a terminal.
const PATH_MAX: usize = 40;

/// Shows the progress of a long step in one line of standard error, which is updated at most four
/// times a second. It appears only on a terminal, and only after two seconds. A failed write is
/// ignored.
#[derive(Drop)]
pub struct Progress<'a> {
    rt: &'a HostRuntime,
    /// Time of the next update; None if standard error is not a terminal.
    next: Cell<Option<Instant>>,
    is_shown: Cell<bool>,
}

/// The progress of reading the file at `path`. `all` is its length in bytes, or 0 if it is not
/// known.
#[derive(Clone, Copy)]
pub struct ReadProgress<'a> {
    pub progress: &'a Progress<'a>,
    pub path: &'a str,
    pub all: u64,
}

/// Displays the number of bytes read of a file. `all` is its length in bytes, or 0 if it is not
/// known.
#[derive(Clone, Copy)]
struct BytesRead<'a> {
    path: &'a str,
    bytes: u64,
    all: u64,
}

impl<'a> Progress<'a> {
    /// Starts the progress of a step.
    pub fn new(rt: &'a HostRuntime) -> Progress<'a> {
        let started = if rt.stderr().is_terminal() {
            Instant::now(rt).ok()
        } else {
            None
        };
        Progress {
            rt,
            next: Cell::new(started.and_then(|started| started.checked_add(Duration::from_secs(
                DELAY_SECONDS,
            )))),
            is_shown: Cell::new(false),
        }
    }

    /// Erases the line, after the step.
    pub fn erase(&self) {
        if self.is_shown.get() {
            self.is_shown.set(false);
            let _ = write_whole(&mut self.rt.stderr(), b"\r\x1b[K");
        }
    }

    /// Replaces the line by `line` if enough time has passed.
    pub fn show<T: Display>(&self, line: &T) {
        let Some(next) = self.next.get() else {
            return;
        };
        let Ok(now) = Instant::now(self.rt) else {
            return;
        };
        if now >= next {
            self.next.set(now.checked_add(Duration::from_millis(REFRESH_MILLISECONDS)));
            self.write(line);
        }
    }

    fn write<T: Display>(&self, line: &T) {
        if let Ok(text) = format!(in self.rt.alloc(); "\r{line}\u{1b}[K") {
            self.is_shown.set(true);
            let _ = write_whole(&mut self.rt.stderr(), text.as_bytes());
        }
    }
}

impl ReadProgress<'_> {
    /// Updates the line with the number of bytes read, if enough time has passed.
    pub fn report_progress(&self, bytes: u64) {
        self.progress.show(&BytesRead {
            path: self.path,
            bytes,
            all: self.all,
        });
    }
}

impl Display for BytesRead<'_> {
    fn fmt<W: Write>(&self, f: &mut Formatter<W>) -> fmt::Result {
        let BytesRead { path, bytes, all } = *self;
        let path = Excerpt {
            text: path,
            most: PATH_MAX,
        };
        match all {
            0 => write!(f, "reading {path}: {bytes} bytes"),
            all => write!(f, "reading {path}: {bytes} of {all} bytes"),
        }
    }
}
