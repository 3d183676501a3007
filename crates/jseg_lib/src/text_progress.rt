//! The progress line on a terminal while a text is segmented.

use programs::Progress;
use std::fmt::{self, Display, Formatter, Write};
use std::fs;
use std::io::IsTerminal;
use std::time::{Duration, Instant};

/// Path of standard input. Its metadata are those of the file that standard input was opened from.
/// (Linux)
const STDIN_PATH: &str = "/dev/stdin";

/// Shows how much of a text of known length was segmented.
#[derive(Drop)]
pub(crate) struct TextProgress<'a> {
    rt: &'a HostRuntime,
    progress: &'a Progress<'a>,
    started: Instant,
    /// Length of the text in bytes.
    all: u64,
    /// Number of bytes read, up to the greatest `u64`.
    bytes: u64,
}

/// Displays how many bytes of a text were segmented, and the mean speed.
#[derive(Clone, Copy)]
struct BytesSegmented {
    bytes: u64,
    all: u64,
    spent: Duration,
}

impl<'a> TextProgress<'a> {
    /// Starts the progress of standard input. Returns None if standard input is not a regular file,
    /// or if standard output is a terminal.
    pub(crate) fn of_stdin(
        rt: &'a HostRuntime,
        progress: &'a Progress<'a>,
    ) -> Option<TextProgress<'a>> {
        let all = stdin_length(rt)?;
        if rt.stdout().is_terminal() {
            return None;
        }
        Some(TextProgress {
            rt,
            progress,
            started: Instant::now(rt).ok()?,
            all,
            bytes: 0,
        })
    }

    /// Updates the line if enough time has passed, after the bytes read so far were segmented. Then
    /// counts the next ones.
    pub(crate) fn add(&mut self, count: usize) {
        self.progress.show(&BytesSegmented {
            bytes: self.bytes,
            all: self.all.max(self.bytes),
            spent: self.started.elapsed(self.rt).unwrap_or(Duration::ZERO),
        });
        self.bytes = self.bytes.saturating_add(count as u64);
    }
}

/// Returns the length of standard input in bytes, if it is a regular file.
fn stdin_length(rt: &HostRuntime) -> Option<u64> {
    let found = fs::metadata(rt, STDIN_PATH).ok()?;
    found.is_file().then_some(found.len())
}

impl Display for BytesSegmented {
    fn fmt<W: Write>(&self, f: &mut Formatter<W>) -> fmt::Result {
        let BytesSegmented { bytes, all, spent } = *self;
        let percent = u128::from(bytes) * 100 / u128::from(all.max(1));
        // A thousand bytes a millisecond are a megabyte a second.
        let tenths = u128::from(bytes) / spent.as_millis().max(1) / 100;
        write!(
            f,
            "segmented {bytes} of {all} bytes, {percent} %, {}.{} MB/s",
            tenths / 10,
            tenths % 10
        )
    }
}
