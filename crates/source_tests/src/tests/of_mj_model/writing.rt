//! Counted writes and flushes.

use super::device::{Device, RESULTS, kind_of};
use mj_model::{Counted, TextOut};
use std::io::ErrorKind::{self, Interrupted, OutOfMemory, TimedOut};
use std::io::Write;

/// Counted writes.
#[rattlefmt::skip]
static WRITES: [(
    &str,
    Result<usize, ErrorKind>,
    &str,
    Result<usize, ErrorKind>,
    u64,
    bool,
); 8] = [
    // (what, result of the device, bytes, result, failures, whether a flush is due)
    ("a whole write",             Ok(4),            "zzzz", Ok(4),            0, true),
    ("a short write",             Ok(3),            "zzzz", Ok(3),            0, true),
    ("nothing is taken",          Ok(0),            "zzzz", Ok(0),            1, false),
    ("nothing to write",          Ok(4),            "",     Ok(0),            0, false),
    ("interrupted",               Err(Interrupted), "zzzz", Err(Interrupted), 1, false),
    ("timed out",                 Err(TimedOut),    "zzzz", Err(TimedOut),    1, false),
    ("out of memory",             Err(OutOfMemory), "zzzz", Err(OutOfMemory), 1, false),
    ("fails and nothing to write", Err(TimedOut),   "",     Err(TimedOut),    1, false),
];

/// Returns whether a counted write of `bytes` returns `expected`, counts `failures`, and leaves a
/// flush due if `due`.
fn is_written(
    given: Result<usize, ErrorKind>,
    bytes: &str,
    expected: Result<usize, ErrorKind>,
    failures: u64,
    due: bool,
) -> bool {
    let mut counted = Counted::new(Device::new(given));
    let got = kind_of(counted.write_counted(bytes.as_bytes()));
    got == expected
        && (counted.failures(), counted.flushes(), counted.unflushed()) == (failures, 0, due)
        && counted.get_ref().was_called_with(bytes.len())
}

#[test]
fn writes(rt: HostRuntime) {
    for (what, given, bytes, expected, failures, due) in &WRITES {
        let same = is_written(*given, bytes, *expected, *failures, *due);
        assert!(rt; same, "{what}");
    }
}

/// Counted flushes.
#[rattlefmt::skip]
static FLUSHES: [(&str, Result<usize, ErrorKind>, Result<(), ErrorKind>, u64); 4] = [
    // (what, result of the device, result, failures)
    ("flushed",       Ok(4),            Ok(()),           0),
    ("interrupted",   Err(Interrupted), Err(Interrupted), 1),
    ("timed out",     Err(TimedOut),    Err(TimedOut),    1),
    ("out of memory", Err(OutOfMemory), Err(OutOfMemory), 1),
];

/// Returns whether a counted flush returns `expected` and counts `failures`.
fn is_flushed(
    given: Result<usize, ErrorKind>,
    expected: Result<(), ErrorKind>,
    failures: u64,
) -> bool {
    let mut counted = Counted::new(Device::new(given));
    let got = kind_of(counted.flush_counted());
    got == expected
        && (counted.failures(), counted.flushes(), counted.unflushed()) == (failures, 1, false)
        && counted.get_ref().was_called_with(0)
}

#[test]
fn flushes(rt: HostRuntime) {
    for (what, given, expected, failures) in &FLUSHES {
        assert!(rt; is_flushed(*given, *expected, *failures), "{what}");
    }
}

/// Returns whether nothing is counted.
fn has_no_counts(plain: &Counted<Device>) -> bool {
    (plain.failures(), plain.flushes(), plain.unflushed()) == (0, 0, false)
}

/// Returns whether a plain write returns the device's result and counts nothing.
fn is_plain_write(given: Result<usize, ErrorKind>) -> bool {
    let mut plain = Counted::new(Device::new(given));
    let got = kind_of(plain.write(b"zzzz"));
    got == given && has_no_counts(&plain) && plain.get_ref().was_called_with(4)
}

#[test]
fn plain_writes(rt: HostRuntime) {
    for (what, given) in &RESULTS {
        assert!(rt; is_plain_write(*given), "{what}");
    }
}

/// Returns whether a plain flush returns the device's result and counts nothing.
fn is_plain_flush(given: Result<usize, ErrorKind>) -> bool {
    let mut plain = Counted::new(Device::new(given));
    let got = kind_of(plain.flush());
    let expected = match given {
        Ok(_count) => Ok(()),
        Err(kind) => Err(kind),
    };
    got == expected && has_no_counts(&plain) && plain.get_ref().was_called_with(0)
}

#[test]
fn plain_flushes(rt: HostRuntime) {
    for (what, given) in &RESULTS {
        assert!(rt; is_plain_flush(*given), "{what}");
    }
}
