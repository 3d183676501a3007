//! Counted reads.

use super::device::{Device, RESULTS, kind_of};
use mj_model::{Counted, TextIn};
use std::io::ErrorKind::{self, Interrupted, OutOfMemory, TimedOut};
use std::io::Read;

/// Counted reads.
#[rattlefmt::skip]
static READS: [(
    &str,
    Result<usize, ErrorKind>,
    usize,
    Result<usize, ErrorKind>,
    &[u8; 4],
    u64,
    u64,
); 8] = [
    // (what, result of the device, length of the buffer, result, bytes, ends, failures)
    ("a whole read",        Ok(4),            4, Ok(4),            b"zzzz", 0, 0),
    ("a short read",        Ok(3),            4, Ok(3),            b"zzz.", 0, 0),
    ("the end",             Ok(0),            4, Ok(0),            b"....", 1, 0),
    ("no room",             Ok(4),            0, Ok(0),            b"....", 0, 0),
    ("interrupted",         Err(Interrupted), 4, Err(Interrupted), b"....", 0, 1),
    ("timed out",           Err(TimedOut),    4, Err(TimedOut),    b"....", 0, 1),
    ("out of memory",       Err(OutOfMemory), 4, Err(OutOfMemory), b"....", 0, 1),
    ("fails and has no room", Err(TimedOut),  0, Err(TimedOut),    b"....", 0, 1),
];

/// Returns whether a counted read into `room` bytes returns `expected`, and leaves `bytes` and
/// `counts`.
fn is_read(
    given: Result<usize, ErrorKind>,
    room: usize,
    expected: Result<usize, ErrorKind>,
    bytes: &[u8; 4],
    counts: (u64, u64),
) -> bool {
    let mut buffer = *b"....";
    let length = buffer.len().min(room);
    let mut counted = Counted::new(Device::new(given));
    let got = kind_of(counted.read_counted(&mut buffer[..length]));
    got == expected
        && buffer == *bytes
        && counted.reads() == 1
        && (counted.ends(), counted.failures()) == counts
        && counted.get_ref().was_called_with(room)
}

#[test]
fn reads(rt: HostRuntime) {
    for (what, given, room, expected, bytes, ends, failures) in &READS {
        let same = is_read(*given, *room, *expected, bytes, (*ends, *failures));
        assert!(rt; same, "{what}");
    }
}

/// Returns whether a plain read returns the device's result and counts nothing.
fn is_plain_read(given: Result<usize, ErrorKind>) -> bool {
    let mut plain = Counted::new(Device::new(given));
    let got = kind_of(plain.read(&mut [0; 4]));
    got == given
        && (plain.reads(), plain.ends(), plain.failures()) == (0, 0, 0)
        && plain.get_ref().was_called_with(4)
}

#[test]
fn plain_reads(rt: HostRuntime) {
    for (what, given) in &RESULTS {
        assert!(rt; is_plain_read(*given), "{what}");
    }
}
