//! What is printed about compilations.

use super::is_printed;
use dict_compile::{CompileUserFault, Compiled};
use dictc_lib::print_counts;
use mj_model::{SourceFault, SourceKind};
use programs::Fault;
use std::alloc::Global;
use std::io::{self, ErrorKind, Write};
use std::test::Fail;
use test_support::text::{FaultRow, expect_printed};

/// A writer that accepts `room` bytes in total, and whose flush fails unless `flushes`.
#[derive(Drop)]
struct Full {
    room: usize,
    flushes: bool,
}

impl Write for Full {
    fn write(&mut self, buf: &[u8]) -> io::Result<usize> {
        let taken = buf.len().min(self.room);
        self.room -= taken;
        if taken == 0 && !buf.is_empty() {
            return Err(io::Error::from(ErrorKind::StorageFull));
        }
        Ok(taken)
    }

    fn flush(&mut self) -> io::Result<()> {
        if self.flushes {
            Ok(())
        } else {
            Err(io::Error::from(ErrorKind::StorageFull))
        }
    }
}

fn compiled(alloc: Global, entries: u64, skipped: u128) -> Compiled {
    Compiled {
        image: Vec::new(alloc),
        entries,
        skipped,
    }
}

#[rattlefmt::skip]
static PRINTED_COMPILATIONS: [(u64, u128, &str); 3] = [
    // (entries, skipped, line)
    (0,       0,         "0 entries, 0 skipped\n"),
    (3,       1,         "3 entries, 1 skipped\n"),
    (392_127, u128::MAX, "392127 entries, 340282366920938463463374607431768211455 skipped\n"),
];

#[test]
fn printed_compilations(rt: HostRuntime) {
    for (entries, skipped, line) in &PRINTED_COMPILATIONS {
        let counts = compiled(rt.alloc(), *entries, *skipped);
        assert!(rt; is_printed(rt.alloc(), &counts, line), "{line}");
    }
}

#[rattlefmt::skip]
static COMPILATIONS_THAT_CANNOT_BE_PRINTED: [(&str, usize, bool, bool); 4] = [
    // (what, room in bytes, whether a flush succeeds, whether printing succeeds)
    ("room for all",  21, true,  true),
    ("no room",       0,  true,  false),
    ("room for some", 5,  true,  false),
    ("not flushed",   21, false, false),
];

#[test]
fn compilations_that_cannot_be_printed(rt: HostRuntime) -> Result<(), Fail> {
    for (what, room, flushes, prints) in &COMPILATIONS_THAT_CANNOT_BE_PRINTED {
        let mut writer = Full {
            room: *room,
            flushes: *flushes,
        };
        let reported = print_counts(&compiled(rt.alloc(), 3, 1), &mut writer);
        let fault = if *prints { None } else { Some(Fault::Output) };
        assert!(rt; reported.err() == fault, "{what}");
    }
    Ok(())
}

#[rattlefmt::skip]
static PRINTED_FAULTS_OF_USERS: [FaultRow<CompileUserFault>; 2] = [
    // (error, code, name, text)
    (CompileUserFault::NotSystem, "O1", "NotSystem", "O1 NotSystem"),
    (CompileUserFault::Source(SourceFault { file: 3, line: 7, kind: SourceKind::BadNumber }),
        "S3", "BadNumber", "file 3, line 7: S3 BadNumber"),
];

#[test]
fn printed_faults_of_users(rt: HostRuntime) -> Result<(), Fail> {
    expect_printed(rt.alloc(), &PRINTED_FAULTS_OF_USERS)
}
