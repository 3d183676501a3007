//! Codes, names and texts of errors.

use mj_model::{RunFault, SourceFault, SourceKind};
use std::test::Fail;
use test_support::text::{FaultRow, expect_printed};

#[rattlefmt::skip]
static FAULT_WORDS: [FaultRow<RunFault>; 4] = [
    // (error, code, name, text)
    (RunFault::Source(SourceFault { file: 3, line: 1, kind: SourceKind::TooFewFields }),
        "S2", "TooFewFields", "file 3, line 1: S2 TooFewFields"),
    (RunFault::Write(120), "G2", "Write", "G2 Write 120"),
    (RunFault::NotUtf8(3), "G3", "NotUtf8", "line 3: G3 NotUtf8"),
    (RunFault::Memory(0), "Memory", "Memory", "Memory"),
];

#[test]
fn fault_words(rt: HostRuntime) -> Result<(), Fail> {
    expect_printed(rt.alloc(), &FAULT_WORDS)
}
