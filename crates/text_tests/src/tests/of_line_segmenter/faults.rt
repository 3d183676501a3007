//! Codes, names and texts of errors.

use SegmentFault::{
    BadGrouping, Format, Image, LineFeed, Memory, NoWord, NotUtf8, NothingSegmented, Overlay,
    Shared, TooLong,
};
use line_segmenter::{LinesFault, SegmentFault};
use mj_model::{FormatFault, FormatKind, FormatPart, ImageFault, OverlayFault};
use std::test::Fail;
use test_support::text::{FaultRow, expect_printed};

const BAD_ITEM: FormatFault = FormatFault::Bad {
    part: FormatPart::Unk,
    at: 7,
    kind: FormatKind::BadItem,
};

#[rattlefmt::skip]
static FAULT_WORDS: [FaultRow<SegmentFault>; 11] = [
    // (error, code, name, text)
    (Image(ImageFault::BadSection(5)),  "L4",     "BadSection",       "L4 BadSection 5"),
    (Overlay(OverlayFault::NotUser(1)), "O2",     "NotUser",          "O2 NotUser 1"),
    (Format(BAD_ITEM),                  "P2",     "BadItem",          "P2 BadItem 7"),
    (NotUtf8,                           "G3",     "NotUtf8",          "G3 NotUtf8"),
    (TooLong,                           "G4",     "TooLong",          "G4 TooLong"),
    (LineFeed(3),                       "K1",     "LineFeed",         "K1 LineFeed 3"),
    (NothingSegmented,                  "K2",     "NothingSegmented", "K2 NothingSegmented"),
    (Shared,                            "K3",     "Shared",           "K3 Shared"),
    (BadGrouping,                       "K4",     "BadGrouping",      "K4 BadGrouping"),
    (NoWord(2),                         "K8",     "NoWord",           "K8 NoWord 2"),
    (Memory,                            "Memory", "Memory",           "Memory"),
];

#[test]
fn fault_words(rt: HostRuntime) -> Result<(), Fail> {
    expect_printed(rt.alloc(), &FAULT_WORDS)
}

static STOPPED_LINES: [(u64, SegmentFault, &str); 3] = [
    // (line, error, text)
    (1, TooLong, "line 1: G4 TooLong"),
    (3, NotUtf8, "line 3: G3 NotUtf8"),
    (2, Memory, "line 2: Memory"),
];

#[test]
fn stopped_lines(rt: HostRuntime) -> Result<(), Fail> {
    for (line, fault, text) in &STOPPED_LINES {
        let stopped = LinesFault {
            line: *line,
            fault: *fault,
        };
        let printed = format!(in rt.alloc(); "{stopped}")?;
        assert_eq!(rt; printed.as_str(), *text);
    }
    Ok(())
}
