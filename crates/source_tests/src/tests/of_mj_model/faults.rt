//! Codes, names and texts of errors.
use FormatFault::Bad;
use FormatKind::{BadEscape, BadIndex, BadItem};
use FormatPart::{Bos, Eos, Node, Unk};
use mj_model::{
    FormatFault, FormatKind, FormatPart, ImageFault, NO_FILE, OverlayFault, RunFault, SourceFault,
    SourceKind,
};
use std::alloc::Global;
use std::test::Fail;
use test_support::text::{FaultRow, expect_printed, is_printed_as};

/// Errors in a line of a source, and in the sources as a whole.
#[rattlefmt::skip]
static KINDS: [FaultRow<SourceKind>; 22] = [
    // (kind, code, name, text)
    (SourceKind::NotUtf8,            "S1",     "NotUtf8",          "S1 NotUtf8"),
    (SourceKind::TooFewFields,       "S2",     "TooFewFields",     "S2 TooFewFields"),
    (SourceKind::BadNumber,          "S3",     "BadNumber",        "S3 BadNumber"),
    (SourceKind::SurfaceTooLong,     "S4",     "SurfaceTooLong",   "S4 SurfaceTooLong"),
    (SourceKind::TooManyEntries,     "S5",     "TooMany",          "S5 TooMany"),
    (SourceKind::BadHeader,          "M1",     "BadHeader",        "M1 BadHeader"),
    (SourceKind::BadRow,             "M2",     "BadRow",           "M2 BadRow"),
    (SourceKind::PairOutside,        "M3",     "PairOutside",      "M3 PairOutside"),
    (SourceKind::TooLarge,           "M4",     "TooLarge",         "M4 TooLarge"),
    (SourceKind::BadLine,            "C1",     "BadLine",          "C1 BadLine"),
    (SourceKind::BadRange,           "C2",     "BadRange",         "C2 BadRange"),
    (SourceKind::Twice,              "C3",     "Twice",            "C3 Twice"),
    (SourceKind::UndefinedCategory,  "C4",     "NoSuchCategory",   "C4 NoSuchCategory"),
    (SourceKind::TooManyCategories,  "C5",     "TooMany",          "C5 TooMany"),
    (SourceKind::NoDefault,          "C6",     "NoDefault",        "C6 NoDefault"),
    (SourceKind::NoSpace,            "C7",     "NoSpace",          "C7 NoSpace"),
    (SourceKind::NoSuchCategory,     "U1",     "NoSuchCategory",   "U1 NoSuchCategory"),
    (SourceKind::MissingCategory(4), "U2",     "MissingCategory",  "U2 MissingCategory 4"),
    (SourceKind::IdOutside,          "I1",     "IdOutside",        "I1 IdOutside"),
    (SourceKind::ArrayFull,          "I2",     "ArrayFull",        "I2 ArrayFull"),
    (SourceKind::FeaturesTooLarge,   "I3",     "FeaturesTooLarge", "I3 FeaturesTooLarge"),
    (SourceKind::Memory,             "Memory", "Memory",           "Memory"),
];

/// Errors of an image.
#[rattlefmt::skip]
static IMAGES: [FaultRow<ImageFault>; 9] = [
    // (error, code, name, text)
    (ImageFault::Truncated,         "L1",     "Truncated",  "L1 Truncated"),
    (ImageFault::BadMagic,          "L2",     "BadMagic",   "L2 BadMagic"),
    (ImageFault::BadLayout(9),      "L3",     "BadLayout",  "L3 BadLayout 9"),
    (ImageFault::BadSection(5),     "L4",     "BadSection", "L4 BadSection 5"),
    (ImageFault::BadKey(70_000),    "L5",     "BadKey",     "L5 BadKey 70000"),
    (ImageFault::BadToken(0),       "L6",     "BadToken",   "L6 BadToken 0"),
    (ImageFault::BadText(u32::MAX), "L7",     "BadText",    "L7 BadText 4294967295"),
    (ImageFault::Digest,            "L8",     "Digest",     "L8 Digest"),
    (ImageFault::Memory,            "Memory", "Memory",     "Memory"),
];

/// Errors of combining a system dictionary with user dictionaries.
#[rattlefmt::skip]
static OVERLAYS: [FaultRow<OverlayFault>; 3] = [
    // (error, code, name, text)
    (OverlayFault::NotSystem,      "O1", "NotSystem",  "O1 NotSystem"),
    (OverlayFault::NotUser(0),     "O2", "NotUser",    "O2 NotUser 0"),
    (OverlayFault::OtherSizes(12), "O3", "OtherSizes", "O3 OtherSizes 12"),
];

/// Errors of formats.
#[rattlefmt::skip]
static FORMATS: [FaultRow<FormatFault>; 6] = [
    // (error, code, name, text)
    (Bad { part: Node, at: 1,      kind: BadEscape }, "P1",     "BadEscape", "P1 BadEscape 1"),
    (Bad { part: Node, at: 16,     kind: BadItem },   "P2",     "BadItem",   "P2 BadItem 16"),
    (Bad { part: Unk,  at: 0,      kind: BadIndex },  "P3",     "BadIndex",  "P3 BadIndex 0"),
    (Bad { part: Bos,  at: 0,      kind: BadItem },   "P2",     "BadItem",   "P2 BadItem 0"),
    (Bad { part: Eos,  at: 70_000, kind: BadEscape }, "P1",     "BadEscape", "P1 BadEscape 70000"),
    (FormatFault::Memory,                             "Memory", "Memory",    "Memory"),
];

/// The error in the first line of a lexicon, for a quote without an end.
const OPEN_QUOTE: SourceFault = SourceFault {
    file: 3,
    line: 1,
    kind: SourceKind::TooFewFields,
};

/// Errors of a run over a text.
#[rattlefmt::skip]
static RUNS: [FaultRow<RunFault>; 8] = [
    // (error, code, name, text)
    (RunFault::Source(OPEN_QUOTE), "S2",     "TooFewFields", "file 3, line 1: S2 TooFewFields"),
    (RunFault::UserSource(1, OPEN_QUOTE), "S2", "TooFewFields", "file 3, line 1: S2 TooFewFields"),
    (RunFault::Read(2),            "G1",     "Read",         "line 2: G1 Read"),
    (RunFault::Write(120),         "G2",     "Write",        "G2 Write 120"),
    (RunFault::NotUtf8(3),         "G3",     "NotUtf8",      "line 3: G3 NotUtf8"),
    (RunFault::TooLong(1),         "G4",     "TooLong",      "line 1: G4 TooLong"),
    (RunFault::InputTooLong(2),    "G5",     "InputTooLong", "line 2: G5 InputTooLong"),
    (RunFault::Memory(5),          "Memory", "Memory",       "Memory"),
];

#[test]
fn codes_names_and_texts(rt: HostRuntime) -> Result<(), Fail> {
    expect_printed(rt.alloc(), &KINDS)?;
    expect_printed(rt.alloc(), &IMAGES)?;
    expect_printed(rt.alloc(), &OVERLAYS)?;
    expect_printed(rt.alloc(), &FORMATS)?;
    expect_printed(rt.alloc(), &RUNS)
}

/// Positions of errors in sources.
#[rattlefmt::skip]
static PLACES: [(u32, u64, &str); 4] = [
    // (file, line, the start of the text)
    (0,       1,        "file 0, line 1: "),
    (2,       0,        "file 2, line 0: "),
    (3,       u64::MAX, "file 3, line 18446744073709551615: "),
    (NO_FILE, 0,        "file 4294967295, line 0: "),
];

/// Returns whether an error is printed after its position.
fn is_reported_at(
    alloc: Global,
    row: &FaultRow<SourceKind>,
    place: &(u32, u64, &str),
) -> Result<bool, Fail> {
    let (kind, code, name, text) = *row;
    let (file, line, start) = *place;
    let text = format!(in alloc; "{start}{text}")?;
    is_printed_as(alloc, kind.at(file, line), code, name, text.as_str())
}

#[test]
fn places_of_sources(rt: HostRuntime) -> Result<(), Fail> {
    for place in &PLACES {
        for row in &KINDS {
            assert!(rt;
                is_reported_at(rt.alloc(), row, place)?,
                "{} {}",
                place.2,
                row.3
            );
        }
    }
    Ok(())
}
