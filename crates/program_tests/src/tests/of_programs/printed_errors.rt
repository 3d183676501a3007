//! What is printed about each error, and the exit statuses.

use mj_model::OverlayFault::{NotSystem, NotUser, OtherSizes};
use mj_model::{
    FormatFault, FormatKind, FormatPart, ImageFault, NO_FILE, NamedFault, OverlayFault, RunFault,
    SourceKind,
};
use programs::{Fault, report};
use std::alloc::{AllocError, Global};
use std::fmt::Display;
use std::string::String;
use std::test::Fail;
use test_support::text::{joined, printed};

/// Returns whether `text` contains the error's code and name. For an allocation failure it must be
/// the name.
fn has_words<F: NamedFault + Drop>(alloc: Global, text: &str, fault: F) -> Result<bool, Fail> {
    if fault.code() == "Memory" {
        return Ok(text == fault.name());
    }
    let words = joined(alloc, &[fault.code(), " ", fault.name()])?;
    Ok(text.contains(words.as_str()))
}

/// Returns whether both programs print `line` after their names, and return `status`.
fn is_reported(alloc: Global, fault: &Fault, line: &str, status: u8) -> Result<bool, Fail> {
    for program in ["dictc", "jseg"] {
        let mut reported = Vec::new(alloc);
        let text = joined(alloc, &[program, ": ", line, "\n"])?;
        if report(alloc, program, fault, &mut reported) != status
            || reported.as_slice() != text.as_bytes()
        {
            return Ok(false);
        }
    }
    Ok(true)
}

/// Returns the error of line 7 of a lexicon.
fn of_a_line(alloc: Global, kind: SourceKind) -> Fault {
    Fault::of_source(alloc, Some("a/b.csv"), kind.at(3, 7))
}

/// An error, with the paths that the test cases use.
enum PrintedFault {
    /// In line 7 of a lexicon.
    Source(SourceKind),
    /// In the sources as a whole. It may be reported with a path.
    Sources(SourceKind),
    Misplaced(SourceKind),
    Image(ImageFault),
    Overlay(OverlayFault),
    Format(usize, FormatKind),
    FormatMemory,
    Run(RunFault),
    File,
    Output,
    Memory,
}

impl PrintedFault {
    fn fault(&self, alloc: Global) -> Result<Fault, AllocError> {
        Ok(match self {
            PrintedFault::Source(kind) => of_a_line(alloc, *kind),
            PrintedFault::Sources(kind) => Fault::of_source(alloc, None, kind.at(NO_FILE, 0)),
            PrintedFault::Misplaced(kind) => {
                Fault::Source(String::from_str(alloc, "a/b.csv")?, kind.at(NO_FILE, 0))
            }
            PrintedFault::Image(fault) => Fault::Image(String::from_str(alloc, "s.img")?, *fault),
            PrintedFault::Overlay(fault) => Fault::of_overlay(alloc, "u.img", *fault),
            PrintedFault::Format(at, kind) => {
                let (part, at, kind) = (FormatPart::Node, *at, *kind);
                Fault::Format(FormatFault::Bad { part, at, kind })
            }
            PrintedFault::FormatMemory => Fault::Format(FormatFault::Memory),
            PrintedFault::Run(fault) => Fault::Run(*fault),
            PrintedFault::File => Fault::File(String::from_str(alloc, "a/x.csv")?),
            PrintedFault::Output => Fault::Output,
            PrintedFault::Memory => Fault::Memory,
        })
    }
}

/// Errors, as they are printed.
#[rattlefmt::skip]
static PRINTED_FAULTS: [(PrintedFault, &str, u8); 32] = [
    // (error, line after the program's name, status)
    (PrintedFault::Source(SourceKind::ArrayFull),           "I2 ArrayFull",                    1),
    (PrintedFault::Sources(SourceKind::ArrayFull),          "I2 ArrayFull",                    1),
    (PrintedFault::Misplaced(SourceKind::ArrayFull),        "I2 ArrayFull",                    1),
    (PrintedFault::Sources(SourceKind::FeaturesTooLarge),   "I3 FeaturesTooLarge",             1),
    (PrintedFault::Misplaced(SourceKind::FeaturesTooLarge), "I3 FeaturesTooLarge",             1),
    (PrintedFault::Source(SourceKind::Memory),              "Memory",                          4),
    (PrintedFault::Misplaced(SourceKind::Memory),           "Memory",                          4),
    (PrintedFault::Image(ImageFault::Truncated),            "s.img: L1 Truncated",             1),
    (PrintedFault::Image(ImageFault::BadMagic),             "s.img: L2 BadMagic",              1),
    (PrintedFault::Image(ImageFault::BadLayout(9)),         "s.img: L3 BadLayout 9",           1),
    (PrintedFault::Image(ImageFault::BadSection(5)),        "s.img: L4 BadSection 5",          1),
    (PrintedFault::Image(ImageFault::BadKey(70_000)),       "s.img: L5 BadKey 70000",          1),
    (PrintedFault::Image(ImageFault::BadToken(12)),         "s.img: L6 BadToken 12",           1),
    (PrintedFault::Image(ImageFault::BadText(u32::MAX)),    "s.img: L7 BadText 4294967295",    1),
    (PrintedFault::Image(ImageFault::Digest),               "s.img: L8 Digest",                1),
    (PrintedFault::Image(ImageFault::Memory),               "Memory",                          4),
    (PrintedFault::Overlay(NotSystem),                      "u.img: O1 NotSystem",             1),
    (PrintedFault::Overlay(NotUser(0)),                     "u.img: O2 NotUser 0",             1),
    (PrintedFault::Overlay(OtherSizes(12)),                 "u.img: O3 OtherSizes 12",         1),
    (PrintedFault::Format(1, FormatKind::BadEscape),        "P1 BadEscape 1",                  2),
    (PrintedFault::Format(16, FormatKind::BadItem),         "P2 BadItem 16",                   2),
    (PrintedFault::Format(0, FormatKind::BadIndex),         "P3 BadIndex 0",                   2),
    (PrintedFault::FormatMemory,                            "Memory",                          4),
    (PrintedFault::Run(RunFault::Read(2)),                  "line 2: G1 Read",                 3),
    (PrintedFault::Run(RunFault::Write(1 << 64)),           "G2 Write 18446744073709551616",   3),
    (PrintedFault::Run(RunFault::NotUtf8(3)),               "line 3: G3 NotUtf8",              1),
    (PrintedFault::Run(RunFault::TooLong(1)),               "line 1: G4 TooLong",              1),
    (PrintedFault::Run(RunFault::InputTooLong(9)),          "line 9: G5 InputTooLong",         1),
    (PrintedFault::Run(RunFault::Memory(5)),                "Memory",                          4),
    (PrintedFault::File,                                    "a/x.csv: F1 File",                3),
    (PrintedFault::Output,                                  "F2 Output",                       3),
    (PrintedFault::Memory,                                  "Memory",                          4),
];

/// Returns whether `line` is printed with this status, and contains the error's code and name.
fn is_line(alloc: Global, fault: &Fault, line: &str, status: u8) -> Result<bool, Fail> {
    Ok(is_reported(alloc, fault, line, status)? && has_words(alloc, line, fault)?)
}

#[test]
fn printed_faults(rt: HostRuntime) -> Result<(), Fail> {
    for (reported, line, status) in &PRINTED_FAULTS {
        let fault = reported.fault(rt.alloc())?;
        assert!(rt; is_line(rt.alloc(), &fault, line, *status)?, "{line}");
    }
    Ok(())
}

/// Errors of a line of a source, as they are printed after the path and the line number.
#[rattlefmt::skip]
static PRINTED_LINES: [(SourceKind, &str); 19] = [
    // (kind, code and name)
    (SourceKind::NotUtf8,            "S1 NotUtf8"),
    (SourceKind::TooFewFields,       "S2 TooFewFields"),
    (SourceKind::BadNumber,          "S3 BadNumber"),
    (SourceKind::SurfaceTooLong,     "S4 SurfaceTooLong"),
    (SourceKind::TooManyEntries,     "S5 TooMany"),
    (SourceKind::BadHeader,          "M1 BadHeader"),
    (SourceKind::BadRow,             "M2 BadRow"),
    (SourceKind::PairOutside,        "M3 PairOutside"),
    (SourceKind::TooLarge,           "M4 TooLarge"),
    (SourceKind::BadLine,            "C1 BadLine"),
    (SourceKind::BadRange,           "C2 BadRange"),
    (SourceKind::Twice,              "C3 Twice"),
    (SourceKind::UndefinedCategory,  "C4 NoSuchCategory"),
    (SourceKind::TooManyCategories,  "C5 TooMany"),
    (SourceKind::NoDefault,          "C6 NoDefault"),
    (SourceKind::NoSpace,            "C7 NoSpace"),
    (SourceKind::NoSuchCategory,     "U1 NoSuchCategory"),
    (SourceKind::MissingCategory(4), "U2 MissingCategory 4"),
    (SourceKind::IdOutside,          "I1 IdOutside"),
];

/// Returns whether the error is printed after its path and line number.
fn is_reported_after_place(alloc: Global, kind: SourceKind, words: &str) -> Result<bool, Fail> {
    let fault = of_a_line(alloc, kind);
    let line = joined(alloc, &["a/b.csv:7: ", words])?;
    is_line(alloc, &fault, line.as_str(), 1)
}

#[test]
fn printed_lines(rt: HostRuntime) -> Result<(), Fail> {
    for (kind, words) in &PRINTED_LINES {
        assert!(rt;
            is_reported_after_place(rt.alloc(), *kind, words)?,
            "{words}"
        );
    }
    Ok(())
}

/// Returns whether `fault` is printed as `text`, which contains its code and name.
fn is_printed<F: NamedFault + Display + Copy + Drop>(
    alloc: Global,
    text: &str,
    fault: F,
) -> Result<bool, Fail> {
    Ok(has_words(alloc, text, fault)? && printed(alloc, fault)?.as_str() == text)
}

/// Errors of sources without a path. Errors of runs that wrap them are printed alike.
#[rattlefmt::skip]
static CARRIED_SOURCES: [(SourceKind, &str); 2] = [
    // (error, text)
    (SourceKind::TooManyEntries,     "file 4, line 12: S5 TooMany"),
    (SourceKind::MissingCategory(4), "file 4, line 12: U2 MissingCategory 4"),
];

/// Returns whether an error, and the errors that wrap it, are printed as `text`.
fn is_carried(alloc: Global, kind: SourceKind, text: &str) -> Result<bool, Fail> {
    let fault = kind.at(4, 12);
    Ok(
        has_words(alloc, text, kind)?
            && is_printed(alloc, text, fault)?
            && is_printed(alloc, text, RunFault::Source(fault))?
            && is_printed(alloc, text, RunFault::UserSource(1, fault))?,
    )
}

#[test]
fn carried_sources(rt: HostRuntime) -> Result<(), Fail> {
    for (kind, text) in &CARRIED_SOURCES {
        assert!(rt; is_carried(rt.alloc(), *kind, text)?, "{text}");
    }
    Ok(())
}

/// Returns whether `fault` is printed as `path`, then `text`.
fn is_printed_after(alloc: Global, fault: &Fault, path: &str, text: &str) -> Result<bool, Fail> {
    let printed = printed(alloc, fault)?;
    Ok(printed.as_str().strip_prefix(path) == Some(text))
}

/// Returns the error of an image or of a file at `path`.
fn image_or_file(alloc: Global, path: &str, is_image: bool) -> Result<Fault, AllocError> {
    let path = String::from_str(alloc, path)?;
    if is_image {
        Ok(Fault::Image(path, ImageFault::Truncated))
    } else {
        Ok(Fault::File(path))
    }
}

/// Returns whether each error that has a path prints `path` as `reported`.
fn is_path_printed(alloc: Global, path: &str, reported: &str) -> Result<bool, Fail> {
    let bad = SourceKind::BadNumber.at(3, 7);
    let source = ":7: S3 BadNumber";
    Ok(
        is_printed_after(
            alloc,
            &Fault::of_source(alloc, Some(path), bad),
            reported,
            source,
        )? && is_printed_after(
            alloc,
            &Fault::of_overlay(alloc, path, NotSystem),
            reported,
            ": O1 NotSystem",
        )? && is_printed_after(
            alloc,
            &image_or_file(alloc, path, true)?,
            reported,
            ": L1 Truncated",
        )? && is_printed_after(
            alloc,
            &image_or_file(alloc, path, false)?,
            reported,
            ": F1 File",
        )?,
    )
}

/// Control characters in a path are escaped, so that an error stays one line.
#[rattlefmt::skip]
static ESCAPED_PATHS: [(&str, &str); 5] = [
    // (path, as it is printed)
    ("もも é", "もも é"),
    ("a\\n", "a\\n"),
    ("a\nb\r\t", "a\\nb\\r\\t"),
    ("\u{1b}[1m\u{7f}", "\\u{1b}[1m\\u{7f}"),
    ("\u{85}\0", "\\u{85}\\u{0}"),
];

#[test]
fn escaped_paths(rt: HostRuntime) -> Result<(), Fail> {
    for (path, reported) in &ESCAPED_PATHS {
        assert!(rt; is_path_printed(rt.alloc(), path, reported)?, "{reported}");
    }
    Ok(())
}
