//! Sources that are rejected.

use mj_model::SourceKind::{
    self, BadHeader, BadNumber, BadRange, BadRow, IdOutside, MissingCategory, NoSpace,
    NoSuchCategory, PairOutside, TooFewFields, TooLarge,
};
use mj_model::{RunFault, SourceFault, Sources, sample};
use std::alloc::Global;
use std::string::String;
use std::test::Fail;
use test_support::samples::run;

/// Returns whether a run over `sources` fails with `fault`, before it reads or writes.
fn is_rejected(alloc: Global, sources: &Sources<'_>, fault: SourceFault) -> bool {
    run(alloc, sources, &[], "も\n".as_bytes()).is_rejection(RunFault::Source(fault))
}

#[rattlefmt::skip]
static MATRIX_AND_LEXICON: [(&str, &str, &str, SourceKind, u32, u64); 10] = [
    // (what, matrix, lexicon, kind, file and line of the error)
    ("asymmetric_matrix", "2 3\n0 2 100\n1 0 9\n", "も,1,2,20,X\n", IdOutside, 3, 1),
    ("open quote", "2 2\n", "\"ab,1,1,10,X\n", TooFewFields, 3, 1),
    ("cost too low", "2 2\n", "も,1,1,-32769,X\n", BadNumber, 3, 1),
    ("row too dear", "2 2\n0 0 40000\n", "", BadRow, 0, 2),
    ("row outside", "2 2\n2 0 1\n", "", PairOutside, 0, 2),
    ("header of 0", "0 2\n", "", BadHeader, 0, 1),
    ("no header", "", "", BadHeader, 0, 0),
    ("too large", "65535 65535\n", "", TooLarge, 0, 1),
    ("matrix before lexicon", "0 2\n", "も,1,1,x,X\n", BadHeader, 0, 1),
    ("line before its ids", "2 2\n", "も,5,1,20,X\nも,1,1,x,X\n", BadNumber, 3, 2),
];

#[test]
fn matrix_and_lexicon(rt: HostRuntime) {
    for (what, matrix, lexicon, kind, file, line) in &MATRIX_AND_LEXICON {
        let sources = Sources {
            matrix: matrix.as_bytes(),
            lexicons: &[lexicon.as_bytes()],
            ..sample()
        };
        let fault = kind.at(*file, *line);
        assert!(rt; is_rejected(rt.alloc(), &sources, fault), "{what}");
    }
}

/// Returns the lines of `text` that don't start with `prefix`.
fn without(alloc: Global, text: &[u8], prefix: &str) -> Result<String, Fail> {
    let mut kept = String::new(alloc);
    for line in std::str::from_utf8(text)?.lines() {
        if !line.starts_with(prefix) {
            kept.push_str(line)?;
            kept.push('\n')?;
        }
    }
    Ok(kept)
}

/// A label, the prefixes of the lines left out of `char.def` and of `unk.def`, a further line of
/// each, and the error by its kind, file and line.
type LinesRow = (
    &'static str,
    &'static str,
    &'static str,
    &'static str,
    &'static str,
    (SourceKind, u32, u64),
);

/// Returns whether a run over the sample with changed lines fails with the error of `row`.
fn lines_are_rejected(alloc: Global, row: &LinesRow) -> Result<bool, Fail> {
    let (_what, no_chars, no_unk, chars, unk, (kind, file, line)) = row;
    let mut char_lines = without(alloc, sample().chars, no_chars)?;
    char_lines.push_str(chars)?;
    let mut unk_lines = without(alloc, sample().unk, no_unk)?;
    unk_lines.push_str(unk)?;
    let sources = Sources {
        chars: char_lines.as_bytes(),
        unk: unk_lines.as_bytes(),
        ..sample()
    };
    Ok(is_rejected(alloc, &sources, kind.at(*file, *line)))
}

const ALL: &str = "none";

const IDS: &str = "KANJI,2,1,1000,X\nSPACE,1,2,1000,X\n";

#[rattlefmt::skip]
static LINES: [LinesRow; 8] = [
    // (what, prefixes left out of char.def, of unk.def, a further line of each, error)
    ("no SPACE",           "SPACE", ALL,     "", "", (NoSpace, 1, 0)),
    ("missing_categories", ALL,     "KANJI", "", "", (MissingCategory(4), 2, 0)),
    ("both",               "SPACE", "KANJI", "", "", (NoSpace, 1, 0)),
    ("beyond Unicode", ALL, ALL, "0x110000 KANJI\n", "", (BadRange, 1, 13)),
    ("an id outside", ALL, ALL, "", IDS, (IdOutside, 2, 7)),
    ("lines before ids", ALL, ALL, "", "KANJI,2,1,9,X\nKANJI,1,1,x,X\n", (BadNumber, 2, 8)),
    ("none before ids", ALL, "KANJI", "", "SPACE,2,1,1000,X\n", (MissingCategory(4), 2, 0)),
    ("no such category", ALL, ALL, "", "KANA,1,1,1000,X\n", (NoSuchCategory, 2, 7)),
];

#[test]
fn categories_and_unknown_entries(rt: HostRuntime) -> Result<(), Fail> {
    for row in &LINES {
        let what = row.0;
        let rejected = lines_are_rejected(rt.alloc(), row)?;
        assert!(rt; rejected, "{what}");
    }
    Ok(())
}
