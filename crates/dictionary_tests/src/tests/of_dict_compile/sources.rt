//! Several lexicons, and all sources together.
use super::watched::{RecordedSteps, compiled_with};
use crate::tests::samples::{compiled_of, with_lexicons};
use dict_compile::CompileStep;
use lex_source::SourceLexicon;
use mj_model::SourceKind::{self, BadNumber, IdOutside, MissingCategory};
use mj_model::{MatrixSizes, SourceFault, Sources};
use std::alloc::Global;
use std::test::Fail;

/// Returns the number of entries and of skipped lines of two lexicons, for 2 right ids and 3 left
/// ids.
fn counts(alloc: Global, first: &str, second: &str) -> Result<(u64, u128), SourceFault> {
    let lexicons = [first.as_bytes(), second.as_bytes()];
    let sources = Sources {
        matrix: b"2 3\n",
        ..with_lexicons(&lexicons)
    };
    let compiled = compiled_of(alloc, &sources)?;
    Ok((compiled.entries, compiled.skipped))
}

/// Returns the line of the last entry of two lexicons, sorted by surface.
fn last_line(alloc: Global, first: &str, second: &str) -> Result<Option<u64>, Fail> {
    let mut lexicon = SourceLexicon::new(alloc, MatrixSizes { right: 2, left: 3 });
    lexicon.add(alloc, first.as_bytes(), 3)?;
    lexicon.add(alloc, second.as_bytes(), 4)?;
    let sorted = lexicon.sorted()?;
    Ok(sorted.records().last().map(|record| record.line))
}

/// Lexicons that are accepted.
#[rattlefmt::skip]
static ACCEPTED: [(&str, &str, &str, u64, Option<u64>, u128); 4] = [
    // (what, the two lexicons, number of records, the line of the last one, number of skipped
    // lines)
    ("empty_lexicon", "", "", 0, None, 0),
    ("lexicon_lines", "\n,1,1,5,X\nも,1,1,20,Y\r\n", "", 1, Some(3), 1),
    ("greatest ids", "も,2,1,20,X\n", "も,0,0,20,X\n", 2, Some(1), 0),
    ("skipped ids outside", ",9,9,5,X\n", "\n,1,1,5,X\na,1,1,5,X\n", 1, Some(3), 2),
];

#[test]
fn accepted_lexicons(rt: HostRuntime) -> Result<(), Fail> {
    for (what, first, second, count, line, skipped) in &ACCEPTED {
        let found = counts(rt.alloc(), first, second)?;
        assert!(rt; found == (*count, *skipped), "{what}");
        let last = last_line(rt.alloc(), first, second)?;
        assert!(rt; last == *line, "{what}");
    }
    Ok(())
}

/// Lexicons that are rejected.
#[rattlefmt::skip]
static REJECTED: [(&str, &str, &str, u32, u64, SourceKind); 4] = [
    // (what, the two lexicons, file, line, kind)
    ("a left id outside",     "も,3,1,20,X\n",             "",                  3, 1, IdOutside),
    ("a right id outside",    "も,2,1,20,X\n",             "\nも,1,2,20,X\n",   4, 2, IdOutside),
    ("a line before its ids", "も,5,1,20,X\nも,1,1,x,X\n", "",                  3, 2, BadNumber),
    ("in both",               "も,5,1,20,X\n",             "も,1,1,x,X\n",      3, 1, IdOutside),
];

#[test]
fn invalid_lexicons(rt: HostRuntime) {
    for (what, first, second, file, line, kind) in &REJECTED {
        let fault = counts(rt.alloc(), first, second).err();
        assert!(rt; fault == Some(kind.at(*file, *line)), "{what}");
    }
}

/// Unknown entries of both categories.
const UNKNOWN: &str = "DEFAULT,1,2,9,X\nSPACE,0,0,9,X\n";

/// The kind, file and line of an error.
type At = (SourceKind, u32, u64);

/// Returns the error at `at`, if there is one.
fn fault_at(at: Option<At>) -> Option<SourceFault> {
    let (kind, file, line) = at?;
    Some(kind.at(file, line))
}

/// The first steps if the sources are accepted.
static FIRST_STEPS: [CompileStep; 2] = [
    CompileStep::MatrixRead(MatrixSizes { right: 3, left: 3 }),
    CompileStep::CategoriesRead(2),
];

/// Sources of two categories.
#[rattlefmt::skip]
static ALL_SOURCES: [(&str, &str, &str, Option<At>); 4] = [
    // (what, unk.def, lexicon, the error)
    ("accepted", UNKNOWN, "も,2,1,20,X\n,1,1,1,X\n", None),
    ("an unknown id", "DEFAULT,1,2,9,X\nSPACE,3,0,9,X\n", "も,3,1,20,X\n", Some((IdOutside, 2, 2))),
    ("no unknown SPACE", "DEFAULT,1,2,9,X\n", "", Some((MissingCategory(1), 2, 0))),
    ("an id", "DEFAULT,1,1,9,X\nSPACE,0,0,9,X\n", "も,1,3,20,X\n", Some((IdOutside, 3, 1))),
];

/// Returns whether the sources are accepted with one entry and one skipped line, or have the error
/// `expected`.
fn are_as(alloc: Global, unknown: &str, lexicon: &str, expected: Option<At>) -> bool {
    let sources = Sources {
        matrix: b"3 3\n0 2 100\n",
        chars: b"DEFAULT 0 1 0\nSPACE 0 1 0\n0x0020 SPACE\n",
        unk: unknown.as_bytes(),
        lexicons: &[lexicon.as_bytes()],
    };
    let mut recorded = RecordedSteps::nothing(alloc);
    match compiled_with(alloc, &sources, &mut recorded) {
        Ok(compiled) => {
            let counted = (compiled.entries, compiled.skipped) == (1, 1);
            expected.is_none() && counted && recorded.steps.starts_with(&FIRST_STEPS)
        }
        Err(fault) => fault_at(expected) == Some(fault),
    }
}

#[test]
fn all_sources(rt: HostRuntime) {
    for (what, unknown, lexicon, expected) in &ALL_SOURCES {
        assert!(rt; are_as(rt.alloc(), unknown, lexicon, *expected), "{what}");
    }
}
